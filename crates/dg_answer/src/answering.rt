//! The answer of a rule from the answers of the endpoints that it names. Nothing here reads a graph.
ghost use Rattle.std.specs.Prelude.{◌≡◌, ◌≤◌, ◌+◌, IfOk, OnOk, length, map};
ghost use Rattle.std.specs.List.{list_any};
ghost use Rattle.dg_base.specs.declared.answer.Answer.{Answer};
ghost use Rattle.dg_base.specs.declared.ids.Endpoint.{Endpoint};
ghost use Rattle.dg_base.specs.Rule.{named_by_arg, named_by_args, named_by};
ghost use Rattle.dg_base.specs.Value.{is_cycle, is_bad, one_fault, answer_by, answer_of, arg_value, input_value, single_value, produced, productions_by, productions_of_call, called_by, one_without, faults_of_args};

use crate::faults::faults_of_args;
use dg_base::{
    Answer, ArgRule, ArgVal, Datum, Endpoint, Ends, Fault, FaultCode, Faults, Held, Helds, Kind,
    Label, Made, PropVal, Props, Role, Rule, Schema, Steps,
};
use std::alloc::{AllocError, Global};
use std::sync::ledger::Ledger;

/// A produced value may weigh so much.
pub const MAX_WEIGHT: u64 = 16777216;

/// The answer of a rule, where `answers` are those of the endpoints that it names, in order: what the
/// definition gives for any function that has these answers. It makes one production where the rule is
/// a call, none of the answers is `Cycle` and no argument stays bad, and no more where memory is
/// refused.
pub fn answer_from<S: Schema, L: Ledger>(
    alloc: Global,
    at: Endpoint,
    rule: &Rule,
    answers: &[Held],
    steps: &mut Steps<L>,
) -> Result<Held, AllocError>
    requires { length (named_by rule.now) ≡ length answers.now }
    ensures answer { (value : Endpoint → Answer) → answers.now ≡ map value (named_by rule.now) →
        IfOk result (λ a. a ≡ answer_by S.tables at value rule.now) }
    ensures steps { (value : Endpoint → Answer) → answers.now ≡ map value (named_by rule.now) →
        OnOk result (steps.new ≡ steps.old + productions_by S.tables value rule.now) }
    ensures most { (value : Endpoint → Answer) → answers.now ≡ map value (named_by rule.now) →
        steps.new ≤ steps.old + productions_by S.tables value rule.now }
{
    match rule {
        Rule::Absent => Held::of(alloc, one_fault(alloc, at, FaultCode::NoEndpoint)?),
        Rule::Defective => Held::of(alloc, one_fault(alloc, at, FaultCode::Defective)?),
        Rule::Own(value) => Held::of(alloc, Answer::good(value.copy(alloc)?)),
        Rule::From(_) => answers[0].share(),
        Rule::Default(value) => Held::of(alloc, Answer::good(value.copy(alloc)?)),
        Rule::Call { kind, label, args } => {
            let answer = called::<S, L>(alloc, at, *kind, *label, args.as_slice(), answers, steps)?;
            Held::of(alloc, answer)
        }
    }
}

// The answer of a call, where `answers` are those of the endpoints that its arguments name, in order.
fn called<S: Schema, L: Ledger>(
    alloc: Global,
    at: Endpoint,
    kind: Kind,
    label: Label,
    args: &[ArgRule],
    answers: &[Held],
    steps: &mut Steps<L>,
) -> Result<Answer, AllocError>
    requires { length (named_by_args args.now) ≡ length answers.now }
    ensures answer { (value : Endpoint → Answer) → answers.now ≡ map value (named_by_args args.now) →
        IfOk result (λ a. a ≡ called_by S.tables at kind label value args.now) }
    ensures steps { (value : Endpoint → Answer) → answers.now ≡ map value (named_by_args args.now) →
        OnOk result (steps.new ≡ steps.old + productions_of_call S.tables kind value args.now) }
    ensures most { (value : Endpoint → Answer) → answers.now ≡ map value (named_by_args args.now) →
        steps.new ≤ steps.old + productions_of_call S.tables kind value args.now }
{
    if has_cycle(answers) {
        return Ok(Answer::Cycle);
    }
    let values = arg_values::<S>(alloc, kind, args, answers)?;
    produced::<S, L>(alloc, at, kind, label, &values, steps)
}

/// Whether a cycle can be reached.
pub fn is_cycle(answer: &Answer) -> bool
    ensures { result ≡ is_cycle answer.now }
{
    match answer {
        Answer::Good(_) => false,
        Answer::Bad(_) => false,
        Answer::Cycle => true,
    }
}

/// Whether there are faults.
pub fn is_bad(answer: &Answer) -> bool
    ensures { result ≡ is_bad answer.now }
{
    match answer {
        Answer::Good(_) => false,
        Answer::Bad(_) => true,
        Answer::Cycle => false,
    }
}

fn has_cycle(answers: &[Held]) -> bool
    ensures { result ≡ list_any is_cycle answers.now }
{
    for answer in answers {
        if is_cycle(answer.answer()) {
            return true;
        }
    }
    false
}

/// One fault.
pub fn one_fault(alloc: Global, at: Endpoint, code: FaultCode) -> Result<Answer, AllocError>
    ensures { IfOk result (λ a. a ≡ one_fault at code) }
{
    let mut faults = Vec::new(alloc);
    faults.push(Fault { at, code })?;
    Ok(Answer::Bad(Faults::of(faults)))
}

/// What a production gives for these arguments. Where they have faults it isn't made, and the
/// answer has their first 64, each once.
pub fn produced<S: Schema, L: Ledger>(
    alloc: Global,
    at: Endpoint,
    kind: Kind,
    label: Label,
    args: &[ArgVal],
    steps: &mut Steps<L>,
) -> Result<Answer, AllocError>
    ensures answer { IfOk result (λ a. a ≡ produced S.tables at kind label args.now) }
    ensures steps { OnOk result (steps.new ≡ steps.old + one_without (faults_of_args args.now)) }
    ensures most { steps.new ≤ steps.old + one_without (faults_of_args args.now) }
{
    let faults = faults_of_args(alloc, args)?;
    if !faults.is_empty() {
        return Ok(Answer::Bad(Faults::of(faults)));
    }
    let made = S::produce(alloc, kind, label, args, steps)?;
    answer_of(alloc, at, made)
}

/// A production's answer. A value that weighs more than `MAX_WEIGHT` is a fault.
pub fn answer_of(alloc: Global, at: Endpoint, made: Made) -> Result<Answer, AllocError>
    ensures { IfOk result (λ a. a ≡ answer_of at made) }
{
    match made {
        Made::Good(value) => {
            if value.weight() <= MAX_WEIGHT {
                Ok(Answer::good(value))
            } else {
                one_fault(alloc, at, FaultCode::TooLong)
            }
        }
        Made::Fault(code) => one_fault(alloc, at, code),
    }
}

/// The arguments of a production, where `answers` are those of the endpoints that they name, in
/// order.
pub fn arg_values<S: Schema>(
    alloc: Global,
    kind: Kind,
    args: &[ArgRule],
    answers: &[Held],
) -> Result<Vec<ArgVal>, AllocError>
    requires { length (named_by_args args.now) ≡ length answers.now }
    ensures { (value : Endpoint → Answer) → answers.now ≡ map value (named_by_args args.now) →
        IfOk result (λ v. v.items ≡ map (arg_value S.tables kind value) args.now) }
{
    let mut all = Vec::with_capacity(alloc, args.len())?;
    let mut rest = answers;
    for arg in args {
        let (own, others) = rest.split_at(named_count(arg));
        all.push(arg_value::<S>(alloc, kind, arg, own)?)?;
        rest = others;
    }
    Ok(all)
}

// How many endpoints an argument names.
fn named_count(arg: &ArgRule) -> usize
    ensures { result ≡ length (named_by_arg arg.now) }
{
    match arg {
        ArgRule::Own(_) => 1,
        ArgRule::Input { sources, .. } => sources.len(),
        ArgRule::Open(_) => 0,
    }
}

/// An argument from the answers of the endpoints that it names.
pub fn arg_value<S: Schema>(
    alloc: Global,
    kind: Kind,
    arg: &ArgRule,
    answers: &[Held],
) -> Result<ArgVal, AllocError>
    requires { length (named_by_arg arg.now) ≡ length answers.now }
    ensures { (value : Endpoint → Answer) → answers.now ≡ map value (named_by_arg arg.now) →
        IfOk result (λ v. v ≡ arg_value S.tables kind value arg.now) }
{
    match arg {
        ArgRule::Own(_) => Ok(ArgVal::One(answers[0].share()?)),
        ArgRule::Input { input, .. } => input_value::<S>(alloc, kind, *input, answers),
        ArgRule::Open(props) => Ok(ArgVal::Open(copied(alloc, props.as_slice())?)),
    }
}

fn input_value<S: Schema>(
    alloc: Global,
    kind: Kind,
    input: Label,
    answers: &[Held],
) -> Result<ArgVal, AllocError>
    ensures { IfOk result (λ v. v ≡ input_value (S.tables.role kind input) (S.tables.substitute kind input) answers.now) }
{
    match S::role(kind, input) {
        Role::Input {
            array,
            substitute,
            ..
        } => {
            if array {
                Ok(ArgVal::Many(shared(alloc, answers)?))
            } else {
                single_value::<S>(alloc, kind, input, substitute, answers)
            }
        }
        _ => Ok(ArgVal::Nil),
    }
}

fn single_value<S: Schema>(
    alloc: Global,
    kind: Kind,
    input: Label,
    has_substitute: bool,
    answers: &[Held],
) -> Result<ArgVal, AllocError>
    ensures { IfOk result (λ v. v ≡ single_value has_substitute (S.tables.substitute kind input) answers.now) }
{
    let Some(answer) = answers.first() else {
        return Ok(ArgVal::Nil);
    };
    if has_substitute && is_bad(answer.answer()) {
        Ok(ArgVal::Sub(S::substitute(alloc, kind, input)?))
    } else {
        Ok(ArgVal::One(answer.share()?))
    }
}

fn shared(alloc: Global, answers: &[Held]) -> Result<Helds, AllocError>
    ensures { IfOk result (λ hs. hs ≡ answers.now) }
{
    let mut all = Helds::new(alloc);
    for answer in answers {
        all.push(answer.share()?)?;
    }
    Ok(all)
}

fn copied(alloc: Global, props: &[PropVal]) -> Result<Props, AllocError>
    ensures { IfOk result (λ ps. ps ≡ props.now) }
{
    let mut all = Props::new(alloc);
    for prop in props {
        all.push(prop.copy()?)?;
    }
    Ok(all)
}
