//! Whether the answer of a rule takes a production.
ghost use Rattle.std.specs.Prelude.{◌≡◌, IfOk, length, map};
ghost use Rattle.std.specs.List.{list_any};
ghost use Rattle.dg_base.specs.declared.answer.Answer.{Answer};
ghost use Rattle.dg_base.specs.declared.ids.Endpoint.{Endpoint};
ghost use Rattle.dg_base.specs.Rule.{named_by, named_by_args};
ghost use Rattle.dg_base.specs.Value.{faults_of_args, is_cycle, one_without, productions_by, productions_of_call};

use dg_answer::{arg_values, faults_of_args, is_cycle};
use dg_base::{ArgRule, ArgVal, Held, Kind, Rule, Schema};
use std::alloc::{AllocError, Global};

/// How many productions the answer of a rule takes, where `answers` are those of the endpoints that it names, in
/// order: one where the rule is a call, none of the answers is `Cycle` and no argument stays bad, and else none.
pub(crate) fn productions_by<S: Schema>(
    alloc: Global,
    rule: &Rule,
    answers: &[Held],
) -> Result<u64, AllocError>
    requires { length (named_by rule.now) ≡ length answers.now }
    ensures { (value : Endpoint → Answer) → answers.now ≡ map value (named_by rule.now) → IfOk result (λ n. n ≡ productions_by S.tables value rule.now) }
{
    match rule {
        Rule::Call { kind, args, .. } => of_call::<S>(alloc, *kind, args.as_slice(), answers),
        _ => Ok(0),
    }
}

fn of_call<S: Schema>(
    alloc: Global,
    kind: Kind,
    args: &[ArgRule],
    answers: &[Held],
) -> Result<u64, AllocError>
    requires { length (named_by_args args.now) ≡ length answers.now }
    ensures { (value : Endpoint → Answer) → answers.now ≡ map value (named_by_args args.now) → IfOk result (λ n. n ≡ productions_of_call S.tables kind value args.now) }
{
    if has_cycle(answers) {
        return Ok(0);
    }
    let values = arg_values::<S>(alloc, kind, args, answers)?;
    one_without_faults(alloc, &values)
}

fn has_cycle(answers: &[Held]) -> bool
    ensures { result ≡ list_any is_cycle answers.now }
{
    answers.iter().any(|answer| is_cycle(answer.answer()))
}

// One where no argument has faults.
fn one_without_faults(alloc: Global, values: &[ArgVal]) -> Result<u64, AllocError>
    ensures { IfOk result (λ n. n ≡ one_without (faults_of_args values.now)) }
{
    let faults = faults_of_args(alloc, values)?;
    if faults.is_empty() { Ok(1) } else { Ok(0) }
}
