//! The value of an endpoint by a table of the answers of all endpoints: each fuel's table follows
//! from the last one's, until nothing changes.
ghost use Rattle.std.specs.Prelude.{◌≡◌, IfOk, [], length, map, count_by};
ghost use Rattle.indexmap.specs.IndexSet.{insert_all};
ghost use Rattle.dg_base.specs.declared.answer.Answer.TheVariants as answer;
ghost use Rattle.dg_base.specs.declared.answer.FaultCode.TheVariants as code;
ghost use Rattle.dg_base.specs.Same.{same_end};
ghost use Rattle.dg_base.specs.Value.{is_cycle, one_fault as fault_alone, value_at};
ghost use Rattle.dg_reads.specs.AnswerTable.{known, next_answer, next_answers, endpoint_rule, first_answer_of, answers_after};

use crate::core_reads::CoreReads;
use crate::ends::endpoints;
use crate::rules::rule;
use dg_answer::{answer_from, is_cycle, named_by, one_fault};
use dg_base::{Answer, Endpoint, FaultCode, Held, Rule, Schema, Steps};
use indexmap::IndexSet;
use std::alloc::{AllocError, Global};
use std::sync::ledger::Ledger;

/// An endpoint with its rule.
#[derive(Debug, Drop)]
pub(crate) struct EndpointRule {
    pub(crate) at: Endpoint,
    pub(crate) rule: Rule,
}

/// The value of an endpoint, by the values of all endpoints. There are as many rounds as the longest
/// way along dependencies takes, and one at least; each asks anew just the endpoints that aren't
/// settled.
pub fn plain_value<S: Schema, G: CoreReads<S>, L: Ledger>(
    graph: &G,
    at: Endpoint,
    steps: &mut Steps<L>,
) -> Result<Held, AllocError>
    ensures { IfOk result (λ v. v ≡ value_at S.tables (G.graph graph.now) at) }
{
    graph.is_sound();
    let alloc = graph.alloc();
    let ends = each_once(alloc, &endpoints(graph)?)?;
    let rules = rules_of(graph, ends.as_slice())?;
    let first = first_answers::<S, L>(alloc, &rules, steps)?;
    let answers = settled_answers::<S, L>(alloc, &ends, &rules, first, steps)?;
    known(alloc, &ends, &answers, at)
}

// These endpoints, each with its rule.
fn rules_of<S: Schema, G: CoreReads<S>>(
    graph: &G,
    ends: &[Endpoint],
) -> Result<Vec<EndpointRule>, AllocError>
    ensures { IfOk result (λ v. v.items ≡ map (endpoint_rule S.tables (G.graph graph.now)) ends.now) }
{
    let mut all = Vec::with_capacity(graph.alloc(), ends.len())?;
    for end in ends {
        let at = *end;
        let rule = rule(graph, at)?;
        all.push(EndpointRule { at, rule })?;
    }
    Ok(all)
}

// The endpoints, each once, so that one is found in constant time on average.
fn each_once(alloc: Global, ends: &[Endpoint]) -> Result<IndexSet<Endpoint>, AllocError>
    ensures { IfOk result (λ s. s.keys ≡ insert_all same_end [] ends.now) }
{
    let mut all = IndexSet::new(alloc);
    for end in ends {
        all.insert(*end)?;
    }
    Ok(all)
}

// The answer that stands in an endpoint's place.
fn known(
    alloc: Global,
    ends: &IndexSet<Endpoint>,
    answers: &[Held],
    at: Endpoint,
) -> Result<Held, AllocError>
    ensures { IfOk result (λ a. a ≡ known ends.now.keys answers.now at) }
{
    let Some(place) = ends.get_index_of(&at) else {
        return absent(alloc, at);
    };
    match answers.get(place) {
        Some(answer) => answer.share(),
        None => absent(alloc, at),
    }
}

fn absent(alloc: Global, at: Endpoint) -> Result<Held, AllocError>
    ensures { IfOk result (λ a. a ≡ fault_alone at code.NoEndpoint) }
{
    Held::of(alloc, one_fault(alloc, at, FaultCode::NoEndpoint)?)
}

fn answers_at(
    alloc: Global,
    ends: &IndexSet<Endpoint>,
    answers: &[Held],
    named: &[Endpoint],
) -> Result<Vec<Held>, AllocError>
    ensures { IfOk result (λ v. v.items ≡ map (known ends.now.keys answers.now) named.now) }
{
    let mut all = Vec::with_capacity(alloc, named.len())?;
    for end in named {
        all.push(known(alloc, ends, answers, *end)?)?;
    }
    Ok(all)
}

fn cycles(alloc: Global, named: &[Endpoint]) -> Result<Vec<Held>, AllocError>
    ensures { IfOk result (λ v. v.items ≡ map (λ o. answer.Cycle) named.now) }
{
    let mut all = Vec::with_capacity(alloc, named.len())?;
    for _end in named {
        all.push(Held::of(alloc, Answer::Cycle)?)?;
    }
    Ok(all)
}

// The answers while all others are cycles.
fn first_answers<S: Schema, L: Ledger>(
    alloc: Global,
    rules: &[EndpointRule],
    steps: &mut Steps<L>,
) -> Result<Vec<Held>, AllocError>
    ensures { IfOk result (λ v. v.items ≡ map (first_answer_of S.tables) rules.now) }
{
    let mut all = Vec::with_capacity(alloc, rules.len())?;
    for one in rules {
        all.push(first_answer::<S, L>(alloc, one, steps)?)?;
    }
    Ok(all)
}

fn first_answer<S: Schema, L: Ledger>(
    alloc: Global,
    rule: &EndpointRule,
    steps: &mut Steps<L>,
) -> Result<Held, AllocError>
    ensures { IfOk result (λ a. a ≡ first_answer_of S.tables rule.now) }
{
    let named = named_by(alloc, &rule.rule)?;
    let answers = cycles(alloc, &named)?;
    answer_from::<S, L>(alloc, rule.at, &rule.rule, &answers, steps)
}

// Rounds until one settles nothing.
fn settled_answers<S: Schema, L: Ledger>(
    alloc: Global,
    ends: &IndexSet<Endpoint>,
    rules: &[EndpointRule],
    first: Vec<Held>,
    steps: &mut Steps<L>,
) -> Result<Vec<Held>, AllocError>
    requires { length first.items ≡ length rules.now }
    ensures { IfOk result (λ v. v.items ≡ answers_after (length rules.now) S.tables ends.now.keys rules.now first.items) }
{
    let mut answers = first;
    for _round in 0..rules.len() {
        let next = next_answers::<S, L>(alloc, ends, rules, &answers, steps)?;
        if cycle_count(&next) == cycle_count(&answers) {
            return Ok(answers);
        }
        answers = next;
    }
    Ok(answers)
}

fn cycle_count(answers: &[Held]) -> usize
    ensures { result ≡ count_by is_cycle answers.now }
{
    answers.iter().filter(|a| is_cycle(a.answer())).count()
}

fn next_answers<S: Schema, L: Ledger>(
    alloc: Global,
    ends: &IndexSet<Endpoint>,
    rules: &[EndpointRule],
    answers: &[Held],
    steps: &mut Steps<L>,
) -> Result<Vec<Held>, AllocError>
    requires { length answers.now ≡ length rules.now }
    ensures { IfOk result (λ v. v.items ≡ next_answers S.tables (known ends.now.keys answers.now) rules.now answers.now) }
{
    let mut all = Vec::with_capacity(alloc, rules.len())?;
    for place in 0..rules.len() {
        let next = next_answer::<S, L>(
            alloc,
            ends,
            answers,
            &rules[place],
            &answers[place],
            steps,
        )?;
        all.push(next)?;
    }
    Ok(all)
}

fn next_answer<S: Schema, L: Ledger>(
    alloc: Global,
    ends: &IndexSet<Endpoint>,
    answers: &[Held],
    rule: &EndpointRule,
    past: &Held,
    steps: &mut Steps<L>,
) -> Result<Held, AllocError>
    ensures { IfOk result (λ a. a ≡ next_answer S.tables (known ends.now.keys answers.now) rule.now past.now) }
{
    if !is_cycle(past.answer()) {
        return past.share();
    }
    let named = named_by(alloc, &rule.rule)?;
    let found = answers_at(alloc, ends, answers, &named)?;
    answer_from::<S, L>(alloc, rule.at, &rule.rule, &found, steps)
}
