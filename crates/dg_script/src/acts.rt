//! What a line is, by its words.
ghost use Rattle.std.specs.Prelude.{◌≡◌};
ghost use Rattle.dg_base.specs.Refusal.{Gives};
ghost use Rattle.dg_script.specs.Acts.{place_fault, alone, pin_in, drop_in, ask_in, build_in, alias_in, evict_in, row_by, row_of, row_in, verb_named};

use crate::command::{Act, ScriptCode, StepWords};
use crate::endpoints::ep_of;
use crate::forms::{count_of, name_of, node_of, pin_name_of, pin_of};
use crate::steps::read_step;
use crate::verbs::{Verb, verb_named};
use crate::words::Word;
use dg_base::Refusal;
use std::alloc::Global;

/// A line of a script.
#[derive(Debug, Drop)]
pub(crate) enum Row {
    /// No command.
    Nothing,
    Begin,
    End,
    Step(StepWords),
    Act(Act),
}

/// The line of these words, inside a block or outside.
pub(crate) fn read_row(
    alloc: Global,
    inside: bool,
    words: &[Word],
) -> Result<Row, Refusal<ScriptCode>>
    ensures { Gives (λ x. x) result (row_in inside words.now) }
{
    let Some((first, others)) = words.split_first() else {
        return Ok(Row::Nothing);
    };
    read_row_of(alloc, inside, verb_named(first.text.as_str()), others)
}

fn read_row_of(
    alloc: Global,
    inside: bool,
    verb: Option<Verb>,
    words: &[Word],
) -> Result<Row, Refusal<ScriptCode>>
    ensures { Gives (λ x. x) result (row_of inside verb words.now) }
{
    let Some(verb) = verb else {
        return Err(Refusal::Because(ScriptCode::Word));
    };
    match place_fault(inside, verb) {
        Some(code) => Err(Refusal::Because(code)),
        None => read_row_by(alloc, verb, words),
    }
}

/// A block holds steps, and `end` closes one.
fn place_fault(inside: bool, verb: Verb) -> Option<ScriptCode>
    ensures { result ≡ place_fault inside verb }
{
    match (inside, verb) {
        (true, Verb::Step(_)) => None,
        (true, Verb::End) => None,
        (true, _) => Some(ScriptCode::InBlock),
        (false, Verb::End) => Some(ScriptCode::NoBlock),
        (false, _) => None,
    }
}

fn read_row_by(alloc: Global, verb: Verb, words: &[Word]) -> Result<Row, Refusal<ScriptCode>>
    ensures { Gives (λ x. x) result (row_by verb words.now) }
{
    match verb {
        Verb::Step(step) => {
            let step = read_step(alloc, step, words)?;
            Ok(Row::Step(step))
        }
        Verb::Begin => read_alone(Row::Begin, words),
        Verb::End => read_alone(Row::End, words),
        Verb::Undo => read_alone(Row::Act(Act::Undo), words),
        Verb::Redo => read_alone(Row::Act(Act::Redo), words),
        Verb::Pin => Ok(Row::Act(read_pin(words)?)),
        Verb::Drop => Ok(Row::Act(read_drop(words)?)),
        Verb::Ask => Ok(Row::Act(read_ask(alloc, words)?)),
        Verb::Build => Ok(Row::Act(read_build(words)?)),
        Verb::Alias => Ok(Row::Act(read_alias(words)?)),
        Verb::Evict => Ok(Row::Act(read_evict(words)?)),
    }
}

/// The row of a command that takes no other word.
fn read_alone(row: Row, words: &[Word]) -> Result<Row, Refusal<ScriptCode>>
    ensures { Gives (λ x. x) result (alone row words.now) }
{
    if !words.is_empty() {
        return Err(Refusal::Because(ScriptCode::Arity));
    }
    Ok(row)
}

fn read_pin(words: &[Word]) -> Result<Act, Refusal<ScriptCode>>
    ensures { Gives (λ x. x) result (pin_in words.now) }
{
    let [name] = words else {
        return Err(Refusal::Because(ScriptCode::Arity));
    };
    let name = pin_name_of(name)?;
    Ok(Act::Pin { name })
}

fn read_drop(words: &[Word]) -> Result<Act, Refusal<ScriptCode>>
    ensures { Gives (λ x. x) result (drop_in words.now) }
{
    let [name] = words else {
        return Err(Refusal::Because(ScriptCode::Arity));
    };
    let name = pin_name_of(name)?;
    Ok(Act::Drop { name })
}

fn read_ask(alloc: Global, words: &[Word]) -> Result<Act, Refusal<ScriptCode>>
    ensures { Gives (λ x. x) result (ask_in words.now) }
{
    let [pin, at] = words else {
        return Err(Refusal::Because(ScriptCode::Arity));
    };
    let pin = pin_of(pin)?;
    let at = ep_of(alloc, at)?;
    Ok(Act::Ask { pin, at })
}

fn read_build(words: &[Word]) -> Result<Act, Refusal<ScriptCode>>
    ensures { Gives (λ x. x) result (build_in words.now) }
{
    let [node] = words else {
        return Err(Refusal::Because(ScriptCode::Arity));
    };
    let node = node_of(node)?;
    Ok(Act::Build { node })
}

fn read_alias(words: &[Word]) -> Result<Act, Refusal<ScriptCode>>
    ensures { Gives (λ x. x) result (alias_in words.now) }
{
    let [name, node] = words else {
        return Err(Refusal::Because(ScriptCode::Arity));
    };
    let name = name_of(name)?;
    let node = node_of(node)?;
    Ok(Act::Alias { name, node })
}

fn read_evict(words: &[Word]) -> Result<Act, Refusal<ScriptCode>>
    ensures { Gives (λ x. x) result (evict_in words.now) }
{
    let [most] = words else {
        return Err(Refusal::Because(ScriptCode::Arity));
    };
    let most = count_of(most)?;
    Ok(Act::Evict { most })
}
