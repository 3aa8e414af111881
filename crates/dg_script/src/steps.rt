//! The steps of transactions, by the words behind the first one.
ghost use Rattle.std.specs.Prelude.{◌≡◌};
ghost use Rattle.dg_base.specs.Refusal.{Gives};
ghost use Rattle.dg_script.specs.Steps.{make_in, override_in, clear_in, delete_in, defective_in, connect_in, disconnect_in, vec3_in, quat_in, value_of, one_value_in, value_in, set_plain_in, quoted_of, set_named_in, set_in, step_in};

use crate::command::{ScriptCode, SetWords, StepWords};
use crate::endpoints::{arc_end_of, ep_of, splits_by_name};
use crate::forms::{decimal_of, is_bare, kind_of, name_of, node_of, switch_of, type_of};
use crate::verbs::StepVerb;
use crate::words::Word;
use dg_base::{Datum, Refusal, Str, V3, V4};
use std::alloc::Global;

/// The step that the words behind its first one are.
pub(crate) fn read_step(
    alloc: Global,
    verb: StepVerb,
    words: &[Word],
) -> Result<StepWords, Refusal<ScriptCode>>
    ensures { Gives (λ x. x) result (step_in verb words.now) }
{
    match verb {
        StepVerb::Make => read_make(words),
        StepVerb::Override => read_override(words),
        StepVerb::Set => read_set(alloc, words),
        StepVerb::Clear => read_clear(alloc, words),
        StepVerb::Delete => read_delete(words),
        StepVerb::Defective => read_defective(words),
        StepVerb::Connect => read_connect(alloc, words),
        StepVerb::Disconnect => read_disconnect(alloc, words),
    }
}

fn read_make(words: &[Word]) -> Result<StepWords, Refusal<ScriptCode>>
    ensures { Gives (λ x. x) result (make_in words.now) }
{
    let [kind, name] = words else {
        return Err(Refusal::Because(ScriptCode::Arity));
    };
    let kind = kind_of(kind)?;
    let name = name_of(name)?;
    Ok(StepWords::Make { kind, name })
}

fn read_override(words: &[Word]) -> Result<StepWords, Refusal<ScriptCode>>
    ensures { Gives (λ x. x) result (override_in words.now) }
{
    let [name, node] = words else {
        return Err(Refusal::Because(ScriptCode::Arity));
    };
    let name = name_of(name)?;
    let node = node_of(node)?;
    Ok(StepWords::Override { name, node })
}

fn read_clear(alloc: Global, words: &[Word]) -> Result<StepWords, Refusal<ScriptCode>>
    ensures { Gives (λ x. x) result (clear_in words.now) }
{
    let [at] = words else {
        return Err(Refusal::Because(ScriptCode::Arity));
    };
    let at = ep_of(alloc, at)?;
    Ok(StepWords::Clear { at })
}

fn read_delete(words: &[Word]) -> Result<StepWords, Refusal<ScriptCode>>
    ensures { Gives (λ x. x) result (delete_in words.now) }
{
    let [node] = words else {
        return Err(Refusal::Because(ScriptCode::Arity));
    };
    let node = node_of(node)?;
    Ok(StepWords::Delete { node })
}

fn read_defective(words: &[Word]) -> Result<StepWords, Refusal<ScriptCode>>
    ensures { Gives (λ x. x) result (defective_in words.now) }
{
    let [node, on] = words else {
        return Err(Refusal::Because(ScriptCode::Arity));
    };
    let node = node_of(node)?;
    let on = switch_of(on)?;
    Ok(StepWords::Defective { node, on })
}

fn read_connect(alloc: Global, words: &[Word]) -> Result<StepWords, Refusal<ScriptCode>>
    ensures { Gives (λ x. x) result (connect_in words.now) }
{
    let [src, dst] = words else {
        return Err(Refusal::Because(ScriptCode::Arity));
    };
    let src = arc_end_of(alloc, src)?;
    let dst = arc_end_of(alloc, dst)?;
    Ok(StepWords::Connect { src, dst })
}

fn read_disconnect(alloc: Global, words: &[Word]) -> Result<StepWords, Refusal<ScriptCode>>
    ensures { Gives (λ x. x) result (disconnect_in words.now) }
{
    let [src, dst] = words else {
        return Err(Refusal::Because(ScriptCode::Arity));
    };
    let src = arc_end_of(alloc, src)?;
    let dst = arc_end_of(alloc, dst)?;
    Ok(StepWords::Disconnect { src, dst })
}

/// The last `.` or `:` of the first of these words says which of the two forms it is.
fn read_set(alloc: Global, words: &[Word]) -> Result<StepWords, Refusal<ScriptCode>>
    ensures { Gives (λ x. x) result (set_in words.now) }
{
    let Some((at, words)) = words.split_first() else {
        return Err(Refusal::Because(ScriptCode::Arity));
    };
    if splits_by_name(at) {
        read_set_named(alloc, at, words)
    } else {
        read_set_plain(alloc, at, words)
    }
}

fn read_set_named(
    alloc: Global,
    at: &Word,
    words: &[Word],
) -> Result<StepWords, Refusal<ScriptCode>>
    ensures { Gives (λ x. x) result (set_named_in at.now words.now) }
{
    let [ptype, text] = words else {
        return Err(Refusal::Because(ScriptCode::Arity));
    };
    let ptype = type_of(ptype)?;
    let text = quoted_of(text)?;
    let at = ep_of(alloc, at)?;
    Ok(StepWords::Set {
        at,
        value: SetWords::Named { ptype, text },
    })
}

fn quoted_of(word: &Word) -> Result<Str, Refusal<ScriptCode>>
    ensures { Gives (λ x. x) result (quoted_of word.now) }
{
    if !word.quoted {
        return Err(Refusal::Because(ScriptCode::Value));
    }
    Ok(word.text.copy()?)
}

fn read_set_plain(
    alloc: Global,
    at: &Word,
    words: &[Word],
) -> Result<StepWords, Refusal<ScriptCode>>
    ensures { Gives (λ x. x) result (set_plain_in at.now words.now) }
{
    let value = read_value(words)?;
    let at = ep_of(alloc, at)?;
    Ok(StepWords::Set {
        at,
        value: SetWords::Plain(value),
    })
}

fn read_value(words: &[Word]) -> Result<Datum, Refusal<ScriptCode>>
    ensures { Gives (λ x. x) result (value_in words.now) }
{
    let Some((first, others)) = words.split_first() else {
        return Err(Refusal::Because(ScriptCode::Arity));
    };
    if is_bare(first, "vec3") {
        read_vec3(others)
    } else if is_bare(first, "quat") {
        read_quat(others)
    } else {
        read_one_value(first, others)
    }
}

fn read_vec3(words: &[Word]) -> Result<Datum, Refusal<ScriptCode>>
    ensures { Gives (λ x. x) result (vec3_in words.now) }
{
    let [x, y, z] = words else {
        return Err(Refusal::Because(ScriptCode::Arity));
    };
    let x = decimal_of(x)?;
    let y = decimal_of(y)?;
    let z = decimal_of(z)?;
    Ok(Datum::Vec3(V3 { x, y, z }))
}

fn read_quat(words: &[Word]) -> Result<Datum, Refusal<ScriptCode>>
    ensures { Gives (λ x. x) result (quat_in words.now) }
{
    let [x, y, z, w] = words else {
        return Err(Refusal::Because(ScriptCode::Arity));
    };
    let x = decimal_of(x)?;
    let y = decimal_of(y)?;
    let z = decimal_of(z)?;
    let w = decimal_of(w)?;
    Ok(Datum::Quat(V4 { x, y, z, w }))
}

fn read_one_value(word: &Word, others: &[Word]) -> Result<Datum, Refusal<ScriptCode>>
    ensures { Gives (λ x. x) result (one_value_in word.now others.now) }
{
    if !others.is_empty() {
        return Err(Refusal::Because(ScriptCode::Arity));
    }
    value_of(word)
}

/// A quoted word, or `true`, `false` or a decimal without quotes.
fn value_of(word: &Word) -> Result<Datum, Refusal<ScriptCode>>
    ensures { Gives (λ x. x) result (value_of word.now) }
{
    if word.quoted {
        return Ok(Datum::Text(word.text.copy()?));
    }
    match word.text.as_str() {
        "true" => Ok(Datum::Flag(true)),
        "false" => Ok(Datum::Flag(false)),
        _ => Ok(Datum::Dec(decimal_of(word)?)),
    }
}
