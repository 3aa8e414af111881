//! Endpoints: a node and a label, split at the last `.` or `:`.
ghost use Rattle.std.specs.Prelude.{◌≡◌};
ghost use Rattle.std.specs.Option.{option_map};
ghost use Rattle.dg_base.specs.Refusal.{Gives};
ghost use Rattle.dg_script.specs.Forms.{parts_of, splits_by_name, ep_of, arc_end_of};

use crate::command::{EpWords, ScriptCode};
use crate::forms::is_node;
use crate::words::Word;
use dg_base::{Refusal, Str};
use dg_text::split_at_last;
use std::alloc::Global;

/// An endpoint: what stands before the last `.` or `:` is a node, and neither side is empty.
pub(crate) fn ep_of(alloc: Global, word: &Word) -> Result<EpWords, Refusal<ScriptCode>>
    ensures { Gives (λ x. x) result (ep_of word.now.text) }
{
    let Some((node, mark, label)) = split_at_last(word.text.as_str(), b".:") else {
        return Err(Refusal::Because(ScriptCode::Value));
    };
    if node.len() < 1 || label.len() < 1 || !is_node(node) {
        return Err(Refusal::Because(ScriptCode::Value));
    }
    let node = String::from_str(alloc, node)?;
    let label = String::from_str(alloc, label)?;
    Ok(EpWords {
        node: Str::of(node),
        by_name: mark == b':',
        label: Str::of(label),
    })
}

/// An endpoint of a schema label.
pub(crate) fn arc_end_of(alloc: Global, word: &Word) -> Result<EpWords, Refusal<ScriptCode>>
    ensures { Gives (λ x. x) result (arc_end_of word.now.text) }
{
    let ep = ep_of(alloc, word)?;
    if ep.by_name {
        return Err(Refusal::Because(ScriptCode::Value));
    }
    Ok(ep)
}

/// Whether the last `.` or `:` is a `:`.
pub(crate) fn splits_by_name(word: &Word) -> bool
    ensures { result ≡ splits_by_name (parts_of word.now.text) }
{
    match split_at_last(word.text.as_str(), b".:") {
        Some((_, mark, _)) => mark == b':',
        None => false,
    }
}
