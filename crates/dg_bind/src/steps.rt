//! One step, from its words.
ghost use Rattle.std.specs.Prelude.{◌≡◌, IfOk};
ghost use Rattle.std.specs.Option.{option_copied};
ghost use Rattle.dg_base.specs.Refusal.{Gives};
ghost use Rattle.dg_bind.specs.Steps.{node_at, label_at, property_at, interned_at, value_at, set_at, clear_at, arc_at, step_bound, names_after, new_name};
ghost use Rattle.dg_bind.specs.Outcome.{Interns};

use crate::refusal::Missing;
use crate::scope::Scope;
use dg_base::{Datum, Label, Names, NodeRef, PropVal, Refusal, Step, Str};
use dg_labels::label_named;
use dg_script::{EpWords, SetWords, StepWords};
use std::alloc::{AllocError, Global};

/// A node and its label, and a node and its input, between which an arc is.
#[derive(Debug, Drop)]
pub(crate) struct ArcEnds {
    src: NodeRef,
    label: Label,
    node: NodeRef,
    input: Label,
}

/// The step of these words, among the names that are bound and those of the nodes that the steps before
/// make. A new open name is interned, unless the step misses something; where memory is refused it may
/// be interned or not.
pub(crate) fn bind_step(
    alloc: Global,
    scope: &Scope,
    names: &mut Names,
    words: &StepWords,
) -> Result<Step, Refusal<Missing>>
    ensures step { Gives (λ x. x) result (step_bound scope.now names.old words.now) }
    ensures names { Interns result names.old names.new (names_after names.old words.now) }
{
    match words {
        StepWords::Make { kind, name: _ } => Ok(Step::Make { kind: *kind }),
        StepWords::Override { name: _, node } => {
            let root = node_at(alloc, scope, node)?;
            Ok(Step::Override { root })
        }
        StepWords::Set { at, value } => bind_set(alloc, scope, names, at, value),
        StepWords::Clear { at } => bind_clear(alloc, scope, names, at),
        StepWords::Delete { node } => {
            let node = node_at(alloc, scope, node)?;
            Ok(Step::Delete { node })
        }
        StepWords::Defective { node, on } => {
            let node = node_at(alloc, scope, node)?;
            Ok(Step::Mark {
                node,
                defective: *on,
            })
        }
        StepWords::Connect { src, dst } => {
            let arc = arc_at(alloc, scope, src, dst)?;
            Ok(Step::Connect {
                src: arc.src,
                label: arc.label,
                node: arc.node,
                input: arc.input,
            })
        }
        StepWords::Disconnect { src, dst } => {
            let arc = arc_at(alloc, scope, src, dst)?;
            Ok(Step::Disconnect {
                src: arc.src,
                label: arc.label,
                node: arc.node,
                input: arc.input,
            })
        }
    }
}

fn bind_set(
    alloc: Global,
    scope: &Scope,
    names: &mut Names,
    at: &EpWords,
    value: &SetWords,
) -> Result<Step, Refusal<Missing>>
    ensures step { Gives (λ x. x) result (set_at scope.now names.old at.now value.now) }
    ensures names { Interns result names.old names.new (interned_at names.old at.now) }
{
    let node = node_at(alloc, scope, &at.node)?;
    let label = property_at(names, at)?;
    let value = value_at(alloc, label, value)?;
    Ok(Step::Set { node, label, value })
}

fn bind_clear(
    alloc: Global,
    scope: &Scope,
    names: &mut Names,
    at: &EpWords,
) -> Result<Step, Refusal<Missing>>
    ensures step { Gives (λ x. x) result (clear_at scope.now names.old at.now) }
    ensures names { Interns result names.old names.new (interned_at names.old at.now) }
{
    let node = node_at(alloc, scope, &at.node)?;
    let label = property_at(names, at)?;
    Ok(Step::Clear { node, label })
}

// Both nodes are looked up before either label.
fn arc_at(
    alloc: Global,
    scope: &Scope,
    src: &EpWords,
    dst: &EpWords,
) -> Result<ArcEnds, Refusal<Missing>>
    ensures { Gives (λ x. x) result (arc_at scope.now src.now dst.now) }
{
    let source = node_at(alloc, scope, &src.node)?;
    let node = node_at(alloc, scope, &dst.node)?;
    let label = label_at(&src.label)?;
    let input = label_at(&dst.label)?;
    Ok(ArcEnds {
        src: source,
        label,
        node,
        input,
    })
}

fn node_at(alloc: Global, scope: &Scope, word: &Str) -> Result<NodeRef, Refusal<Missing>>
    ensures { Gives (λ x. x) result (node_at scope.now word.now) }
{
    match scope.node(alloc, word.as_str())? {
        Some(node) => Ok(node),
        None => Err(Refusal::Because(Missing::NoName)),
    }
}

fn label_at(word: &Str) -> Result<Label, Refusal<Missing>>
    ensures { Gives (λ x. x) result (label_at word.now) }
{
    match label_named(word.as_str()) {
        Some(label) => Ok(label),
        None => Err(Refusal::Because(Missing::NoLabel)),
    }
}

// The label of a property; an open name is interned.
fn property_at(names: &mut Names, at: &EpWords) -> Result<Label, Refusal<Missing>>
    ensures label { Gives (λ x. x) result (property_at names.old at.now) }
    ensures names { Interns result names.old names.new (interned_at names.old at.now) }
{
    if at.by_name {
        let label = names.intern(at.label.as_str())?;
        Ok(label)
    } else {
        label_at(&at.label)
    }
}

fn value_at(alloc: Global, label: Label, value: &SetWords) -> Result<Datum, AllocError>
    ensures { IfOk result (λ v. v ≡ value_at label value.now) }
{
    Ok(match value {
        SetWords::Plain(value) => value.copy(alloc)?,
        SetWords::Named { ptype, text } => Datum::Prop(PropVal {
            name: label,
            ptype: *ptype,
            text: text.copy()?,
        }),
    })
}

/// The name of the new node of a step of these words.
pub(crate) fn new_name(words: &StepWords) -> Option<&Str>
    ensures { option_copied result ≡ new_name words.now }
{
    match words {
        StepWords::Make { kind: _, name } => Some(name),
        StepWords::Override { name, node: _ } => Some(name),
        _ => None,
    }
}
