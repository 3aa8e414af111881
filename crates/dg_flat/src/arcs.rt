//! What is found among arcs.
ghost use Rattle.std.specs.Prelude.{◌≡◌, ◌&&◌, IfOk, filter, map};
ghost use Rattle.std.specs.List.{list_any};
ghost use Rattle.dg_base.specs.Same.{same_node, same_label, same_arc};

use dg_base::{ArcRec, Endpoint, Label, NodeId};
use std::alloc::{AllocError, Global};

// Whether one goes into an input.
pub(crate) fn is_one_into(arcs: &[ArcRec], node: NodeId, input: Label) -> bool
    ensures { result ≡ list_any (λ a. same_node a.node node && same_label a.input input) arcs.now }
{
    arcs.iter()
        .any(|arc| arc.node.0 == node.0 && arc.input.0 == input.0)
}

// Whether this is one of them.
pub(crate) fn is_one_of(arcs: &[ArcRec], arc: ArcRec) -> bool
    ensures { result ≡ list_any (same_arc arc) arcs.now }
{
    arcs.iter().any(|known| is_same(arc, *known))
}

pub(crate) fn is_same(a: ArcRec, b: ArcRec) -> bool
    ensures { result ≡ same_arc a b }
{
    a.src.node.0 == b.src.node.0
        && a.src.label.0 == b.src.label.0
        && (a.node.0 == b.node.0 && a.input.0 == b.input.0)
}

// The sources of those into an input.
pub(crate) fn sources_among(
    alloc: Global,
    arcs: &[ArcRec],
    node: NodeId,
    input: Label,
) -> Result<Vec<Endpoint>, AllocError>
    ensures { IfOk result (λ v. v.items ≡ map (λ a. a.src) (filter (λ a. same_node a.node node && same_label a.input input) arcs.now)) }
{
    arcs.iter()
        .filter(|arc| arc.node.0 == node.0 && arc.input.0 == input.0)
        .map(|arc| arc.src)
        .collect(alloc)
}
