//! Chains: the kinds and the heirs of nodes.
ghost use Rattle.std.specs.Prelude.{◌≡◌, IfOk, map, filter};
ghost use Rattle.dg_base.specs.Sound.{IsLinked};
ghost use Rattle.dg_base.specs.Chain.{chain, heirs, holds, kind_of};

use crate::core_reads::{CoreReads, is_linked};
use dg_base::{Kind, NodeId, Origin, Schema};
use std::alloc::AllocError;

/// The kind of a node, which is that of the plain node at the end of its chain. It reads the origin
/// of each node of the chain.
pub fn kind<S: Schema, G: CoreReads<S>>(graph: &G, node: NodeId) -> Option<Kind>
    ensures { result ≡ kind_of (G.graph graph.now) node }
{
    is_linked(graph);
    kind_along(graph, node)
}

fn kind_along<S: Schema, G: CoreReads<S>>(graph: &G, node: NodeId) -> Option<Kind>
    requires { IsLinked (G.graph graph.now) }
    ensures { result ≡ kind_of (G.graph graph.now) node }
{
    let mut at = node;
    while let Some(Origin::Over { original, .. }) = graph.origin(at) {
        at = original;
    }
    match graph.origin(at) {
        Some(Origin::Plain(kind)) => Some(kind),
        _ => None,
    }
}

/// The nodes whose chain holds this one, in id order. It reads the chains of all nodes.
pub fn heirs<S: Schema, G: CoreReads<S>>(graph: &G, node: NodeId) -> Result<Vec<NodeId>, AllocError>
    ensures { IfOk result (λ v. v.items ≡ heirs (G.graph graph.now) node) }
{
    is_linked(graph);
    let ids = ids(graph)?;
    heirs_among(graph, &ids, node)
}

fn heirs_among<S: Schema, G: CoreReads<S>>(
    graph: &G,
    ids: &[NodeId],
    node: NodeId,
) -> Result<Vec<NodeId>, AllocError>
    requires { IsLinked (G.graph graph.now) }
    ensures { IfOk result (λ v. v.items ≡ filter (λ m. holds (chain (G.graph graph.now) m) node) ids.now) }
{
    let mut heirs = Vec::new(graph.alloc());
    for id in ids {
        if is_heir(graph, *id, node) {
            heirs.push(*id)?;
        }
    }
    Ok(heirs)
}

// Whether the first node's chain holds the second.
fn is_heir<S: Schema, G: CoreReads<S>>(graph: &G, heir: NodeId, node: NodeId) -> bool
    requires { IsLinked (G.graph graph.now) }
    ensures { result ≡ holds (chain (G.graph graph.now) heir) node }
{
    let mut at = heir;
    while let Some(origin) = graph.origin(at) {
        if at.0 == node.0 {
            return true;
        }
        match origin {
            Origin::Over { original, .. } => at = original,
            Origin::Plain(_) => return false,
        }
    }
    false
}

// All nodes, in id order.
pub(crate) fn ids<S: Schema, G: CoreReads<S>>(graph: &G) -> Result<Vec<NodeId>, AllocError>
    ensures { IfOk result (λ v. v.items ≡ map (λ x. x.id) (G.graph graph.now).nodes) }
{
    let mut ids = Vec::new(graph.alloc());
    while let Some(id) = graph.id_at(ids.len()) {
        ids.push(id)?;
    }
    Ok(ids)
}
