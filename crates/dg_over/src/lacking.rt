//! Which nodes have no override node yet in an override.
ghost use Rattle.std.specs.Prelude.{◌≡◌, not, filter, flat_map, is_some, IfOk};
ghost use Rattle.dg_base.specs.Graph.{override_in};
ghost use Rattle.dg_base.specs.Owned.{cascade_tree};
ghost use Rattle.dg_base.specs.Populate.{firsts, lacking};

use crate::met::Met;
use crate::walk::cascade_tree;
use dg_base::{Endpoint, NodeId, Schema};
use dg_view::Graph;
use std::alloc::{AllocError, Global};

/// The members of the cascade trees of the sources' nodes, each where it comes first, without those
/// that have an override node in the override of the root.
pub(crate) fn lacking<S: Schema>(
    alloc: Global,
    graph: &Graph<S>,
    root: NodeId,
    sources: &[Endpoint],
) -> Result<Vec<NodeId>, AllocError>
    ensures { IfOk result (λ v. v.items ≡ lacking S.tables graph.now root sources.now) }
{
    let met = members(alloc, graph, sources)?;
    not_overridden(alloc, graph, root, met.as_slice())
}

fn members<S: Schema>(
    alloc: Global,
    graph: &Graph<S>,
    sources: &[Endpoint],
) -> Result<Met, AllocError>
    ensures { IfOk result (λ m. m ≡ firsts (flat_map (λ s. cascade_tree S.tables graph.now s.node) sources.now)) }
{
    let mut met = Met::new(alloc);
    for source in sources {
        let tree = cascade_tree(alloc, graph, source.node)?;
        met.put_all(&tree)?;
    }
    Ok(met)
}

fn not_overridden<S: Schema>(
    alloc: Global,
    graph: &Graph<S>,
    root: NodeId,
    nodes: &[NodeId],
) -> Result<Vec<NodeId>, AllocError>
    ensures { IfOk result (λ v. v.items ≡ filter (λ m. not (is_some (override_in graph.now root m))) nodes.now) }
{
    nodes
        .iter()
        .copied()
        .filter(|node| graph.override_in(root, *node).is_none())
        .collect(alloc)
}
