//! What a node owns.
ghost use Rattle.std.specs.Prelude.{◌≡◌, ◌++◌, Some, IfOk, OnOk, map, filter_map, flat_map};
ghost use Rattle.dg_base.specs.Graph.{override_in};
ghost use Rattle.dg_base.specs.Owned.{cascading_inputs, owned, owned_through, owned_by_origin};

use dg_base::{Endpoint, Kind, Label, NodeId, Origin, Schema};
use dg_view::Graph;
use std::alloc::{AllocError, Global};

/// What the cascading inputs of a node hold, in label order.
pub(crate) fn owned<S: Schema>(
    alloc: Global,
    graph: &Graph<S>,
    node: NodeId,
) -> Result<Vec<NodeId>, AllocError>
    ensures { IfOk result (λ v. v.items ≡ owned S.tables graph.now node) }
{
    let mut all = Vec::new(alloc);
    if let Some(kind) = graph.kind(node) {
        add_owned(alloc, &mut all, graph, kind, node)?;
    }
    Ok(all)
}

fn add_owned<S: Schema>(
    alloc: Global,
    all: &mut Vec<NodeId>,
    graph: &Graph<S>,
    kind: Kind,
    node: NodeId,
) -> Result<(), AllocError>
    ensures { OnOk result (all.new.items ≡ all.old.items ++ flat_map (owned_through graph.now node) (cascading_inputs S.tables (Some kind))) }
{
    let labels = S::labels(kind);
    for label in labels {
        if S::role(kind, *label).cascades() {
            all.append(&mut owned_through(alloc, graph, node, *label)?)?;
        }
    }
    Ok(())
}

// The nodes of the explicit sources, or else what the node owns as an override node.
fn owned_through<S: Schema>(
    alloc: Global,
    graph: &Graph<S>,
    node: NodeId,
    input: Label,
) -> Result<Vec<NodeId>, AllocError>
    ensures { IfOk result (λ v. v.items ≡ owned_through graph.now node input) }
{
    let sources = graph.explicit_sources(node, input)?;
    if !sources.is_empty() {
        return nodes_of(alloc, &sources);
    }
    match graph.origin(node) {
        Some(origin) => owned_by_origin(alloc, graph, input, origin),
        None => Ok(Vec::new(alloc)),
    }
}

fn nodes_of(alloc: Global, sources: &[Endpoint]) -> Result<Vec<NodeId>, AllocError>
    ensures { IfOk result (λ v. v.items ≡ map (λ e. e.node) sources.now) }
{
    sources.iter().map(|source| source.node).collect(alloc)
}

fn owned_by_origin<S: Schema>(
    alloc: Global,
    graph: &Graph<S>,
    input: Label,
    origin: Origin,
) -> Result<Vec<NodeId>, AllocError>
    ensures { IfOk result (λ v. v.items ≡ owned_by_origin graph.now input origin) }
{
    match origin {
        Origin::Plain(_) => Ok(Vec::new(alloc)),
        Origin::Over { root, original } => {
            let sources = graph.sources(original, input)?;
            overridden(alloc, graph, root, &sources)
        }
    }
}

// The override nodes of the sources' nodes, of those that have one in this override.
fn overridden<S: Schema>(
    alloc: Global,
    graph: &Graph<S>,
    root: NodeId,
    sources: &[Endpoint],
) -> Result<Vec<NodeId>, AllocError>
    ensures { IfOk result (λ v. v.items ≡ filter_map (λ s. override_in graph.now root s.node) sources.now) }
{
    let mut all = Vec::new(alloc);
    for source in sources {
        if let Some(node) = graph.override_in(root, source.node) {
            all.push(node)?;
        }
    }
    Ok(all)
}
