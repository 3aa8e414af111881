//! The sources of inputs.
ghost use Rattle.std.specs.Prelude.{◌≡◌, map, IfOk};
ghost use Rattle.dg_base.specs.Sound.{IsLinked};
ghost use Rattle.dg_base.specs.Sources.{moved_to, replaced, sources};
ghost use Rattle.dg_reads.specs.Inheritance.{inherits};

use crate::core_reads::{CoreReads, is_linked};
use dg_base::{Endpoint, Label, NodeId, Origin, Schema};
use std::alloc::AllocError;

/// The sources of an input, inherited ones included. It reads the explicit sources at each node of
/// the chain up to one that has some, and looks for an override node for each inherited source.
pub fn sources<S: Schema, G: CoreReads<S>>(
    graph: &G,
    node: NodeId,
    input: Label,
) -> Result<Vec<Endpoint>, AllocError>
    ensures { IfOk result (λ v. v.items ≡ sources (G.graph graph.now) node input) }
{
    is_linked(graph);
    sources_along(graph, node, input)
}

// Up the chain to the explicit sources, and then down again, replacing at each override.
fn sources_along<S: Schema, G: CoreReads<S>>(
    graph: &G,
    node: NodeId,
    input: Label,
) -> Result<Vec<Endpoint>, AllocError>
    requires { IsLinked (G.graph graph.now) }
    ensures { IfOk result (λ v. v.items ≡ sources (G.graph graph.now) node input) }
{
    let mut roots = Vec::new(graph.alloc());
    let mut at = node;
    while let Some((root, original)) = inherits(graph, at, input) {
        roots.push(root)?;
        at = original;
    }
    let mut found = graph.explicit_sources(at, input)?;
    while let Some(root) = roots.pop() {
        found = replaced(graph, root, &found)?;
    }
    Ok(found)
}

// The root and the original from which a node inherits the sources of an input, if it does.
fn inherits<S: Schema, G: CoreReads<S>>(
    graph: &G,
    node: NodeId,
    input: Label,
) -> Option<(NodeId, NodeId)>
    ensures { result ≡ inherits (G.graph graph.now) node input }
{
    if graph.has_arc_into(node, input) {
        return None;
    }
    match graph.origin(node)? {
        Origin::Over { root, original } => Some((root, original)),
        Origin::Plain(_) => None,
    }
}

fn replaced<S: Schema, G: CoreReads<S>>(
    graph: &G,
    root: NodeId,
    sources: &[Endpoint],
) -> Result<Vec<Endpoint>, AllocError>
    ensures { IfOk result (λ v. v.items ≡ map (replaced (G.graph graph.now) root) sources.now) }
{
    let mut all = Vec::new(graph.alloc());
    for source in sources {
        all.push(moved_to(*source, graph.override_in(root, source.node)))?;
    }
    Ok(all)
}

fn moved_to(source: Endpoint, node: Option<NodeId>) -> Endpoint
    ensures { result ≡ moved_to source node }
{
    match node {
        Some(node) => Endpoint {
            node,
            label: source.label,
        },
        None => source,
    }
}
