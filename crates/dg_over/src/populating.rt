//! Override nodes for what is connected below an original.
ghost use Rattle.std.specs.Prelude.{◌≡◌, [], filter, not, IfOk};
ghost use Rattle.dg_base.specs.Same.{same_node};
ghost use Rattle.dg_base.specs.Sources.{sources};
ghost use Rattle.dg_base.specs.Progress.{IsReady};
ghost use Rattle.dg_base.specs.Populate.{lacking, override_all, populate, populate_all, populate_heir, MayOverride};
ghost use Rattle.dg_over.specs.Makes.{progress_of, Makes};

use crate::lacking::lacking;
use crate::overriding::override_all;
use dg_base::{Label, NodeId, Origin, Refusal, Schema, TxCode};
use dg_view::Graph;
use std::alloc::{AllocError, Global};

/// Populates an input: gives each heir of the target that inherits its sources the override nodes
/// that it lacks, from the id `next` on, and answers the id after them. The heirs come in id order,
/// and each reads the graph as it is when its turn comes. `TooManyNodes` where an id would be above
/// the limit. After a refusal the graph isn't used further.
pub fn populate<S: Schema>(
    alloc: Global,
    graph: &mut Graph<S>,
    target: NodeId,
    input: Label,
    next: u32,
) -> Result<u32, Refusal<TxCode>>
    requires { IsReady S.tables (progress_of graph.old next []) }
    ensures { Makes (λ p. populate S.tables p target input) graph.old next graph.new result }
{
    let heirs = others(alloc, &graph.heirs(target)?, target)?;
    populate_all(alloc, graph, input, &heirs, next)
}

// The nodes but this one.
fn others(alloc: Global, nodes: &[NodeId], but: NodeId) -> Result<Vec<NodeId>, AllocError>
    ensures { IfOk result (λ v. v.items ≡ filter (λ n. not (same_node n but)) nodes.now) }
{
    nodes
        .iter()
        .copied()
        .filter(|node| node.0 != but.0)
        .collect(alloc)
}

fn populate_all<S: Schema>(
    alloc: Global,
    graph: &mut Graph<S>,
    input: Label,
    heirs: &[NodeId],
    next: u32,
) -> Result<u32, Refusal<TxCode>>
    requires { IsReady S.tables (progress_of graph.old next []) }
    ensures { Makes (populate_all S.tables input heirs.now) graph.old next graph.new result }
{
    let mut id = next;
    for heir in heirs {
        id = populate_heir(alloc, graph, *heir, input, id)?;
    }
    Ok(id)
}

fn populate_heir<S: Schema>(
    alloc: Global,
    graph: &mut Graph<S>,
    heir: NodeId,
    input: Label,
    next: u32,
) -> Result<u32, Refusal<TxCode>>
    requires { IsReady S.tables (progress_of graph.old next []) }
    ensures { Makes (λ p. populate_heir S.tables p input heir) graph.old next graph.new result }
{
    let explicit = graph.explicit_sources(heir, input)?;
    if !explicit.is_empty() {
        return Ok(next);
    }
    match graph.origin(heir) {
        Some(Origin::Over { root, original }) => {
            populate_over(alloc, graph, root, original, input, next)
        }
        _ => Ok(next),
    }
}

fn populate_over<S: Schema>(
    alloc: Global,
    graph: &mut Graph<S>,
    root: NodeId,
    original: NodeId,
    input: Label,
    next: u32,
) -> Result<u32, Refusal<TxCode>>
    requires { MayOverride S.tables (progress_of graph.old next []) root (lacking S.tables graph.old root (sources graph.old original input)) }
    ensures { Makes (override_all root (lacking S.tables graph.old root (sources graph.old original input))) graph.old next graph.new result }
{
    let sources = graph.sources(original, input)?;
    let nodes = lacking(alloc, graph, root, &sources)?;
    override_all(graph, root, &nodes, next)
}
