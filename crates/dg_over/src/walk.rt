//! Walks over the nodes that belong to a node: its cascade tree, and what goes with it.
ghost use Rattle.std.specs.Prelude.{◌≡◌, [], IfOk};
ghost use Rattle.dg_base.specs.Same.{same_node};
ghost use Rattle.dg_base.specs.Walk.{walk_within};
ghost use Rattle.dg_base.specs.Owned.{enough_levels, cascade_tree, doomed};
ghost use Rattle.dg_over.specs.Follow.{followed};

use crate::met::Met;
use crate::ordered::in_order;
use crate::owned::owned;
use dg_base::{NodeId, Schema};
use dg_view::Graph;
use std::alloc::{AllocError, Global};

/// What a walk goes on to from a node: what it owns, or all that a deletion takes with it.
#[derive(Clone, Copy)]
pub(crate) enum Follow {
    Owned,
    Taken,
}

/// The cascade tree of a node: the node, then what its members own, each once, in the order of a
/// depth-first walk. Of a node that isn't there it is that node alone.
pub fn cascade_tree<S: Schema>(
    alloc: Global,
    graph: &Graph<S>,
    node: NodeId,
) -> Result<Vec<NodeId>, AllocError>
    ensures { IfOk result (λ v. v.items ≡ cascade_tree S.tables graph.now node) }
{
    let met = walk(alloc, graph, Follow::Owned, node)?;
    Vec::from_slice(alloc, met.as_slice())
}

/// What goes when a node is deleted, in id order: the least set with the node, the override nodes of
/// its members, and what these own. Of a node that isn't there it is that node alone.
pub fn doomed<S: Schema>(
    alloc: Global,
    graph: &Graph<S>,
    node: NodeId,
) -> Result<Vec<NodeId>, AllocError>
    ensures { IfOk result (λ v. v.items ≡ doomed S.tables graph.now node) }
{
    let met = walk(alloc, graph, Follow::Taken, node)?;
    Ok(in_order(Vec::from_slice(alloc, met.as_slice())?))
}

fn walk<S: Schema>(
    alloc: Global,
    graph: &Graph<S>,
    follow: Follow,
    node: NodeId,
) -> Result<Met, AllocError>
    ensures { IfOk result (λ m. m ≡ walk_within same_node (enough_levels graph.now) (followed S.tables graph.now follow) [] node) }
{
    graph.is_sound();
    let mut met = Met::new(alloc);
    let mut stack = Vec::new(alloc);
    stack.push(node)?;
    while let Some(at) = stack.pop() {
        if met.put(at)? {
            let mut next = followed(alloc, graph, follow, at)?;
            next.reverse();
            stack.append(&mut next)?;
        }
    }
    Ok(met)
}

fn followed<S: Schema>(
    alloc: Global,
    graph: &Graph<S>,
    follow: Follow,
    node: NodeId,
) -> Result<Vec<NodeId>, AllocError>
    ensures { IfOk result (λ v. v.items ≡ followed S.tables graph.now follow node) }
{
    match follow {
        Follow::Owned => owned(alloc, graph, node),
        Follow::Taken => {
            let mut all = graph.overs(node)?;
            all.append(&mut owned(alloc, graph, node)?)?;
            Ok(all)
        }
    }
}
