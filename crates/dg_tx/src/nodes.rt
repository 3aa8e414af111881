//! Steps that make, mark and delete nodes.
ghost use Rattle.std.specs.Prelude.{◌≡◌, ◌++◌, Some, IsTrue, OnOk};
ghost use Rattle.dg_base.specs.Graph.{has_node};
ghost use Rattle.dg_base.specs.Refusal.{Gives};
ghost use Rattle.dg_base.specs.Progress.{IsReady};
ghost use Rattle.dg_base.specs.Steps.{make_step, override_step, delete_step, mark_step};
ghost use Rattle.dg_base.specs.Touched.{nodes_from, touched_doomed, touched_nodes, touched_outputs};
ghost use Rattle.dg_tx.specs.Outcome.{progress};

use crate::limits::MAX_NODES;
use crate::touched::{touch_nodes, touch_outputs, touch_row};
use crate::work::Work;
use dg_base::{Kind, NodeId, Origin, Refusal, Schema, TxCode};
use dg_over::{cascade_tree, doomed, override_all};
use std::alloc::Global;

/// Makes a node of a kind.
pub(crate) fn make<S: Schema>(work: &mut Work<S>, kind: Kind) -> Result<(), Refusal<TxCode>>
    requires { IsReady S.tables (progress work.old) }
    ensures graph { Gives (λ _. progress work.new) result (make_step (progress work.old) kind) }
    ensures touched { OnOk result (work.new.touched.items ≡ work.old.touched.items ++ touched_nodes S.tables work.new.graph (nodes_from work.old.next work.new.graph)) }
{
    if work.next > MAX_NODES {
        return Err(Refusal::Because(TxCode::TooManyNodes));
    }
    let node = NodeId(work.next);
    work.graph.put_node(node, Origin::Plain(kind))?;
    work.made.push(node)?;
    work.touched.append(&mut work.graph.endpoints_at(node)?)?;
    work.next += 1;
    Ok(())
}

/// Overrides a node and its cascade tree.
pub(crate) fn override_tree<S: Schema>(
    alloc: Global,
    work: &mut Work<S>,
    node: NodeId,
) -> Result<(), Refusal<TxCode>>
    requires ready { IsReady S.tables (progress work.old) }
    requires there { IsTrue (has_node work.old.graph node) }
    ensures graph { Gives (λ _. progress work.new) result (override_step S.tables (progress work.old) (Some node)) }
    ensures touched { OnOk result (work.new.touched.items ≡ work.old.touched.items ++ touched_nodes S.tables work.new.graph (nodes_from work.old.next work.new.graph)) }
{
    let root = work.next;
    let tree = cascade_tree(alloc, &work.graph, node)?;
    work.next = override_all(&mut work.graph, NodeId(root), &tree, root)?;
    work.made.push(NodeId(root))?;
    touch_row(alloc, &mut work.touched, &work.graph, root, work.next)?;
    Ok(())
}

/// Deletes a node and all that goes with it.
pub(crate) fn delete<S: Schema>(
    alloc: Global,
    work: &mut Work<S>,
    node: NodeId,
) -> Result<(), Refusal<TxCode>>
    requires ready { IsReady S.tables (progress work.old) }
    requires there { IsTrue (has_node work.old.graph node) }
    ensures graph { Gives (λ _. progress work.new) result (delete_step S.tables (progress work.old) (Some node)) }
    ensures touched { OnOk result (work.new.touched.items ≡ work.old.touched.items ++ touched_doomed S.tables work.old.graph (Some node)) }
{
    let gone = doomed(alloc, &work.graph, node)?;
    touch_nodes(&mut work.touched, &work.graph, &gone)?;
    work.graph.drop_nodes(&gone)?;
    Ok(())
}

/// Marks a node defective, or takes the mark away.
pub(crate) fn mark<S: Schema>(
    work: &mut Work<S>,
    node: NodeId,
    defective: bool,
) -> Result<(), Refusal<TxCode>>
    requires ready { IsReady S.tables (progress work.old) }
    requires there { IsTrue (has_node work.old.graph node) }
    ensures graph { Gives (λ _. progress work.new) result (mark_step (progress work.old) (Some node) defective) }
    ensures touched { OnOk result (work.new.touched.items ≡ work.old.touched.items ++ touched_outputs S.tables work.old.graph (Some node)) }
{
    touch_outputs(&mut work.touched, &work.graph, node)?;
    work.graph.set_mark(node, defective)?;
    Ok(())
}
