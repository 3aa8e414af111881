//! A whole transaction.
ghost use Rattle.std.specs.Prelude.{◌≡◌, ◌≤◌, ◌++◌, IfOk, IsTrue, OnOk};
ghost use Rattle.dg_base.specs.Order.{ordered};
ghost use Rattle.dg_base.specs.Sound.{IsSound, ids_below};
ghost use Rattle.dg_base.specs.Refusal.{Gives};
ghost use Rattle.dg_base.specs.Progress.{IsReady};
ghost use Rattle.dg_base.specs.Steps.{step_of};
ghost use Rattle.dg_base.specs.Touched.{touched_by};
ghost use Rattle.dg_base.specs.Transact.{applied, applied_from};
ghost use Rattle.dg_touch.specs.Laws.{RulesAgreeOutside};
ghost use Rattle.dg_tx.specs.Outcome.{progress, numbered};

use crate::arcs::{connect, disconnect};
use crate::nodes::{delete, make, mark, override_tree};
use crate::touched::in_order;
use crate::values::{clear, set};
use crate::work::Work;
use dg_base::{Ends, NodeId, Refusal, RefusedStep, Schema, Step, TxCode};
use dg_view::Graph;
use sqlite_items::Items;
use std::alloc::Global;

/// What a transaction gives: the graph, the next id, the nodes that its Make and Override steps
/// made, in the order of the steps (of an override its root), and the endpoints that its steps
/// touched, in order, each once.
#[derive(Drop)]
pub struct Applied<S: Schema> {
    pub graph: Graph<S>,
    pub next: u32,
    pub made: Items<NodeId>,
    pub touched: Ends,
}

/// Does the steps, one after the other, on a share of the graph: all of them, or none where one is
/// refused. New nodes get the ids from `next` on. More steps than a `u32` counts are answered as want
/// of memory.
pub fn apply<S: Schema>(
    alloc: Global,
    graph: &Graph<S>,
    next: u32,
    steps: &[Step],
) -> Result<Applied<S>, Refusal<RefusedStep>>
    requires some { 1 ≤ next }
    requires below { IsTrue (ids_below graph.now next) }
    ensures applied { Gives (λ a. record { graph = a.graph; next = a.next; made = a.made; touched = a.touched }) result (applied S.tables graph.now next steps.now) }
    ensures sound { IfOk result (λ a. IsSound S.tables a.graph) }
    ensures new_below { IfOk result (λ a. IsTrue (ids_below a.graph a.next)) }
    ensures later { IfOk result (λ a. next ≤ a.next) }

    // What isn't touched keeps its rule, on nodes that stay, come or go.
    ensures changes { IfOk result (λ a. RulesAgreeOutside S.tables graph.now a.graph a.touched) }
{
    let mut work = Work {
        graph: graph.share()?,
        next,
        made: Vec::new(alloc),
        touched: Vec::new(alloc),
    };
    do_all(alloc, &mut work, steps)?;
    let Work {
        graph,
        next,
        made,
        touched,
    } = work;
    Ok(Applied {
        graph,
        next,
        made: Items::from_vec(made),
        touched: Ends::from_vec(in_order(touched)),
    })
}

fn do_all<S: Schema>(
    alloc: Global,
    work: &mut Work<S>,
    steps: &[Step],
) -> Result<(), Refusal<RefusedStep>>
    requires { IsReady S.tables (progress work.old) }
    ensures { Gives (λ _. record { graph = work.new.graph; next = work.new.next; made = work.new.made.items; touched = ordered work.new.touched.items }) result (applied_from S.tables steps.now 1 (progress work.old) work.old.touched.items) }
{
    let mut done = 0u32;
    for step in steps {
        let Some(number) = done.checked_add(1) else {
            return Err(Refusal::NoMemory);
        };
        if let Err(refusal) = do_step(alloc, work, step) {
            return Err(numbered(number, refusal));
        }
        done = number;
    }
    Ok(())
}

// The refusal of a transaction whose step has this number.
fn numbered(number: u32, refusal: Refusal<TxCode>) -> Refusal<RefusedStep>
    ensures { result ≡ numbered number refusal }
{
    match refusal {
        Refusal::Because(code) => Refusal::Because(RefusedStep { step: number, code }),
        Refusal::NoMemory => Refusal::NoMemory,
    }
}

fn do_step<S: Schema>(alloc: Global, work: &mut Work<S>, step: &Step) -> Result<(), Refusal<TxCode>>
    requires { IsReady S.tables (progress work.old) }
    ensures graph { Gives (λ _. progress work.new) result (step_of S.tables (progress work.old) step.now) }
    ensures touched { OnOk result (work.new.touched.items ≡ work.old.touched.items ++ touched_by S.tables (progress work.old) (progress work.new) step.now) }
{
    match step {
        Step::Make { kind } => make(work, *kind),
        Step::Override { root } => {
            let node = work.node(root)?;
            override_tree(alloc, work, node)
        }
        Step::Set { node, label, value } => {
            let node = work.node(node)?;
            set(alloc, work, node, *label, value)
        }
        Step::Clear { node, label } => {
            let node = work.node(node)?;
            clear(work, node, *label)
        }
        Step::Connect {
            src,
            label,
            node,
            input,
        } => {
            let arc = work.arc(src, *label, node, *input)?;
            connect(alloc, work, arc)
        }
        Step::Disconnect {
            src,
            label,
            node,
            input,
        } => {
            let arc = work.arc(src, *label, node, *input)?;
            disconnect(work, arc)
        }
        Step::Delete { node } => {
            let node = work.node(node)?;
            delete(alloc, work, node)
        }
        Step::Mark { node, defective } => {
            let node = work.node(node)?;
            mark(work, node, *defective)
        }
    }
}
