//! The walk of an evaluation, with a stack of its own.
ghost use Rattle.std.specs.Prelude.{◌≡◌, ◌≤◌, ◌+◌, ◌++◌, length, take, IfOk, OnOk};
ghost use Rattle.dg_base.specs.Evaluation.{evaluated, productions};
ghost use Rattle.dg_base.specs.Value.{value_at};
ghost use Rattle.dg_cache.specs.Entries.{ends_of};
ghost use Rattle.dg_offer.specs.Offers.{AreValues};
ghost use Rattle.dg_eval.specs.Results.{so_far, newly_listed};
ghost use Rattle.dg_eval.specs.Frames.{frames_after, ends_after};

use crate::end_set::EndSet;
use crate::frame::Frame;
use crate::looking::{finished, look};
use crate::producing::productions_by;
use crate::results::Results;
use dg_answer::answer_from;
use dg_base::{Endpoint, Held, Schema, Steps};
use dg_cache::Snapshot;
use dg_view::Graph;
use std::alloc::{AllocError, Global};
use std::sync::ledger::Ledger;

/// The value of an endpoint. Each endpoint that is finished on the way is added to the results, and each
/// known one that is met is noted among the hits. The productions are added to `made`, beside the count of
/// `steps`, which no program can read. In time linear in what is met, each with the cost of its
/// rule and its production.
pub(crate) fn evaluate<S: Schema, L: Ledger>(
    alloc: Global,
    graph: &Graph<S>,
    known: &Snapshot,
    results: &mut Results,
    hits: &mut EndSet,
    made: &mut u64,
    at: Endpoint,
    steps: &mut Steps<L>,
) -> Result<Held, AllocError>
    requires known { AreValues S.tables graph.now known.now }
    requires results { AreValues S.tables graph.now results.old }
    ensures answer { IfOk result (λ a. a ≡ value_at S.tables graph.now at) }
    ensures right { AreValues S.tables graph.now results.new }
    ensures kept { take (length results.old) results.new ≡ results.old }
    ensures walk { OnOk result (so_far results.new hits.new ≡ evaluated S.tables graph.now (ends_of known.now) (so_far results.old hits.old) at) }
    ensures steps { OnOk result (steps.new ≡ steps.old + productions S.tables graph.now (newly_listed S.tables graph.now (ends_of known.now) (so_far results.old hits.old) at)) }
    ensures made { OnOk result (made.new ≡ made.old + productions S.tables graph.now (newly_listed S.tables graph.now (ends_of known.now) (so_far results.old hits.old) at)) }
    ensures most { steps.new ≤ steps.old + productions S.tables graph.now (newly_listed S.tables graph.now (ends_of known.now) (so_far results.old hits.old) at) }
{
    graph.is_sound();
    if let Some(answer) = look(alloc, false, results, known, hits, at)? {
        return Ok(answer);
    }
    let mut way = EndSet::new(alloc);
    let mut stack = Vec::new(alloc);
    way.note(at)?;
    stack.push(Frame::open(alloc, graph, at)?)?;
    while let Some(frame) = stack.pop() {
        match frame.next() {
            Some(end) => {
                let open = way.has(end);
                let answer = look(alloc, open, results, known, hits, end)?;
                go_on(alloc, graph, &mut stack, &mut way, frame, end, answer)?;
            }
            None => {
                let answers = frame.answers.as_slice();
                let more = productions_by::<S>(alloc, &frame.rule, answers)?;
                let total = sum(*made, more)?;
                let answer = answer_from::<S, L>(alloc, frame.at, &frame.rule, answers, steps)?;
                way.drop_last();
                results.push(frame.at, answer)?;
                *made = total;
            }
        }
    }
    Ok(finished(results, at)?)
}

// A sum that has more than 64 bits is refused as want of memory is.
fn sum(made: u64, more: u64) -> Result<u64, AllocError>
    ensures { IfOk result (λ n. n ≡ made + more) }
{
    made.checked_add(more).ok_or(AllocError)
}

// After a look at the next endpoint that the last frame needs: its value is with the frame, or it is opened.
fn go_on<S: Schema>(
    alloc: Global,
    graph: &Graph<S>,
    stack: &mut Vec<Frame>,
    way: &mut EndSet,
    frame: Frame,
    end: Endpoint,
    answer: Option<Held>,
) -> Result<(), AllocError>
    ensures stack { OnOk result (stack.new.items ≡ stack.old.items ++ frames_after S.tables graph.now frame end answer) }
    ensures way { OnOk result (way.new ≡ ends_after way.old end answer) }
{
    match answer {
        Some(answer) => {
            let mut frame = frame;
            frame.answers.push(answer)?;
            stack.push(frame)?;
        }
        None => {
            way.note(end)?;
            stack.push(frame)?;
            stack.push(Frame::open(alloc, graph, end)?)?;
        }
    }
    Ok(())
}
