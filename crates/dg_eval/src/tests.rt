//! Evaluations in graphs of numbers and sums, against the plain evaluator.
ghost use Rattle.std.specs.Prelude.{◌≡◌, ◌<◌};

use crate::Context;
use dg_base::{Datum, Endpoint, Kind, Label, NodeId, NodeRef, Refusal, Step, Steps};
use dg_cache::Snapshot;
use dg_kinds_go::GoKinds;
use dg_line::{Line, OwnLine, Revision, Ticket, Unmarked};
use dg_tx::apply;
use dg_view::Graph;
use std::alloc::{AllocError, Global};
use std::marker::Brand;
use std::sync::ledger::{Blank, Ledger};
use std::test::Fail;

type Pinned = Ticket<Unmarked<Revision<GoKinds>>>;

/// The kinds of nodes from 1 on, the arcs from one's output to another's terms, and which nodes are marked
/// defective. Kind 1 is a number, 2 a sum.
#[derive(Drop)]
struct Plan {
    kinds: Vec<u16>,
    arcs: Vec<(u32, u32)>,
    marked: Vec<u32>,
}

fn planned(
    alloc: Global,
    kinds: &[u16],
    arcs: &[(u32, u32)],
    marked: &[u32],
) -> Result<Plan, AllocError> {
    Ok(Plan {
        kinds: Vec::from_slice(alloc, kinds)?,
        arcs: Vec::from_slice(alloc, arcs)?,
        marked: Vec::from_slice(alloc, marked)?,
    })
}

// The label of what a node gives.
fn output(plan: &Plan, node: u32) -> Label {
    match plan.kinds.get((node as usize).saturating_sub(1)) {
        Some(1) => Label(1),
        _ => Label(4),
    }
}

fn end(node: u32, label: Label) -> Endpoint {
    Endpoint {
        node: NodeId(node),
        label,
    }
}

fn steps_of(alloc: Global, plan: &Plan) -> Result<Vec<Step>, AllocError> {
    let mut steps = Vec::new(alloc);
    for kind in &plan.kinds {
        steps.push(Step::Make { kind: Kind(*kind) })?;
    }
    for (src, node) in &plan.arcs {
        steps.push(Step::Connect {
            src: NodeRef::New(src.saturating_sub(1)),
            label: output(plan, *src),
            node: NodeRef::New(node.saturating_sub(1)),
            input: Label(2),
        })?;
    }
    add_values(&mut steps, plan)?;
    Ok(steps)
}

fn add_values(steps: &mut Vec<Step>, plan: &Plan) -> Result<(), AllocError> {
    for (place, kind) in plan.kinds.iter().enumerate() {
        if *kind == 1 {
            steps.push(Step::Set {
                node: NodeRef::New(u32::try_from(place).unwrap_or(0)),
                label: Label(1),
                value: Datum::Dec(5_000_000_000_000_000_000),
            })?;
        }
    }
    for node in &plan.marked {
        steps.push(Step::Mark {
            node: NodeRef::New(node.saturating_sub(1)),
            defective: true,
        })?;
    }
    Ok(())
}

fn graph_of(alloc: Global, steps: &[Step]) -> Result<Option<Graph<GoKinds>>, AllocError> {
    let empty = Graph::<GoKinds>::new(alloc)?;
    match apply(alloc, &empty, 1, steps) {
        Ok(applied) => Ok(Some(applied.graph)),
        Err(Refusal::Because(_)) => Ok(None),
        Err(Refusal::NoMemory) => Err(AllocError),
    }
}

fn ticket_of(alloc: Global, graph: Graph<GoKinds>) -> Result<Pinned, AllocError> {
    let mut line = OwnLine::<Revision<GoKinds>>::new(alloc);
    let first = Revision::first(alloc, graph, 1)?;
    line.push(alloc, first)
}

// The next of a row of numbers, by a congruence.
fn next(state: u64) -> u64 {
    state
        .wrapping_mul(6_364_136_223_846_793_005)
        .wrapping_add(1_442_695_040_888_963_407)
}

// A number below 12 from the upper half of one of the row.
fn below_12(state: u64) -> u32 {
    u32::try_from((state >> 33) % 12).unwrap_or(0)
}

// A plan with some numbers, sums of them and of one another, cycles and marks.
fn random_plan(alloc: Global, seed: u64) -> Result<Plan, AllocError> {
    let mut state = next(seed);
    let mut plan = planned(alloc, &[1, 1, 2, 2, 2, 2, 1, 2, 2, 2, 2, 2], &[], &[])?;
    for _ in 0..14 {
        let src = below_12(state).saturating_add(1);
        state = next(state);
        let node = below_12(state).saturating_add(1);
        state = next(state);
        if output(&plan, node) == Label(4) {
            plan.arcs.push((src, node))?;
        }
    }
    if below_12(state) < 4 {
        plan.marked.push(below_12(next(state)).saturating_add(1))?;
    }
    Ok(plan)
}

#[test]
fn a_cycle_is_a_cycle_from_either_end(rt: HostRuntime) -> Result<(), Fail> {
    let alloc = rt.alloc();
    let plan = planned(
        alloc,
        &[1, 2, 2, 2],
        &[(1, 2), (2, 3), (3, 2), (3, 4), (1, 4)],
        &[],
    )?;
    let all = steps_of(alloc, &plan)?;
    let values = values_of(alloc, &all, &[2, 3, 4, 3])?;
    assert_eq!(rt; values.as_str(), "Cycle Cycle Cycle Cycle ");
    Ok(())
}

/// The nodes of a random plan that are sums.
const SUMS: [u32; 9] = [3, 4, 5, 6, 8, 9, 10, 11, 12];

#[test]
fn values_are_those_of_the_plain_evaluator(rt: HostRuntime) -> Result<(), Fail> {
    let alloc = rt.alloc();
    for seed in 0..60 {
        let all = steps_of(alloc, &random_plan(alloc, seed)?)?;
        let values = values_of(alloc, &all, &SUMS)?;
        assert_eq!(rt;
            values.as_str(),
            plain_values_of(alloc, &all, &SUMS)?.as_str()
        );
    }
    Ok(())
}

fn plain_totals<L: Ledger>(
    alloc: Global,
    graph: &Graph<GoKinds>,
    nodes: &[u32],
    blank: Blank,
) -> Result<String, AllocError>
    requires name { blank.name ≡ L.name }
    requires parts { blank.parts ≡ L.parts }
    requires some { 0 < blank.parts }
{
    let mut steps = Steps::<L>::open(blank);
    let mut text = String::new(alloc);
    for node in nodes {
        let value = graph.plain_value(end(*node, Label(4)), &mut steps)?;
        write!(text, "{:?} ", value.answer())?;
    }
    Ok(text)
}

// The same totals by the plain evaluator.
fn plain_values_of(alloc: Global, steps: &[Step], nodes: &[u32]) -> Result<String, AllocError> {
    match graph_of(alloc, steps)? {
        None => String::from_str(alloc, "refused"),
        Some(graph) => plain_totals::<Brand>(alloc, &graph, nodes, Blank::new(1)),
    }
}

fn printed_totals<L: Ledger>(
    alloc: Global,
    ticket: Pinned,
    nodes: &[u32],
    blank: Blank,
) -> Result<String, AllocError>
    requires name { blank.name ≡ L.name }
    requires parts { blank.parts ≡ L.parts }
    requires some { 0 < blank.parts }
{
    let mut steps = Steps::<L>::open(blank);
    let mut context = Context::<GoKinds, Unmarked<Revision<GoKinds>>>::open(
        alloc,
        ticket,
        Snapshot::none(),
    );
    let mut text = String::new(alloc);
    for node in nodes {
        let value = context.evaluate(end(*node, Label(4)), &mut steps)?;
        write!(text, "{:?} ", value.answer())?;
    }
    Ok(text)
}

// The totals of some sums, one after the other in one context.
fn values_of(alloc: Global, steps: &[Step], nodes: &[u32]) -> Result<String, AllocError> {
    match graph_of(alloc, steps)? {
        None => String::from_str(alloc, "refused"),
        Some(graph) => {
            let ticket = ticket_of(alloc, graph)?;
            printed_totals::<Brand>(alloc, ticket, nodes, Blank::new(1))
        }
    }
}

// Sums, each of the one before; the first of the last one too, where the chain is closed.
fn chain(alloc: Global, length: u32, closed: bool) -> Result<Vec<Step>, AllocError> {
    let mut steps = Vec::new(alloc);
    for _ in 0..length {
        steps.push(Step::Make { kind: Kind(2) })?;
    }
    for node in 1..length {
        steps.push(joined(node - 1, node))?;
    }
    if closed {
        steps.push(joined(length.saturating_sub(1), 0))?;
    }
    Ok(steps)
}

fn joined(src: u32, node: u32) -> Step {
    Step::Connect {
        src: NodeRef::New(src),
        label: Label(4),
        node: NodeRef::New(node),
        input: Label(2),
    }
}

#[test]
fn goes_as_deep_as_a_chain(rt: HostRuntime) -> Result<(), Fail> {
    let alloc = rt.alloc();
    let open = chain(alloc, DEPTH, false)?;
    assert_eq!(rt;
        values_of(alloc, &open, &[DEPTH])?.as_str(),
        "Good(Dec(0)) "
    );
    let closed = chain(alloc, DEPTH, true)?;
    assert_eq!(rt;
        values_of(alloc, &closed, &[DEPTH, 1])?.as_str(),
        "Cycle Cycle "
    );
    Ok(())
}

// How deep the chain is.
const DEPTH: u32 = 300;
