//! The sum of a number, which is asked for three times: what is published and what is kept of that, and what is
//! completed.
ghost use Rattle.std.specs.Prelude.{◌≡◌, ◌<◌};

use crate::{Completed, complete};
use dg_asks::{Answered, Asking, Solved};
use dg_base::{Answer, Datum, Endpoint, Kind, Label, NodeId, NodeRef, Step, Steps};
use dg_desk::Desk;
use dg_kinds_coll::Defold;
use dg_line::{Line, LineName, Revision, Rows, SharedLine, Shown, Ticket};
use dg_pool::OpenGate;
use dg_tx::apply;
use dg_view::Graph;
use dg_world::{Found, evaluated};
use std::alloc::{AllocError, Global};
use std::marker::Brand;
use std::sync::Wait;
use std::sync::ledger::{Blank, Ledger};
use std::test::Fail;

type Rev = Revision<Defold>;

/// The sum.
const SUM: u32 = 2;

/// What workers published, by ask number and node; what they keep, likewise; and the records and productions that the
/// completion comes to.
struct Row {
    published: &'static [(u32, u32)],
    kept: &'static [(u32, u32)],
    records: usize,
    made: u64,
}

const ALL: &[(u32, u32)] = &[(0, SUM), (1, SUM), (2, SUM)];

static ROWS: [Row; 7] = [
    // All is done.
    Row {
        published: ALL,
        kept: ALL,
        records: 3,
        made: 0,
    },
    // Nothing is.
    Row {
        published: &[],
        kept: &[],
        records: 3,
        made: 1,
    },
    // Two publications are missing.
    Row {
        published: &[(1, SUM)],
        kept: ALL,
        records: 3,
        made: 0,
    },
    // One is of another endpoint.
    Row {
        published: &[(0, SUM), (1, 3), (2, SUM)],
        kept: ALL,
        records: 4,
        made: 0,
    },
    // An answer is missing.
    Row {
        published: ALL,
        kept: &[(2, SUM), (0, SUM)],
        records: 4,
        made: 0,
    },
    // One is of another endpoint.
    Row {
        published: ALL,
        kept: &[(0, SUM), (1, 3), (2, SUM)],
        records: 4,
        made: 0,
    },
    // Some are of no ask.
    Row {
        published: &[(7, SUM), (0, SUM), (1, SUM), (2, SUM)],
        kept: &[(7, SUM), (0, SUM), (1, SUM), (2, SUM)],
        records: 4,
        made: 0,
    },
];

// Kinds: 1 Num, 2 Sum. Labels: 1 value, 2 terms, 4 total.
fn steps_of(alloc: Global) -> Result<Vec<Step>, AllocError> {
    let mut steps = Vec::new(alloc);
    steps.push(Step::Make { kind: Kind(1) })?;
    steps.push(Step::Make { kind: Kind(2) })?;
    steps.push(Step::Connect {
        src: NodeRef::New(0),
        label: Label(1),
        node: NodeRef::New(1),
        input: Label(2),
    })?;
    Ok(steps)
}

fn total_of(node: u32) -> Endpoint {
    Endpoint {
        node: NodeId(node),
        label: Label(4),
    }
}

fn first_of(alloc: Global) -> Result<Option<Rev>, AllocError> {
    let graph = Graph::<Defold>::new(alloc)?;
    let steps = steps_of(alloc)?;
    match apply(alloc, &graph, 1, &steps) {
        Ok(applied) => Ok(Some(Revision::first(alloc, applied.graph, applied.next)?)),
        Err(_) => Ok(None),
    }
}

/// Publishes what workers did.
fn publish<J: LineName, L: Ledger, R: Wait + Drop>(
    alloc: Global,
    line: &SharedLine<Rev, J, R>,
    desk: &mut Desk<Shown<Rev, J>>,
    here: &Ticket<Shown<Rev, J>>,
    published: &[(u32, u32)],
    steps: &mut Steps<L>,
) -> Result<(), AllocError> {
    for (ask, node) in published {
        let Found { offer, .. } = evaluated::<Defold, SharedLine<Rev, J, R>, L>(
            alloc,
            line,
            desk,
            here,
            *ask,
            total_of(*node),
            steps,
        )?;
        let _ = desk.publish(line, offer);
    }
    Ok(())
}

/// Keeps what workers did.
fn keep<J: LineName, L: Ledger, R: Wait + Drop>(
    alloc: Global,
    line: &SharedLine<Rev, J, R>,
    desk: &Desk<Shown<Rev, J>>,
    here: &Ticket<Shown<Rev, J>>,
    kept: &[(u32, u32)],
    steps: &mut Steps<L>,
) -> Result<Vec<Solved<Shown<Rev, J>>>, AllocError> {
    let mut solved = Vec::new(alloc);
    for (ask, node) in kept {
        solved.push(solve::<J, L, R>(alloc, line, desk, here, *ask, *node, steps)?)?;
    }
    Ok(solved)
}

/// What a worker keeps of one ask.
fn solve<J: LineName, L: Ledger, R: Wait + Drop>(
    alloc: Global,
    line: &SharedLine<Rev, J, R>,
    desk: &Desk<Shown<Rev, J>>,
    here: &Ticket<Shown<Rev, J>>,
    ask: u32,
    node: u32,
    steps: &mut Steps<L>,
) -> Result<Solved<Shown<Rev, J>>, AllocError> {
    let ticket = here.share()?;
    let at = total_of(node);
    let found = evaluated::<Defold, SharedLine<Rev, J, R>, L>(
        alloc, line, desk, here, ask, at, steps,
    )?;
    Ok(Solved::of(ask, ticket, at, found.held))
}

fn is_zero(answered: &Answered) -> bool {
    match answered.value().answer() {
        Answer::Good(Datum::Dec(value)) => *value == 0,
        _ => false,
    }
}

/// Whether the completion of a row comes to what it says.
fn goes<J: LineName, L: Ledger, R: Wait + Drop + Copy>(
    rt: R,
    alloc: Global,
    rows: Rows<Rev>,
    row: &Row,
    blank: Blank,
) -> Result<bool, AllocError>
    requires rows { rows ≡ J.shelves }
    requires name { blank.name ≡ L.name }
    requires parts { blank.parts ≡ L.parts }
    requires some { 0 < blank.parts }
{
    let mut steps = Steps::<L>::open(blank);
    let mut line = SharedLine::<Rev, J, R>::open(rt, rows);
    let Some(first) = first_of(alloc)? else {
        return Ok(false);
    };
    let here = line.push(alloc, first)?;
    let mut desk = Desk::open(alloc, here.share()?, 8)?;
    let solved = keep::<J, L, R>(alloc, &line, &desk, &here, row.kept, &mut steps)?;
    publish::<J, L, R>(alloc, &line, &mut desk, &here, row.published, &mut steps)?;
    let mut asked = Vec::new(alloc);
    for _ in 0..3u32 {
        asked.push(Asking {
            ticket: here.share()?,
            at: total_of(SUM),
        })?;
    }
    let Completed { answers, made } = complete::<SharedLine<Rev, J, R>, OpenGate, L>(
        alloc, &line, &mut desk, &here, &asked, &solved, &OpenGate, &mut steps,
    )?;
    Ok(
        answers.len() == 3
            && answers.iter().all(is_zero)
            && desk.history().len() == row.records
            && made == row.made,
    )
}

fn goes_alone<R: Wait + Drop + Copy>(rt: R, alloc: Global, row: &Row) -> Result<bool, AllocError> {
    let rows = Rows::new(alloc)?;
    goes::<Brand, Brand, R>(rt, alloc, rows, row, Blank::new(1))
}

#[test]
fn what_is_missing_is_completed(rt: HostRuntime) -> Result<(), Fail> {
    for row in ROWS.iter() {
        assert!(rt; goes_alone(rt, rt.alloc(), row)?);
    }
    Ok(())
}
