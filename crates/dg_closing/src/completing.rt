//! The completion of what was asked.
ghost use Rattle.std.specs.Prelude.{◌≡◌, ◌+◌, IfOk, OnOk};
ghost use Rattle.dg_kinds_coll.specs.Defold.{defold_tables};
ghost use Rattle.dg_line.specs.Revisions.{Seen};
ghost use Rattle.dg_line.specs.Tickets.{Pin};
ghost use Rattle.dg_desk.specs.Desks.{IsDesk, state_of};
ghost use Rattle.dg_asks.specs.Told.{AreTold, AreUnrefused, as_seen, evictions_told, follows_told};
ghost use Rattle.dg_closing.specs.Closing.{IsGrown, asks_of};

use crate::asking::{answered, settle_at};
use crate::keeping::{kept_for, places_of};
use crate::telling::told_in;
use crate::unrefused::are_unrefused;
use dg_asks::{Answered, Asking, Solved};
use dg_base::Steps;
use dg_desk::Desk;
use dg_kinds_coll::Defold;
use dg_line::{Line, Revision, Ticket};
use dg_pool::Gate;
use std::alloc::{AllocError, Global};
use std::sync::ledger::Ledger;

/// The answers of all that was asked, in order, and how many productions it took to complete them.
#[derive(Drop)]
pub struct Completed {
    pub answers: Vec<Answered>,
    pub made: u64,
}

/// Completes what was asked, in order, on a desk that nobody else has any more. An ask whose answer a worker keeps, of
/// its number, revision and endpoint, is done where the history of the desk tells it; any other one is evaluated on the
/// desk and published, and the gate is told of it. Where the desk isn't at the ticket `here`, it settles there first.
/// It ends with want of memory also where a record of the desk is one of wanting memory. Linear in the records, in what
/// they published, and in the asks, but for what is evaluated.
pub fn complete<N: Line<Revision<Defold>> + Drop, G: Gate, L: Ledger>(
    alloc: Global,
    line: &N,
    desk: &mut Desk<N::Mark>,
    here: &Ticket<N::Mark>,
    asked: &[Asking<N::Mark>],
    solved: &[Solved<N::Mark>],
    gate: &G,
    steps: &mut Steps<L>,
) -> Result<Completed, AllocError>
    requires tables { N.Mark.tables ≡ defold_tables }
    requires seen { (r : Seen) → N.Mark.seen r ≡ r }
    requires line { (p : Pin Seen N.Mark) → N.is_of line.now p }
    ensures answers { IfOk result (λ c. c.answers.items ≡ asks_of asked.now) }
    ensures coherent { OnOk result (IsDesk as_seen defold_tables desk.new) }
    ensures now { OnOk result ((state_of N.Mark.seen desk.new).now.revision ≡ here.now.revision) }
    ensures grown { OnOk result (IsGrown desk.old desk.new) }
    ensures follows { OnOk result (follows_told desk.new.history ≡ follows_told desk.old.history) }
    ensures evictions { OnOk result (evictions_told desk.new.history ≡ evictions_told desk.old.history) }
    ensures told { OnOk result (AreTold desk.new.history (asks_of asked.now)) }
    ensures unrefused { OnOk result (AreUnrefused desk.new.history) }
    ensures made { IfOk result (λ c. steps.new ≡ steps.old + c.made) }
{
    if !are_unrefused(desk.history()) {
        return Err(AllocError);
    }
    let Ok(count) = u32::try_from(asked.len()) else {
        return Err(AllocError);
    };
    settle_at::<N>(line, desk, here)?;
    let told = told_in::<N>(alloc, line, desk.history(), asked)?;
    let places = places_of(alloc, solved, asked.len())?;
    let mut answers = Vec::new(alloc);
    let mut made = 0;
    for number in 0..count {
        let asking = &asked[number as usize];
        let kept = kept_for::<N>(line, solved, &places, &told, number, asking);
        let answer = answered::<N, G, L>(
            alloc, line, desk, asking, number, kept, gate, &mut made, steps,
        )?;
        answers.push(answer)?;
    }
    desk.is_desk();
    Ok(Completed { answers, made })
}
