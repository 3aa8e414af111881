//! One ask on the desk.
ghost use Rattle.std.specs.Prelude.{◌≡◌, ◌+◌, true, IfOk, IfSome, OnOk};
ghost use Rattle.dg_base.specs.Value.{value_at};
ghost use Rattle.dg_kinds_coll.specs.Defold.{defold_tables};
ghost use Rattle.dg_line.specs.Revisions.{Seen};
ghost use Rattle.dg_line.specs.Tickets.{Pin};
ghost use Rattle.dg_desk.specs.Desks.{state_of};
ghost use Rattle.dg_asks.specs.Asks.{asking_ask};
ghost use Rattle.dg_asks.specs.Told.{AreUnrefused, IsTold, is_put};
ghost use Rattle.dg_closing.specs.Closing.{IsDone, IsGrown};

use crate::telling::is_same;
use dg_asks::{Answered, Asking};
use dg_base::{Held, Steps};
use dg_desk::{Desk, PublishEnd, Published};
use dg_kinds_coll::Defold;
use dg_line::{Line, Mark, Revision, Ticket};
use dg_pool::Gate;
use dg_world::{Found, evaluated};
use std::alloc::{AllocError, Global};
use std::sync::ledger::Ledger;

/// The answer of an ask: the one that is kept, where it is told, or else what the desk gives.
pub(crate) fn answered<N: Line<Revision<Defold>> + Drop, G: Gate, L: Ledger>(
    alloc: Global,
    line: &N,
    desk: &mut Desk<N::Mark>,
    asking: &Asking<N::Mark>,
    number: u32,
    kept: Option<&Held>,
    gate: &G,
    made: &mut u64,
    steps: &mut Steps<L>,
) -> Result<Answered, AllocError>
    requires tables { N.Mark.tables ≡ defold_tables }
    requires seen { (r : Seen) → N.Mark.seen r ≡ r }
    requires line { (p : Pin Seen N.Mark) → N.is_of line.now p }
    requires value { IfSome kept (λ h. h.now ≡ value_at defold_tables asking.now.ticket.revision.graph asking.now.at) }
    requires told { IfSome kept (λ h. IsTold desk.old.history number (asking_ask asking.now)) }
    ensures answer { IfOk result (λ a. a ≡ asking_ask asking.now) }
    ensures done { OnOk result (IsDone N.Mark.seen desk.old desk.new number (asking_ask asking.now)) }
    ensures made { OnOk result (steps.new + made.old ≡ steps.old + made.new) }
{
    match kept {
        Some(held) => answer_of(asking, held.share()?),
        None => {
            let held = evaluated_here::<N, G, L>(
                alloc, line, desk, asking, number, gate, made, steps,
            )?;
            answer_of(asking, held)
        }
    }
}

fn answer_of<M: Mark<Of = Revision<Defold>>>(
    asking: &Asking<M>,
    held: Held,
) -> Result<Answered, AllocError>
    requires { held ≡ value_at defold_tables asking.now.ticket.revision.graph asking.now.at }
    ensures { IfOk result (λ a. a ≡ asking_ask asking.now) }
{
    let revision = asking.ticket.share()?.into_revision();
    Ok(Answered::of(revision, asking.at, held))
}

// Evaluates an ask on the desk, and publishes it.
fn evaluated_here<N: Line<Revision<Defold>> + Drop, G: Gate, L: Ledger>(
    alloc: Global,
    line: &N,
    desk: &mut Desk<N::Mark>,
    asking: &Asking<N::Mark>,
    number: u32,
    gate: &G,
    made: &mut u64,
    steps: &mut Steps<L>,
) -> Result<Held, AllocError>
    requires tables { N.Mark.tables ≡ defold_tables }
    requires seen { (r : Seen) → N.Mark.seen r ≡ r }
    requires line { (p : Pin Seen N.Mark) → N.is_of line.now p }
    ensures held { IfOk result (λ h. h ≡ value_at defold_tables asking.now.ticket.revision.graph asking.now.at) }
    ensures done { OnOk result (IsDone N.Mark.seen desk.old desk.new number (asking_ask asking.now)) }
    ensures made { OnOk result (steps.new + made.old ≡ steps.old + made.new) }
{
    gate.begin(number);
    let found = evaluated::<Defold, N, L>(
        alloc,
        line,
        desk,
        &asking.ticket,
        number,
        asking.at,
        steps,
    )?;
    let Found {
        held,
        offer,
        made: more,
    } = found;
    let published = desk.publish(line, offer);
    gate.done(number);
    put_of(&published)?;
    match made.checked_add(more) {
        Some(sum) => *made = sum,
        None => return Err(AllocError),
    }
    Ok(held)
}

fn put_of(published: &Published) -> Result<(), AllocError>
    ensures { OnOk result (is_put published.now.end ≡ true) }
{
    match published.end {
        PublishEnd::NoMemory => Err(AllocError),
        _ => Ok(()),
    }
}

/// The desk is at the revision of a ticket, without entries where it was elsewhere.
pub(crate) fn settle_at<N: Line<Revision<Defold>> + Drop>(
    line: &N,
    desk: &mut Desk<N::Mark>,
    here: &Ticket<N::Mark>,
) -> Result<(), AllocError>
    requires { (p : Pin Seen N.Mark) → N.is_of line.now p }
    ensures now { OnOk result ((state_of N.Mark.seen desk.new).now.revision ≡ here.now.revision) }
    ensures grown { OnOk result (IsGrown desk.old desk.new) }
    ensures unrefused { OnOk result (AreUnrefused desk.old.history → AreUnrefused desk.new.history) }
{
    if is_same::<N>(line, desk.now(), here) {
        return Ok(());
    }
    if desk.spare() == 0 {
        return Err(AllocError);
    }
    desk.settle(here.share()?);
    Ok(())
}
