//! Which asks the history tells.
ghost use Rattle.std.specs.Prelude.{◌≡◌, ◌∷◌, ◌++◌, [], ℕ, List, Some, true, IfOk, IfSome, IsTrue, OnOk, set, slice_get};
ghost use Rattle.dg_line.specs.Revisions.{Seen};
ghost use Rattle.dg_line.specs.Tickets.{Pin};
ghost use Rattle.dg_desk.specs.Machine.{Event};
ghost use Rattle.dg_asks.specs.Asks.{asking_ask};
ghost use Rattle.dg_asks.specs.Told.{ask_of};
ghost use Rattle.dg_closing.specs.Closing.{AreToldWhere, asks_of};
ghost use Rattle.dg_closing.specs.Spots.{AreSpotted, TellsAt};

use crate::spots::Spots;
use dg_asks::Asking;
use dg_desk::{EventOf, What};
use dg_kinds_coll::Defold;
use dg_line::{Line, Revision, Ticket};
use dg_offer::Offer;
use std::alloc::{AllocError, Global};

/// For each ask, by its place, whether the history tells it. Linear in the records and what they publish.
pub(crate) fn told_in<N: Line<Revision<Defold>> + Drop>(
    alloc: Global,
    line: &N,
    history: &[EventOf<N::Mark>],
    asked: &[Asking<N::Mark>],
) -> Result<Vec<bool>, AllocError>
    requires seen { (r : Seen) → N.Mark.seen r ≡ r }
    requires line { (p : Pin Seen N.Mark) → N.is_of line.now p }
    ensures { IfOk result (λ v. AreToldWhere history.now v.items (asks_of asked.now)) }
{
    let mut told = none_told(alloc, asked.len())?;
    let mut spots = Spots::new(alloc);
    for event in history {
        read::<N>(line, event, asked, &mut spots, &mut told)?;
    }
    Ok(told)
}

fn none_told(alloc: Global, count: usize) -> Result<Vec<bool>, AllocError>
    ensures { IfOk result (λ v. (k : ℕ) → slice_get v.items k ≡ Some true → ⊥) }
{
    let mut told = Vec::new(alloc);
    for _ in 0..count {
        told.push(false)?;
    }
    Ok(told)
}

// Notes what a record publishes, and which ask it tells.
fn read<N: Line<Revision<Defold>> + Drop>(
    line: &N,
    event: &EventOf<N::Mark>,
    asked: &[Asking<N::Mark>],
    spots: &mut Spots,
    told: &mut Vec<bool>,
) -> Result<(), AllocError>
    requires seen { (r : Seen) → N.Mark.seen r ≡ r }
    requires line { (p : Pin Seen N.Mark) → N.is_of line.now p }
    ensures spots { OnOk result ((hs : List (Event Seen N.Mark)) → AreSpotted N.Mark.seen hs spots.old → AreSpotted N.Mark.seen (hs ++ event.now ∷ []) spots.new) }
    ensures told { OnOk result ((hs : List (Event Seen N.Mark)) → AreSpotted N.Mark.seen hs spots.old → AreToldWhere hs told.old.items (asks_of asked.now) → AreToldWhere (hs ++ event.now ∷ []) told.new.items (asks_of asked.now)) }
{
    match &event.what {
        What::Publish(offer, _) => {
            match told_by::<N>(line, offer, asked, spots) {
                Some(place) => mark(told, place),
                None => {}
            }
            spots.note_entries(offer)
        }
        _ => Ok(()),
    }
}

fn mark(told: &mut Vec<bool>, place: usize)
    ensures { told.new.items ≡ set told.old.items place true }
{
    match told.get_mut(place) {
        Some(flag) => *flag = true,
        None => {}
    }
}

// The place of the ask that a published offer tells.
fn told_by<N: Line<Revision<Defold>> + Drop>(
    line: &N,
    offer: &Offer<N::Mark>,
    asked: &[Asking<N::Mark>],
    spots: &Spots,
) -> Option<usize>
    requires { (p : Pin Seen N.Mark) → N.is_of line.now p }
    ensures { IfSome result (λ k. TellsAt N.Mark.seen spots.now (asks_of asked.now) k offer.now) }
{
    let place = offer.ask() as usize;
    let asking = asked.get(place)?;
    if !is_answer::<N>(line, offer, asking) || !spots.have_hits(offer) {
        return None;
    }
    Some(place)
}

// Whether an offer is the answer of an ask.
fn is_answer<N: Line<Revision<Defold>> + Drop>(
    line: &N,
    offer: &Offer<N::Mark>,
    asking: &Asking<N::Mark>,
) -> bool
    requires { (p : Pin Seen N.Mark) → N.is_of line.now p }
    ensures { IsTrue result → ask_of offer.now ≡ asking_ask asking.now }
{
    offer.endpoint() == asking.at && is_same::<N>(line, offer.ticket(), &asking.ticket)
}

/// Whether two tickets have one index; then both hold one revision.
pub(crate) fn is_same<N: Line<Revision<Defold>> + Drop>(
    line: &N,
    a: &Ticket<N::Mark>,
    b: &Ticket<N::Mark>,
) -> bool
    requires { (p : Pin Seen N.Mark) → N.is_of line.now p }
    ensures { IsTrue result → a.now.revision ≡ b.now.revision }
{
    if a.index() == b.index() {
        line.agrees(a, b);
        true
    } else {
        false
    }
}
