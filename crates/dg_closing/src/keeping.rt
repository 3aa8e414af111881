//! What the workers keep.
ghost use Rattle.std.specs.Prelude.{◌≡◌, IfSome, IsTrue, Some, true, slice_get};
ghost use Rattle.dg_base.specs.Value.{value_at};
ghost use Rattle.dg_kinds_coll.specs.Defold.{defold_tables};
ghost use Rattle.dg_line.specs.Revisions.{Seen};
ghost use Rattle.dg_line.specs.Tickets.{Pin};

use crate::telling::is_same;
use dg_asks::{Asking, Solved};
use dg_base::Held;
use dg_kinds_coll::Defold;
use dg_line::{Line, Mark, Revision};
use std::alloc::{AllocError, Global};

/// For each ask, by its place, where its answer is kept. Of several the last one counts.
pub(crate) fn places_of<M: Mark>(
    alloc: Global,
    solved: &[Solved<M>],
    count: usize,
) -> Result<Vec<Option<usize>>, AllocError> {
    let mut places = Vec::new(alloc);
    for _ in 0..count {
        places.push(None)?;
    }
    for place in 0..solved.len() {
        match places.get_mut(solved[place].ask() as usize) {
            Some(entry) => *entry = Some(place),
            None => {}
        }
    }
    Ok(places)
}

// The answer of an ask at a place, where it is of its number, revision and endpoint.
fn kept_at<'a, N: Line<Revision<Defold>> + Drop>(
    line: &N,
    solved: &'a [Solved<N::Mark>],
    place: Option<usize>,
    number: u32,
    asking: &Asking<N::Mark>,
) -> Option<&'a Held>
    requires { (p : Pin Seen N.Mark) → N.is_of line.now p }
    ensures { IfSome result (λ h. h.now ≡ value_at N.Mark.tables (N.Mark.seen asking.now.ticket.revision).graph asking.now.at) }
{
    let answer = solved.get(place?)?;
    if answer.ask() == number
        && answer.at() == asking.at
        && is_same::<N>(line, answer.ticket(), &asking.ticket)
    {
        return Some(answer.value());
    }
    None
}

/// The answer of an ask, where a worker keeps it and the history tells the ask.
pub(crate) fn kept_for<'a, N: Line<Revision<Defold>> + Drop>(
    line: &N,
    solved: &'a [Solved<N::Mark>],
    places: &[Option<usize>],
    told: &[bool],
    number: u32,
    asking: &Asking<N::Mark>,
) -> Option<&'a Held>
    requires tables { N.Mark.tables ≡ defold_tables }
    requires seen { (r : Seen) → N.Mark.seen r ≡ r }
    requires line { (p : Pin Seen N.Mark) → N.is_of line.now p }
    ensures value { IfSome result (λ h. h.now ≡ value_at defold_tables asking.now.ticket.revision.graph asking.now.at) }
    ensures told { IfSome result (λ h. slice_get told.now number ≡ Some true) }
{
    if !is_told(told, number) {
        return None;
    }
    let place = *places.get(number as usize)?;
    kept_at::<N>(line, solved, place, number, asking)
}

fn is_told(told: &[bool], number: u32) -> bool
    ensures { IsTrue result → slice_get told.now number ≡ Some true }
{
    match told.get(number as usize) {
        Some(flag) => *flag,
        None => false,
    }
}
