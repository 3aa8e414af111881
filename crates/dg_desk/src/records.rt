//! The records of what was done, where they brought revisions, and how many each pass has.
ghost use Rattle.std.specs.Prelude.{◌≡◌, ◌+◌, ◌<◌, ◌∷◌, ◌++◌, [], Some, cond, option_copied, vec_capacity, vec_len};
ghost use Rattle.dg_desk.specs.Desks.{nth_of};
ghost use Rattle.dg_desk.specs.Places.{AreCounts, IsFound, is_restart, last_pin, pin_at, pin_from, pins_at};

use crate::{DeskEvent, EventOf, Followed, PASSES, What};
use dg_line::{Link, Mark, Ticket};
use dg_offer::Offer;
use sqlite_items::at as item_at;

/// Adds a record with its pass, and counts it.
pub(crate) fn push_record<M: Mark>(
    history: &mut Vec<EventOf<M>>,
    counts: &mut [usize; PASSES],
    pass: u32,
    what: What<Link<M>, Offer<M>, Ticket<M>>,
)
    requires room { vec_len history.old < vec_capacity history.old }
    requires pass { pass < PASSES }
    requires counts { AreCounts history.old.items counts.old }
    ensures counts { AreCounts history.new.items counts.new }
    ensures items { history.new.items ≡ history.old.items ++ record { pass = pass; nth = nth_of pass history.old.items; what = what } ∷ [] }
    ensures len { vec_len history.new ≡ vec_len history.old + 1 }
    ensures capacity { vec_capacity history.new ≡ vec_capacity history.old }
{
    let nth = counts[pass as usize];
    counts[pass as usize] = nth + 1;
    history.push_reserved(DeskEvent { pass, nth, what });
}

/// Adds the place of a record that brings a revision, as the only one where the listed revisions begin anew.
pub(crate) fn push_place(places: &mut Vec<Option<usize>>, fresh: bool, place: usize)
    requires { vec_len places.old < vec_capacity places.old }
    ensures items { places.new.items ≡ cond fresh [] places.old.items ++ Some place ∷ [] }
    ensures capacity { vec_capacity places.new ≡ vec_capacity places.old }
{
    if fresh {
        places.clear();
    }
    places.push_reserved(Some(place));
}

/// Whether a follow begins the listed revisions anew.
pub(crate) fn is_restart(answer: Followed) -> bool
    ensures { result ≡ is_restart answer }
{
    match answer {
        Followed::Restarted { .. } => true,
        _ => false,
    }
}

/// The ticket at a place: that of the opening, or the one that a record brought.
pub(crate) fn ticket_at<'a, M: Mark>(
    opened: &'a Ticket<M>,
    history: &'a [EventOf<M>],
    place: Option<usize>,
) -> &'a Ticket<M>
    ensures { result.now ≡ pin_at opened.now history.now place }
{
    match place {
        Some(index) => brought(opened, item_at(history, index)),
        None => opened,
    }
}

fn brought<'a, M: Mark>(opened: &'a Ticket<M>, event: Option<&'a EventOf<M>>) -> &'a Ticket<M>
    ensures { result.now ≡ pin_from opened.now (option_copied event.entry) }
{
    let Some(event) = event else {
        return opened;
    };
    match &event.what {
        What::Follow(link, _) => link.to(),
        What::Settle(to) => to,
        What::Publish(_, _) => opened,
        What::Evict(_, _) => opened,
    }
}

/// The ticket at the last place.
pub(crate) fn last_in<'a, M: Mark>(
    opened: &'a Ticket<M>,
    history: &'a [EventOf<M>],
    places: &[Option<usize>],
) -> &'a Ticket<M>
    ensures { result.now ≡ last_pin opened.now history.now places.now }
{
    match places.last() {
        Some(place) => ticket_at(opened, history, *place),
        None => opened,
    }
}

/// The ticket with an index at some places, looked for from the last one on.
pub(crate) fn found_in<'a, M: Mark>(
    index: usize,
    opened: &'a Ticket<M>,
    history: &'a [EventOf<M>],
    places: &[Option<usize>],
) -> Option<&'a Ticket<M>>
    ensures { IsFound index (pins_at opened.now history.now places.now) (option_copied result) }
{
    for place in (0..places.len()).rev() {
        let ticket = ticket_at(opened, history, places[place]);
        if ticket.index() == index {
            return Some(ticket);
        }
    }
    None
}
