//! Evaluations in a world, and their publication.
ghost use Rattle.std.specs.Prelude.{◌≡◌, ◌+◌, Some, is_some, true, IfOk, OnOk};
ghost use Rattle.dg_kinds_coll.specs.Defold.{defold_tables};
ghost use Rattle.dg_world.specs.Worlds.{pin_at};
ghost use Rattle.dg_play.specs.Sessions.{revision_at};
ghost use Rattle.dg_play.specs.Work.{after_ask};
ghost use Rattle.dg_alone.specs.Works.{IsAsked, IsWhole, IsWorked, view_of, work_in};

use crate::outcome::{answered_of, dropped_of, pinned_of, published_of};
use crate::types::{AloneTicket, AloneWorld};
use dg_asks::Answered;
use dg_base::{Endpoint, Steps};
use std::alloc::AllocError;
use std::sync::ledger::Ledger;

/// The answer at a live pin, or at the current revision. What was evaluated is published at once.
pub(crate) fn ask<L: Ledger>(
    world: &mut AloneWorld,
    pin: Option<u32>,
    at: Endpoint,
    steps: &mut Steps<L>,
) -> Result<Answered, AllocError>
    requires whole { IsWhole world.old }
    requires live { is_some (revision_at (view_of world.old) pin) ≡ true }
    ensures revision { IfOk result (λ a. revision_at (view_of world.old) pin ≡ Some a.revision) }
    ensures endpoint { IfOk result (λ a. a.at ≡ at) }
    ensures whole { OnOk result (IsWhole world.new) }
    ensures view { OnOk result (view_of world.new ≡ view_of world.old) }
    ensures work { IfOk result (λ a. IsWorked world.old world.new (after_ask defold_tables world.old.desk.capacity world.old.editor.here.revision a (work_in world.old))) }
    ensures steps { OnOk result (steps.new + world.old.made ≡ steps.old + world.new.made) }
{
    match pin {
        None => {
            let ticket = world.now().share()?;
            answer_now(world, ticket, at, steps)
        }
        Some(number) => match world.pinned(number) {
            Some(ticket) => {
                let ticket = ticket.share()?;
                answer_at(world, number, ticket, at, steps)
            }
            None => unreachable!(),
        },
    }
}

// The answer at a live pin, whose ticket is at hand.
fn answer_at<L: Ledger>(
    world: &mut AloneWorld,
    pin: u32,
    ticket: AloneTicket,
    at: Endpoint,
    steps: &mut Steps<L>,
) -> Result<Answered, AllocError>
    requires pin { pin_at world.old.pins pin ≡ Some ticket }
    requires whole { IsWhole world.old }
    ensures answer { IfOk result (λ a. a ≡ record { revision = ticket.revision; at = at }) }
    ensures world { OnOk result (IsAsked defold_tables ticket at world.old world.new) }
    ensures steps { OnOk result (steps.new + world.old.made ≡ steps.old + world.new.made) }
{
    world.is_world();
    let outcome = world.evaluate(pin, at, steps);
    let (held, offer) = answered_of(outcome)?;
    let outcome = world.publish(offer);
    published_of(outcome)?;
    Ok(Answered::of(ticket.into_revision(), at, held))
}

// The answer at the current revision, whose ticket is at hand. The revision is pinned for the evaluation alone.
fn answer_now<L: Ledger>(
    world: &mut AloneWorld,
    ticket: AloneTicket,
    at: Endpoint,
    steps: &mut Steps<L>,
) -> Result<Answered, AllocError>
    requires now { ticket ≡ world.old.editor.here }
    requires whole { IsWhole world.old }
    ensures answer { IfOk result (λ a. a ≡ record { revision = ticket.revision; at = at }) }
    ensures world { OnOk result (IsAsked defold_tables ticket at world.old world.new) }
    ensures steps { OnOk result (steps.new + world.old.made ≡ steps.old + world.new.made) }
{
    let outcome = world.pin();
    let pin = pinned_of(outcome)?;
    let answered = answer_at(world, pin, ticket, at, steps)?;
    let outcome = world.drop_pin(pin);
    dropped_of(outcome);
    Ok(answered)
}
