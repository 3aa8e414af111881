//! The world.
ghost use Rattle.std.specs.Prelude.{◌≡◌, ◌≢◌, ◌≤◌, ◌<◌, ◌+◌, [], None, IfOk, OnOk, length, option_copied, option_map, slice_get};
ghost use Rattle.dg_base.specs.Transact.{applied};
ghost use Rattle.dg_line.specs.Tickets.{Pin};
ghost use Rattle.dg_desk.specs.Desks.{Desked, IsDesk, state_of};
ghost use Rattle.dg_editor.specs.Machine.{edited, made_by, redo_of, undo_of};
ghost use Rattle.dg_editor.specs.Seeing.{state_of as editor_of};
ghost use Rattle.dg_world.specs.declared.event.Outcome.TheVariants as outcome;
ghost use Rattle.dg_world.specs.Laws.{IsWorld};
ghost use Rattle.dg_world.specs.Steps.{IsDrop, IsEdited, IsEvaluated, IsEvict, IsPin, IsPublish, IsStep, productions_at, productions_of};
ghost use Rattle.dg_world.specs.Worlds.{begun, pin_at};

use crate::acts::{evaluated_listed, follow};
use crate::{Event, Outcome};
use dg_base::{Endpoint, Schema, Step, Steps};
use dg_cache::Evicted;
use dg_desk::Desk;
use dg_editor::{Commit, Editor};
use dg_line::{Line, Revision, Ticket};
use dg_offer::Offer;
use sqlite_items::Items;
use std::alloc::{AllocError, Global};
use std::marker::Model;
use std::sync::ledger::Ledger;

/// What the world holds whole.
#[derive(Drop)]
struct Kept<X> {
    it: X,
}

/// An editor, the desk that follows it, pins and offers. Contracts see each of them, and the number of productions
/// that were made.
#[derive(Drop)]
pub struct World<S: Schema, N: Line<Revision<S>> + Drop> {
    alloc: Global,
    editor: Kept<Editor<S, N>>,
    desk: Desk<N::Mark>,
    pins: Vec<Option<Ticket<N::Mark>>>,
    offers: Vec<Offer<N::Mark>>,
    made: u64,
}

impl<S: Schema, N: Line<Revision<S>> + Drop> Model for World<S, N> {
    ghost use Rattle.dg_world.specs.Worlds.{Worlded, world_code};
    ghost use Rattle.dg_world.specs.Laws.{IsWorld};

    ghost Value = { Worlded N N.Mark };

    ghost coded = { world_code N.code N.Mark.code };

    ghost view = { λ w. record { editor = w.editor.it; desk = w.desk; pins = w.pins.items; offers = w.offers.items; made = w.made } };

    ghost invariant = { λ w. IsWorld S.tables N.Mark.seen (N.is_of w.editor.it.line) (record { editor = w.editor.it; desk = w.desk; pins = w.pins.items; offers = w.offers.items; made = w.made }) };
}

impl<S: Schema, N: Line<Revision<S>> + Drop> World<S, N> {
    /// The world of the editor in a place, which is empty then, with a cache for so many entries. None where the place
    /// was empty.
    pub fn open(
        alloc: Global,
        place: &mut Option<Editor<S, N>>,
        capacity: u32,
    ) -> Result<Option<World<S, N>>, AllocError>
        requires capacity { 1 ≤ capacity }
        ensures world { IfOk result (λ w. w ≡ option_map (begun capacity) place.old) }
        ensures taken { place.new ≡ None }
    {
        let Some(editor) = place.take() else {
            return Ok(None);
        };
        editor.is_editor();
        let desk = Desk::open(alloc, editor.ticket().share()?, capacity)?;
        let world = World {
            alloc,
            editor: Kept { it: editor },
            desk,
            pins: Vec::new(alloc),
            offers: Vec::new(alloc),
            made: 0,
        };
        Ok(Some(world))
    }

    /// What holds of a world at every moment, for proofs. It does nothing.
    pub fn is_world(&self)
        ensures world { IsWorld S.tables N.Mark.seen (N.is_of self.now.editor.line) self.now }
        ensures desk { IsDesk N.Mark.seen S.tables self.now.desk }
    {
        self.editor.it.is_editor();
        self.desk.is_desk();
    }

    /// The editor's current revision.
    pub fn now(&self) -> &Ticket<N::Mark>
        ensures { result.now ≡ self.now.editor.here }
    {
        self.editor.it.ticket()
    }

    /// The line that holds the revisions.
    pub fn line(&self) -> &N
        ensures { result.now ≡ self.now.editor.line }
    {
        self.editor.it.line()
    }

    /// The shared cache.
    pub fn desk(&self) -> &Desk<N::Mark>
        ensures { result.now ≡ self.now.desk }
    {
        &self.desk
    }

    /// The desk of the world in a place, when nothing more happens. The place is empty then.
    pub fn take_desk(place: &mut Option<World<S, N>>) -> Option<Desk<N::Mark>>
        ensures { result ≡ option_map (λ w. w.desk) place.old }
    {
        let World { desk, .. } = place.take()?;
        Some(desk)
    }

    /// The ticket of a live pin.
    pub fn pinned(&self, pin: u32) -> Option<&Ticket<N::Mark>>
        ensures { option_copied result ≡ pin_at self.now.pins pin }
    {
        self.pins.get(pin as usize)?.as_ref()
    }

    /// How many productions the evaluations of this world took.
    pub fn made(&self) -> u64
        ensures { result ≡ self.now.made }
    {
        self.made
    }

    /// One event. An edit costs what the editor's does, and a logarithm of the cache for each endpoint that it makes dirty;
    /// an evaluation what it evaluates; a publication such a logarithm for each of its entries and hits.
    pub fn step<L: Ledger>(&mut self, event: &Event, steps: &mut Steps<L>) -> Outcome
        ensures step { IsStep S.tables N.Mark.seen self.old event.now result self.new }
        ensures steps { result ≢ outcome.NoMemory → steps.new ≡ steps.old + productions_of S.tables N.Mark.seen self.old event.now }
        ensures most { steps.new ≤ steps.old + productions_of S.tables N.Mark.seen self.old event.now }
    {
        match event {
            Event::Edit(all) => self.edit(all.as_slice()),
            Event::Undo => self.undo(),
            Event::Redo => self.redo(),
            Event::Pin => self.pin(),
            Event::Evaluate { pin, endpoint } => self.evaluate(*pin, *endpoint, steps),
            Event::Publish { offer } => self.publish(*offer),
            Event::Evict { most } => Outcome::Evicted(self.evict(*most)),
            Event::Drop { pin } => self.drop_pin(*pin),
        }
    }

    /// The event of an edit by these steps.
    pub fn edit(&mut self, all: &[Step]) -> Outcome
        ensures { IsEdited S.tables N.Mark.seen self.old self.new (edited S.tables (editor_of self.old.editor) all.now)
            (made_by (applied S.tables self.old.editor.here.revision.graph self.old.editor.here.revision.next all.now)) result }
    {
        match self.editor.it.transact(all) {
            Ok(commit) => {
                let Commit { link, made } = commit;
                let followed = follow(&self.editor.it, &mut self.desk, link);
                Outcome::Edited { made, followed }
            }
            Err(refusal) => Outcome::Refused(refusal),
        }
    }

    /// The event of an undo.
    pub fn undo(&mut self) -> Outcome
        ensures { IsEdited S.tables N.Mark.seen self.old self.new (undo_of S.tables (editor_of self.old.editor)) [] result }
    {
        match self.editor.it.undo() {
            Ok(link) => {
                let followed = follow(&self.editor.it, &mut self.desk, link);
                let made = Items::from_vec(Vec::new(self.alloc));
                Outcome::Edited { made, followed }
            }
            Err(refusal) => Outcome::Refused(refusal),
        }
    }

    /// The event of a redo.
    pub fn redo(&mut self) -> Outcome
        ensures { IsEdited S.tables N.Mark.seen self.old self.new (redo_of S.tables (editor_of self.old.editor)) [] result }
    {
        match self.editor.it.redo() {
            Ok(link) => {
                let followed = follow(&self.editor.it, &mut self.desk, link);
                let made = Items::from_vec(Vec::new(self.alloc));
                Outcome::Edited { made, followed }
            }
            Err(refusal) => Outcome::Refused(refusal),
        }
    }

    /// The event of a pin at the current revision.
    pub fn pin(&mut self) -> Outcome
        ensures { IsPin self.old self.new result }
    {
        self.desk.is_desk();
        let Ok(number) = u32::try_from(self.pins.len()) else {
            return Outcome::NoMemory;
        };
        let Ok(ticket) = self.editor.it.ticket().share() else {
            return Outcome::NoMemory;
        };
        if self.pins.push(Some(ticket)).is_err() {
            return Outcome::NoMemory;
        }
        Outcome::Pinned(number)
    }

    /// The event of the drop of a pin.
    pub fn drop_pin(&mut self, pin: u32) -> Outcome
        ensures { IsDrop self.old self.new pin (pin_at self.old.pins pin) result }
    {
        if self.pinned(pin).is_none() {
            return Outcome::NoPin;
        }
        self.pins[pin as usize] = None;
        Outcome::Dropped
    }

    /// The event of an evaluation at a pin.
    pub fn evaluate<L: Ledger>(&mut self, pin: u32, at: Endpoint, steps: &mut Steps<L>) -> Outcome
        ensures step { IsEvaluated S.tables N.Mark.seen self.old self.new (pin_at self.old.pins pin) at result }
        ensures steps { result ≢ outcome.NoMemory → steps.new ≡ steps.old + productions_at S.tables N.Mark.seen self.old (pin_at self.old.pins pin) at }
        ensures most { steps.new ≤ steps.old + productions_at S.tables N.Mark.seen self.old (pin_at self.old.pins pin) at }
    {
        let Some(ticket) = self.pinned(pin) else {
            return Outcome::NoPin;
        };
        let Ok(number) = u32::try_from(self.offers.len()) else {
            return Outcome::NoMemory;
        };
        self.editor.it.is_editor();
        let found = evaluated_listed(
            self.alloc,
            self.editor.it.line(),
            &self.desk,
            ticket,
            number,
            at,
            steps,
        );
        let Ok(found) = found else {
            return Outcome::NoMemory;
        };
        let Some(made) = self.made.checked_add(found.made) else {
            return Outcome::NoMemory;
        };
        if self.offers.push(found.offer).is_err() {
            return Outcome::NoMemory;
        }
        self.made = made;
        Outcome::Answered {
            held: found.held,
            offer: number,
        }
    }

    /// The event of a publication of an offer.
    pub fn publish(&mut self, offer: u32) -> Outcome
        ensures { IsPublish N.Mark.seen self.old self.new (slice_get self.old.offers offer) result }
    {
        self.desk.is_desk();
        let Some(offer) = self.offers.get(offer as usize) else {
            return Outcome::NoOffer;
        };
        match offer.copy(self.alloc) {
            Ok(copy) => Outcome::Published(self.desk.publish(self.editor.it.line(), copy)),
            Err(_) => Outcome::NoMemory,
        }
    }

    /// The event of an eviction of so many entries.
    pub fn evict(&mut self, most: u32) -> Evicted
        ensures { IsEvict N.Mark.seen self.old self.new most (outcome.Evicted result) }
    {
        self.desk.evict(most)
    }
}
