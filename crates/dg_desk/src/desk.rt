//! The desk.
ghost use Rattle.std.specs.Prelude.{◌≡◌, ◌≢◌, ◌≤◌, ◌<◌, [], IfOk, IsTrue, None, Some, false, length, option_copied, option_map, ℕ};
ghost use Rattle.std.specs.List.{Contains};
ghost use Rattle.dg_cache.specs.Caches.{IsCached};
ghost use Rattle.dg_line.specs.Links.{IsLink};
ghost use Rattle.dg_line.specs.Tickets.{Pin};
ghost use Rattle.dg_offer.specs.Offers.{AreValues};
ghost use Rattle.dg_desk.specs.declared.event.What.TheVariants as what;
ghost use Rattle.dg_desk.specs.declared.event.TheConstants.{PASSES};
ghost use Rattle.dg_desk.specs.Acts.{IsKept};
ghost use Rattle.dg_desk.specs.Desks.{IsDesk, IsEviction, IsFollowed, IsPublication, recorded, snapshot_of, spare, state_of};
ghost use Rattle.dg_desk.specs.Places.{IsFound};

use crate::acts::{follow_cache, put_all, touch_all, unchanged_of};
use crate::answers::{is_refused, none_evicted, put_answer, refused, unknown_answer};
use crate::records::{found_in, is_restart, last_in, push_place, push_record};
use crate::{EventOf, Followed, PASSES, Published, What};
use dg_base::REVISIONS;
use dg_cache::{Cache, Entry, Evicted, Snapshot};
use dg_line::{Line, Link, Mark, Ticket};
use dg_offer::Offer;
use std::alloc::{AllocError, Global};
use std::marker::Model;

// What a desk has, without bounds: the ticket of its opening, its cache, the records, the places of those that brought
// the listed revisions (none for the opening), how many there are of each pass, the pass of the next one, and how many
// more follow and settle records there is room for.
#[derive(Drop)]
pub(crate) struct Body<T, E> {
    alloc: Global,
    opened: T,
    cache: Cache,
    history: Vec<E>,
    listed: Vec<Option<usize>>,
    counts: [usize; PASSES],
    pass: u32,
    spare: usize,
}

/// A shared cache at a revision, with the records of what was done. Contracts see the records, and the entries,
/// most recent first.
#[derive(Drop)]
pub struct Desk<M: Mark> {
    body: Body<Ticket<M>, EventOf<M>>,
}

impl<M: Mark> Model for Desk<M> {
    ghost use Rattle.std.specs.Prelude.{vec_len, vec_capacity};
    ghost use Rattle.dg_desk.specs.Desks.{Desked, desk_code};
    ghost use Rattle.dg_desk.specs.Places.{IsFiled};

    ghost Value = { Desked M.Of M };

    ghost coded = { desk_code M.Of.code M.code };

    ghost view = { λ d. record { opened = d.body.opened; capacity = d.body.cache.capacity; entries = d.body.cache.entries; history = d.body.history.items; pass = d.body.pass } };

    ghost invariant = { λ d. IsFiled M.seen M.tables
        (record { opened = d.body.opened; capacity = d.body.cache.capacity; entries = d.body.cache.entries; history = d.body.history.items; pass = d.body.pass })
        d.body.spare (vec_len d.body.history) (vec_capacity d.body.history) d.body.listed.items (vec_capacity d.body.listed) d.body.counts };
}

impl<M: Mark> Desk<M> {
    /// A desk at a revision, with a cache for so many entries. Room for the records of all later revisions is made
    /// here.
    pub fn open(alloc: Global, ticket: Ticket<M>, capacity: u32) -> Result<Desk<M>, AllocError>
        requires { 1 ≤ capacity }
        ensures { IfOk result (λ d. d ≡ record { opened = ticket; capacity = capacity; entries = []; history = []; pass = 0 }) }
    {
        let history = Vec::with_capacity(alloc, REVISIONS)?;
        let mut listed = Vec::with_capacity(alloc, REVISIONS + 1)?;
        listed.push_reserved(None);
        Ok(Desk {
            body: Body {
                alloc,
                opened: ticket,
                cache: Cache::new(alloc, capacity),
                history,
                listed,
                counts: [0; PASSES],
                pass: 0,
                spare: REVISIONS,
            },
        })
    }

    /// That a desk is coherent, for proofs. It does nothing.
    pub fn is_desk(&self)
        ensures { IsDesk M.seen M.tables self.now }
    {
        let _ = &self.body;
    }

    /// The ticket of the revision that the desk is at. In constant time.
    pub fn now(&self) -> &Ticket<M>
        ensures now { result.now ≡ (state_of M.seen self.now).now }
        ensures listed { Contains (state_of M.seen self.now).list result.now }
    {
        last_in(&self.body.opened, &self.body.history, &self.body.listed)
    }

    // The listed ticket with an index. In constant time for the desk's own, and linear in the listed ones else.
    fn listed(&self, index: usize) -> Option<&Ticket<M>>
        ensures { IsFound index (state_of M.seen self.now).list (option_copied result) }
    {
        found_in(
            index,
            &self.body.opened,
            &self.body.history,
            &self.body.listed,
        )
    }

    /// How many more follows and settles there is room for.
    pub fn spare(&self) -> usize
        ensures { result ≡ spare self.now.history }
    {
        self.body.spare
    }

    pub fn cache_len(&self) -> usize
        ensures { result ≡ length self.now.entries }
    {
        self.body.cache.len()
    }

    /// What was done, in order.
    pub fn history(&self) -> &[EventOf<M>]
        ensures { result.now ≡ self.now.history }
    {
        self.body.history.as_slice()
    }

    /// Names the pass that later records have.
    pub fn set_pass(&mut self, pass: u32)
        requires { pass < PASSES }
        ensures { self.new ≡ record { opened = self.old.opened; capacity = self.old.capacity; entries = self.old.entries; history = self.old.history; pass = pass } }
    {
        self.body.pass = pass;
    }
}

impl<T: Drop, M: Mark<Of = T>> Desk<M> {
    // Whether a ticket has the desk's index; then both hold one revision.
    fn meets<N: Line<T, Mark = M>>(&self, line: &N, ticket: &Ticket<M>) -> bool
        requires desk { (p : Pin T M) → Contains (state_of M.seen self.now).list p → N.is_of line.now p }
        requires ticket { N.is_of line.now ticket.now }
        ensures yes { IsTrue result → (state_of M.seen self.now).now.index ≡ ticket.now.index }
        ensures revision { IsTrue result → (state_of M.seen self.now).now.revision ≡ ticket.now.revision }
        ensures no { result ≡ false → (state_of M.seen self.now).now.index ≢ ticket.now.index }
    {
        let now = self.now();
        if now.index() == ticket.index() {
            line.agrees(now, ticket);
            true
        } else {
            false
        }
    }

    /// All that the cache has, where the ticket is that of the desk's revision, and else nothing. In constant time.
    pub fn snapshot<N: Line<T, Mark = M>>(
        &self,
        line: &N,
        ticket: &Ticket<M>,
    ) -> Result<Snapshot, AllocError>
        requires desk { (p : Pin T M) → Contains (state_of M.seen self.now).list p → N.is_of line.now p }
        requires ticket { N.is_of line.now ticket.now }
        ensures entries { IfOk result (λ s. s ≡ snapshot_of (state_of M.seen self.now) ticket.now.index) }
        ensures values { IfOk result (λ s. AreValues M.tables (M.seen ticket.now.revision).graph s) }
        ensures same { IfOk result (λ s. (state_of M.seen self.now).now.index ≡ ticket.now.index → (state_of M.seen self.now).now.revision ≡ ticket.now.revision) }
    {
        if self.meets(line, ticket) {
            self.body.cache.snapshot()
        } else {
            Ok(Snapshot::none())
        }
    }

    /// Follows a link of the desk's line. Logarithmic in the entries for each endpoint that is dirty, whatever else the
    /// cache has.
    pub fn follow<N: Line<T, Mark = M>>(&mut self, line: &N, link: Link<M>) -> Followed
        requires desk { (p : Pin T M) → Contains (state_of M.seen self.old).list p → N.is_of line.now p }
        requires link { N.is_of line.now link.from }
        requires spare { 1 ≤ spare self.old.history }
        ensures new { self.new ≡ recorded M.seen self.old (what.Follow link result) }
        ensures answer { IsFollowed (state_of M.seen self.old).now.index link.from.index result }
    {
        let had = self.now().index();
        let meets = self.meets(line, link.from());
        link.is_link();
        let answer = follow_cache(
            &mut self.body.cache,
            meets,
            had,
            link.from().index(),
            link.dirty(),
        );
        let place = self.body.history.len();
        push_place(&mut self.body.listed, is_restart(answer), place);
        push_record(
            &mut self.body.history,
            &mut self.body.counts,
            self.body.pass,
            What::Follow(link, answer),
        );
        self.body.spare -= 1;
        answer
    }

    /// Starts anew at a ticket of the desk's line, without entries.
    pub fn settle(&mut self, ticket: Ticket<M>)
        requires spare { 1 ≤ spare self.old.history }
        ensures { self.new ≡ recorded M.seen self.old (what.Settle ticket) }
    {
        self.body.cache.clear();
        let place = self.body.history.len();
        push_place(&mut self.body.listed, true, place);
        push_record(
            &mut self.body.history,
            &mut self.body.counts,
            self.body.pass,
            What::Settle(ticket),
        );
        self.body.spare -= 1;
    }

    /// Drops entries from the end, one by one, at most so many. Where memory is refused for the record or before the
    /// first of them is dropped, nothing changed, and the answer is that none is gone for want of memory. Those that
    /// were dropped before memory was refused stay dropped.
    pub fn evict(&mut self, most: u32) -> Evicted
        ensures { IsEviction M.seen self.old most result self.new }
    {
        match self.body.history.reserve(self.body.spare + 1) {
            Ok(()) => {}
            Err(_) => return none_evicted(),
        }
        let answer = self.body.cache.evict(most);
        if is_refused(&answer) {
            return answer;
        }
        push_record(
            &mut self.body.history,
            &mut self.body.counts,
            self.body.pass,
            What::Evict(most, answer),
        );
        answer
    }

    // What is kept of an offer: none where its revision isn't listed.
    fn kept_of<N: Line<T, Mark = M>>(
        &self,
        line: &N,
        offer: &Offer<M>,
    ) -> Result<Option<Vec<Entry>>, AllocError>
        requires desk { (p : Pin T M) → Contains (state_of M.seen self.now).list p → N.is_of line.now p }
        requires offer { N.is_of line.now offer.now.ticket }
        ensures { IfOk result (λ k. IsKept M.seen self.now offer.now (option_map (λ v. v.items) k)) }
    {
        let Some(ticket) = self.listed(offer.ticket().index()) else {
            return Ok(None);
        };
        line.agrees(ticket, offer.ticket());
        let now = self.now();
        let kept = unchanged_of(self.body.alloc, offer.ticket(), now, offer.entries())?;
        Ok(Some(kept))
    }

    // Puts what is kept of an offer.
    fn publish_kept(&mut self, offer: Offer<M>, kept: &[Entry]) -> Published
        requires { IsKept M.seen self.old offer (Some kept.now) }
        ensures { IsPublication M.seen self.old offer result self.new result.place }
    {
        offer.is_offer();
        match self.body.history.reserve(self.body.spare + 1) {
            Ok(()) => {}
            Err(_) => return refused(),
        }
        touch_all(&mut self.body.cache, offer.hits());
        let done = put_all(&mut self.body.cache, kept);
        let answer = put_answer(
            self.body.history.len(),
            offer.entries().len(),
            kept.len(),
            done,
        );
        push_record(
            &mut self.body.history,
            &mut self.body.counts,
            self.body.pass,
            What::Publish(offer, answer),
        );
        answer
    }

    // Records an offer whose revision isn't listed.
    fn publish_unknown(&mut self, offer: Offer<M>) -> Published
        requires { IsKept M.seen self.old offer None }
        ensures { IsPublication M.seen self.old offer result self.new result.place }
    {
        offer.is_offer();
        match self.body.history.reserve(self.body.spare + 1) {
            Ok(()) => {}
            Err(_) => return refused(),
        }
        let answer = unknown_answer(self.body.history.len(), offer.ticket().index());
        push_record(
            &mut self.body.history,
            &mut self.body.counts,
            self.body.pass,
            What::Publish(offer, answer),
        );
        answer
    }

    /// Takes what is unchanged since the offer's revision: the hits that are there go to the front, and the kept
    /// entries are put, in order, as long as there is memory. Logarithmic in the entries of the cache for each
    /// hit and each kept entry, and for an offer of an earlier revision linear in the listed ones after it.
    pub fn publish<N: Line<T, Mark = M>>(&mut self, line: &N, offer: Offer<M>) -> Published
        requires desk { (p : Pin T M) → Contains (state_of M.seen self.old).list p → N.is_of line.now p }
        requires offer { N.is_of line.now offer.ticket }
        ensures { IsPublication M.seen self.old offer result self.new result.place }
    {
        match self.kept_of(line, &offer) {
            Ok(Some(kept)) => self.publish_kept(offer, &kept),
            Ok(None) => self.publish_unknown(offer),
            Err(_) => refused(),
        }
    }
}
