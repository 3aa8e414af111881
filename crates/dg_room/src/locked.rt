//! A desk with its books.
ghost use Rattle.std.specs.Prelude.{◌≡◌, ◌<◌, ◌≤◌, [], IfOk, length};
ghost use Rattle.std.specs.List.{Contains};
ghost use Rattle.dg_base.specs.declared.limits.TheConstants.{REVISIONS};
ghost use Rattle.dg_desk.specs.declared.event.What.TheVariants as what;
ghost use Rattle.dg_desk.specs.Desks.{IsEviction, IsFollowed, IsPublication, is_refused, recorded, snapshot_of, state_of};
ghost use Rattle.dg_line.specs.Tickets.{Pin};
ghost use Rattle.dg_offer.specs.Offers.{AreValues};
ghost use Rattle.dg_room.specs.Made.{Has, none_made, passed, portion, sum_of, with_follow};
ghost use Rattle.dg_room.specs.Tells.{EvictTells, PublishTells, at_pass};

use crate::books::Books;
use crate::names::RoomName;
use crate::pass::{Pass, merge_all};
use crate::shares::Shares;
use dg_cache::{EvictEnd, Evicted, Snapshot};
use dg_desk::{Desk, Followed, Published};
use dg_line::{Line, Link, Mark, Ticket};
use dg_offer::Offer;
use std::alloc::AllocError;
use std::marker::PhantomData;

/// How many passes a room has.
#[derive(Drop)]
pub(crate) struct Wanted<K: RoomName> {
    passes: u32,
    of: PhantomData<K>,
    ghost is: { passes ≡ K.names.passes },
    ghost some: { 0 < passes },
}

impl<K: RoomName> Wanted<K> {
    pub(crate) fn of(passes: u32) -> Wanted<K>
        requires is { passes ≡ K.names.passes }
        requires some { 0 < passes }
    {
        Wanted {
            passes,
            of: PhantomData,
        }
    }

    fn passes(&self) -> u32
        ensures is { result ≡ K.names.passes }
        ensures some { 0 < result }
    {
        self.passes
    }
}

/// What lies under a room's lock: the desk, and what was made with all passes together. The desk's history has
/// exactly that.
#[derive(Drop)]
pub struct Locked<M: Mark, K: RoomName> {
    desk: Desk<M>,
    wanted: Wanted<K>,
    books: Books<K>,
    // The shares that no pass has. They have no part.
    rest: Shares<K>,
    ghost nothing: { rest ≡ portion 0 0 none_made },
    ghost has: { Has desk.history books },
}

impl<M: Mark, K: RoomName> Locked<M, K> {
    /// A desk without records, with new books.
    pub(crate) fn new(
        desk: Desk<M>,
        wanted: Wanted<K>,
        books: Books<K>,
        rest: Shares<K>,
    ) -> Locked<M, K>
        requires desk { desk.history ≡ [] }
        requires books { books ≡ none_made }
        requires rest { rest ≡ portion 0 0 none_made }
        ensures { result.desk ≡ desk }
    {
        Locked {
            desk,
            wanted,
            books,
            rest,
        }
    }

    /// How many passes there are.
    pub(crate) fn wanted(&self) -> u32
        ensures is { result ≡ K.names.passes }
        ensures some { 0 < result }
    {
        self.wanted.passes()
    }

    /// As the desk's, and counts where there is a record.
    pub(crate) fn evict(&mut self, pass: &mut Pass<K>, most: u32) -> Evicted
        ensures desk { IsEviction M.seen (at_pass pass.old.number self.old.desk) most result self.new.desk }
        ensures pass { EvictTells most pass.old pass.new result (is_refused result) }
    {
        self.desk.set_pass(pass.number);
        let answer = self.desk.evict(most);
        if !is_refused(&answer) {
            self.books.evict(&mut pass.shares);
        }
        answer
    }

    /// The desk, and what all passes say of its history.
    pub(crate) fn finish(self, passes: Vec<Pass<K>>) -> Desk<M>
        requires { K.names.passes ≤ length passes.items }
        ensures all { length passes.items ≡ K.names.passes }
        ensures desk { result ≡ at_pass 0 self.desk }
        ensures has { Has result.history (sum_of passes.items) }
    {
        let Locked {
            mut desk,
            wanted: _,
            mut books,
            rest,
        } = self;
        let mut all = merge_all(rest, passes);
        books.audit(&mut all);
        desk.set_pass(0);
        desk
    }
}

impl<T: Drop, M: Mark<Of = T>, K: RoomName> Locked<M, K> {
    /// As the desk's.
    pub(crate) fn snapshot<N: Line<T, Mark = M>>(
        &self,
        line: &N,
        ticket: &Ticket<M>,
    ) -> Result<Snapshot, AllocError>
        requires desk { (p : Pin T M) → Contains (state_of M.seen self.now.desk).list p → N.is_of line.now p }
        requires ticket { N.is_of line.now ticket.now }
        ensures entries { IfOk result (λ s. s ≡ snapshot_of (state_of M.seen self.now.desk) ticket.now.index) }
        ensures values { IfOk result (λ s. AreValues M.tables (M.seen ticket.now.revision).graph s) }
    {
        self.desk.snapshot(line, ticket)
    }

    /// As the desk's, by pass 0.
    pub(crate) fn follow<N: Line<T, Mark = M>>(
        &mut self,
        line: &N,
        pass: &mut Pass<K>,
        link: Link<M>,
    ) -> Followed
        requires desk { (p : Pin T M) → Contains (state_of M.seen self.old.desk).list p → N.is_of line.now p }
        requires link { N.is_of line.now link.from }
        requires number { pass.old.number ≡ 0 }
        requires room { pass.old.made.follows < REVISIONS }
        ensures desk { self.new.desk ≡ recorded M.seen (at_pass 0 self.old.desk) (what.Follow link result) }
        ensures pass { pass.new ≡ passed 0 (with_follow pass.old.made) }
        ensures answer { IsFollowed (state_of M.seen self.old.desk).now.index link.from.index result }
    {
        self.books.audit_follows(&mut pass.shares);
        self.desk.set_pass(0);
        let answer = self.desk.follow(line, link);
        self.books.follow(&mut pass.shares);
        answer
    }

    /// As the desk's, and counts where there is a record.
    pub(crate) fn publish<N: Line<T, Mark = M>>(
        &mut self,
        line: &N,
        pass: &mut Pass<K>,
        offer: Offer<M>,
    ) -> Published
        requires desk { (p : Pin T M) → Contains (state_of M.seen self.old.desk).list p → N.is_of line.now p }
        requires offer { N.is_of line.now offer.ticket }
        ensures desk { IsPublication M.seen (at_pass pass.old.number self.old.desk) offer result self.new.desk result.place }
        ensures pass { PublishTells offer pass.old pass.new result result.place }
    {
        self.desk.set_pass(pass.number);
        let answer = self.desk.publish(line, offer);
        if answer.place.is_some() {
            self.books.publish(&mut pass.shares);
        }
        answer
    }
}

// Whether memory was wanted before an entry was dropped.
fn is_refused(answer: &Evicted) -> bool
    ensures { result ≡ is_refused answer.now }
{
    match answer.end {
        EvictEnd::All => false,
        EvictEnd::NoMemory => answer.gone == 0,
    }
}
