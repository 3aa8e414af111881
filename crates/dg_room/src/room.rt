//! One lock round a desk, and the line beside it.
ghost use Rattle.std.specs.Prelude.{◌≡◌, ◌<◌, ◌≤◌, [], IfErr, IfOk, length};
ghost use Rattle.dg_base.specs.declared.limits.TheConstants.{REVISIONS};
ghost use Rattle.dg_desk.specs.declared.event.TheConstants.{PASSES};
ghost use Rattle.dg_desk.specs.Desks.{IsDesk, is_refused};
ghost use Rattle.dg_line.specs.Revisions.{Seen};
ghost use Rattle.dg_offer.specs.Offers.{AreValues};
ghost use Rattle.dg_room.specs.Made.{AreFresh, Has, passed, sum_of, with_follow};
ghost use Rattle.dg_room.specs.Names.{AreNamed};
ghost use Rattle.dg_room.specs.Tells.{CanFollow, EvictTells, PublishTells};

use crate::books::Books;
use crate::locked::{Locked, Wanted};
use crate::names::{Blanks, RoomName};
use crate::pass::{Pass, split_all};
use crate::short::Short;
use dg_base::Schema;
use dg_cache::{Evicted, Snapshot};
use dg_desk::{Desk, Followed, Published};
use dg_line::{LineName, Link, Revision, SharedLine, Shown, Ticket};
use dg_offer::Offer;
use std::alloc::{AllocError, Global};
use std::sync::{Mutex, Wait};

/// A desk under one lock, and the line beside it. A call sees the desk as it is when it has the lock; nothing is
/// claimed about which call comes first, or about how long one waits.
#[derive(Drop)]
pub struct Room<D, N> {
    desk: Mutex<D>,
    line: N,
}

impl<S: Schema, J: LineName, K: RoomName, R: Wait + Drop> Room<
    Locked<Shown<Revision<S>, J>, K>,
    SharedLine<Revision<S>, J, R>,
> {
    /// A room round a desk of the line, and its passes, numbered from 0, with which nothing was made yet. It takes
    /// memory for the list of passes alone.
    pub fn open(
        alloc: Global,
        desk: Desk<Shown<Revision<S>, J>>,
        line: SharedLine<Revision<S>, J, R>,
        passes: u32,
        blanks: Blanks,
    ) -> Result<
        (
            Room<Locked<Shown<Revision<S>, J>, K>, SharedLine<Revision<S>, J, R>>,
            Vec<Pass<K>>,
        ),
        AllocError,
    >
        requires desk { desk.history ≡ [] }
        requires some { 0 < passes }
        requires most { passes ≤ PASSES }
        requires passes { K.names.passes ≡ passes }
        requires named { AreNamed K.names blanks }
        ensures { IfOk result (λ r. AreFresh passes r.1.items) }
    {
        let (books, mut shares) = Books::open(blanks);
        let all = split_all(alloc, &mut shares, passes)?;
        let locked = Locked::new(desk, Wanted::of(passes), books, shares);
        Ok((
            Room {
                desk: Mutex::new(locked),
                line,
            },
            all,
        ))
    }

    /// Follows a link, by pass 0, which has followed less often than there are revisions. Logarithmic in the
    /// entries under the lock, for each endpoint that is dirty.
    pub fn follow<W: Wait>(
        &self,
        rt: &W,
        pass: &mut Pass<K>,
        link: Link<Shown<Revision<S>, J>>,
    ) -> Followed
        requires number { pass.old.number ≡ 0 }
        requires room { pass.old.made.follows < REVISIONS }
        ensures pass { pass.new ≡ passed 0 (with_follow pass.old.made) }
        ensures answer { CanFollow link.from.index result }
    {
        self.desk.lock(rt).follow(&self.line, pass, link)
    }

    /// All that the desk's cache has, where the ticket is that of the desk's revision, and else nothing. What it has
    /// is right at the ticket's revision. Constant time under the lock.
    pub fn snapshot<W: Wait>(
        &self,
        rt: &W,
        _pass: &Pass<K>,
        ticket: &Ticket<Shown<Revision<S>, J>>,
    ) -> Result<Snapshot, AllocError>
        ensures { IfOk result (λ s. AreValues S.tables ticket.now.revision.graph s) }
    {
        self.desk.lock(rt).snapshot(&self.line, ticket)
    }

    /// Publishes an offer of any age. It counts where it has a place in the history.
    pub fn publish<W: Wait>(
        &self,
        rt: &W,
        pass: &mut Pass<K>,
        offer: Offer<Shown<Revision<S>, J>>,
    ) -> Published
        ensures { PublishTells offer pass.old pass.new result result.place }
    {
        self.desk.lock(rt).publish(&self.line, pass, offer)
    }

    /// Drops entries from the end, at most so many. It counts unless none is gone for want of memory.
    pub fn evict<W: Wait>(&self, rt: &W, pass: &mut Pass<K>, most: u32) -> Evicted
        ensures { EvictTells most pass.old pass.new result (is_refused result) }
    {
        self.desk.lock(rt).evict(pass, most)
    }

    /// The desk, once all passes are back; the pass of its next record is 0. Where fewer are given, the room and
    /// these come back. It takes no memory.
    pub fn close(
        self,
        passes: Vec<Pass<K>>,
    ) -> Result<
        Desk<Shown<Revision<S>, J>>,
        Short<Room<Locked<Shown<Revision<S>, J>, K>, SharedLine<Revision<S>, J, R>>, Pass<K>>,
    >
        ensures all { IfOk result (λ d. length passes.items ≡ K.names.passes) }
        ensures desk { IfOk result (λ d. IsDesk (λ (r : Seen). r) S.tables d) }
        ensures has { IfOk result (λ d. Has d.history (sum_of passes.items)) }
        ensures pass { IfOk result (λ d. d.pass ≡ 0) }
        ensures passes { IfErr result (λ s. s.passes.items ≡ passes.items) }
        ensures had { IfErr result (λ s. s.had ≡ length passes.items) }
        ensures wanted { IfErr result (λ s. s.wanted ≡ K.names.passes) }
        ensures short { IfErr result (λ s. s.had < s.wanted) }
    {
        let Room { desk, line } = self;
        let locked = desk.into_inner();
        let wanted = locked.wanted();
        let had = passes.len();
        if had < wanted as usize {
            let room = Room {
                desk: Mutex::new(locked),
                line,
            };
            return Err(Short {
                room,
                passes,
                had: had as u32,
                wanted,
            });
        }
        let desk = locked.finish(passes);
        desk.is_desk();
        Ok(desk)
    }
}
