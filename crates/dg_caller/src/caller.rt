//! The session of a script that is played with workers.
ghost use Rattle.std.specs.Prelude.{◌≡◌, ◌+◌, map, None, Some, is_some, true, IfOk, OnOk};
ghost use Rattle.dg_asks.specs.Asks.{asking_ask};
ghost use Rattle.dg_caller.specs.Calls.{CanFollow, HasDone, view_of};

use crate::awaited::Awaited;
use crate::doing::{evict, follow, put};
use crate::pinned::ticket_at;
use dg_asks::Asking;
use dg_base::{Endpoint, NodeId, Refusal, Step, Steps};
use dg_editor::{Commit, EditCause, Editor};
use dg_kinds_coll::Defold;
use dg_line::{LineName, Revision, SharedLine, Ticket};
use dg_play::Session;
use dg_pool::{PoolName, PoolPass};
use dg_room::{Pass, RoomName};
use dg_worker::{Job, JobMark, JobPool, JobRoom};
use sqlite_items::Items;
use std::alloc::AllocError;
use std::sync::Wait;
use std::sync::ledger::Ledger;

/// The editor of a script whose revisions threads share.
pub type CallerEditor<J, R> = Editor<Defold, SharedLine<Revision<Defold>, J, R>>;

/// An editor, the tickets of the live pins by their numbers, all that was asked so far, by number, and the passes with
/// which the cache follows and jobs are put.
#[derive(Drop)]
pub struct Calls<'a, R, P, Q, E, T, A, B, C> {
    pub rt: &'a R,
    pub room: &'a P,
    pub pool: &'a Q,
    pub editor: E,
    pub pins: Vec<Option<T>>,
    pub asked: Vec<A>,
    pub pass: B,
    pub jobs: C,
}

/// The session of a script whose revisions, room and pool have these names.
pub type Caller<'a, J, K, N, R> = Calls<
    'a,
    R,
    JobRoom<J, K, R>,
    JobPool<J, N>,
    CallerEditor<J, R>,
    Ticket<JobMark<J>>,
    Asking<JobMark<J>>,
    Pass<K>,
    PoolPass<N>,
>;

impl<'a, J: LineName, K: RoomName, N: PoolName, R: Wait + Drop> Session for Caller<'a, J, K, N, R> {
    ghost use Rattle.std.specs.Prelude.{map};
    ghost use Rattle.dg_asks.specs.Asks.{asking_ask};
    ghost use Rattle.dg_caller.specs.Calls.{CanFollow, HasDone, view_of};

    type Answer = Awaited;

    ghost shows = { λ c. view_of c.editor c.pins.items };

    ghost is_ready = { λ c. CanFollow c.pass c.editor.here.revision };

    ghost has_done = { λ c first capacity w. HasDone (map asking_ask c.asked.items) c.pass c.editor.here.revision first w };

    ghost made = { λ c. 0 };

    ghost asked = { λ a. a };

    fn now(&self) -> &Revision<Defold> {
        self.editor.ticket().revision()
    }

    fn pinned(&self, pin: u32) -> Option<&Revision<Defold>> {
        let ticket = self.pins.get(pin as usize)?.as_ref()?;
        Some(ticket.revision())
    }

    fn edit(&mut self, steps: &[Step]) -> Result<Result<Items<NodeId>, EditCause>, AllocError> {
        match self.editor.transact(steps) {
            Ok(commit) => {
                let Commit { link, made } = commit;
                follow(self.rt, self.room, &mut self.pass, link)?;
                Ok(Ok(made))
            }
            Err(Refusal::Because(cause)) => Ok(Err(cause)),
            Err(Refusal::NoMemory) => Err(AllocError),
        }
    }

    fn undo(&mut self) -> Result<Result<(), EditCause>, AllocError> {
        match self.editor.undo() {
            Ok(link) => {
                follow(self.rt, self.room, &mut self.pass, link)?;
                Ok(Ok(()))
            }
            Err(Refusal::Because(cause)) => Ok(Err(cause)),
            Err(Refusal::NoMemory) => Err(AllocError),
        }
    }

    fn redo(&mut self) -> Result<Result<(), EditCause>, AllocError> {
        match self.editor.redo() {
            Ok(link) => {
                follow(self.rt, self.room, &mut self.pass, link)?;
                Ok(Ok(()))
            }
            Err(Refusal::Because(cause)) => Ok(Err(cause)),
            Err(Refusal::NoMemory) => Err(AllocError),
        }
    }

    fn pin(&mut self) -> Result<u32, AllocError> {
        let Ok(number) = u32::try_from(self.pins.len()) else {
            return Err(AllocError);
        };
        let ticket = self.editor.ticket().share()?;
        self.pins.push(Some(ticket))?;
        Ok(number)
    }

    fn drop_pin(&mut self, pin: u32) {
        self.pins[pin as usize] = None;
    }

    fn ask<L: Ledger>(
        &mut self,
        pin: Option<u32>,
        at: Endpoint,
        _steps: &mut Steps<L>,
    ) -> Result<Awaited, AllocError> {
        let ticket = ticket_at(&self.editor, self.pins.as_slice(), pin)?;
        let Ok(ask) = u32::try_from(self.asked.len()) else {
            return Err(AllocError);
        };
        let asking = Asking { ticket, at };
        let awaited = Awaited::of(asking.ticket.share()?.into_revision(), at);
        let job = Job {
            ask,
            asking: asking.share()?,
        };
        self.asked.push(asking)?;
        put(self.rt, self.pool, &mut self.jobs, job);
        Ok(awaited)
    }

    fn evict(&mut self, most: u32) -> Result<(), AllocError> {
        evict(self.rt, self.room, &mut self.pass, most)
    }
}
