//! A session on one thread.
ghost use Rattle.std.specs.Prelude.{◌≡◌, ◌+◌, None, Some, is_some, true, IfOk, OnOk};
ghost use Rattle.dg_alone.specs.Works.{HasDone, IsWhole, view_of};

use crate::answering::ask;
use crate::evicting::evict;
use crate::moving::{edit, redo, undo};
use crate::pinning::{drop_pin, pin};
use crate::types::AloneWorld;
use dg_asks::Answered;
use dg_base::{Endpoint, NodeId, Step, Steps};
use dg_editor::EditCause;
use dg_kinds_coll::Defold;
use dg_line::Revision;
use dg_play::Session;
use sqlite_items::Items;
use std::alloc::AllocError;
use std::sync::ledger::Ledger;

/// A world in which commands are played: an edit, an undo and a redo are followed by the cache, and an answer is
/// evaluated with what the cache knows and published once. A call ends with want of memory also where the cache wanted
/// it, so that what is kept and what is evaluated is what the definition says.
#[derive(Drop)]
pub struct Alone {
    pub world: AloneWorld,
}

impl Session for Alone {
    ghost use Rattle.dg_alone.specs.Works.{HasDone, IsWhole, view_of};

    type Answer = Answered;

    ghost shows = { λ s. view_of s.world };

    ghost is_ready = { λ s. IsWhole s.world };

    ghost has_done = { λ s first capacity w. HasDone s.world first capacity w };

    ghost made = { λ s. s.world.made };

    ghost asked = { λ a. a };

    fn now(&self) -> &Revision<Defold> {
        self.world.now().revision()
    }

    fn pinned(&self, pin: u32) -> Option<&Revision<Defold>> {
        let ticket = self.world.pinned(pin)?;
        Some(ticket.revision())
    }

    fn edit(&mut self, steps: &[Step]) -> Result<Result<Items<NodeId>, EditCause>, AllocError> {
        edit(&mut self.world, steps)
    }

    fn undo(&mut self) -> Result<Result<(), EditCause>, AllocError> {
        undo(&mut self.world)
    }

    fn redo(&mut self) -> Result<Result<(), EditCause>, AllocError> {
        redo(&mut self.world)
    }

    fn pin(&mut self) -> Result<u32, AllocError> {
        pin(&mut self.world)
    }

    fn drop_pin(&mut self, pin: u32) {
        drop_pin(&mut self.world, pin);
    }

    fn ask<L: Ledger>(
        &mut self,
        pin: Option<u32>,
        at: Endpoint,
        steps: &mut Steps<L>,
    ) -> Result<Answered, AllocError> {
        ask(&mut self.world, pin, at, steps)
    }

    fn evict(&mut self, most: u32) -> Result<(), AllocError> {
        evict(&mut self.world, most)
    }
}
