//! What commands are played in.
ghost use Rattle.std.specs.Prelude.{◌≡◌, ◌+◌, None, Some, is_some, true, IfOk, OnOk};
ghost use Rattle.std.specs.Option.{option_copied};
ghost use Rattle.dg_base.specs.Transact.{applied};
ghost use Rattle.dg_editor.specs.Machine.{edited, made_by, redo_of, undo_of};
ghost use Rattle.dg_kinds_coll.specs.Defold.{defold_tables};
ghost use Rattle.dg_play.specs.Sessions.{IsMoved, Leaves, MovesOn, graph_in, next_in, now_in, revision_at, with_live, without_live};
ghost use Rattle.dg_play.specs.Work.{after_ask, after_evict};

use dg_base::{Endpoint, NodeId, Step, Steps};
use dg_editor::EditCause;
use dg_kinds_coll::Defold;
use dg_line::Revision;
use sqlite_items::Items;
use std::alloc::AllocError;
use std::sync::ledger::Ledger;

/// An editor, the revisions that are pinned, each under a number, and somebody who answers what is asked. Where memory
/// is refused a session isn't used further.
///
/// Contracts see what it shows: the editor's state, and the live pins by their numbers. Of its work they see how
/// many productions were made here, and, where the session says anything of it, that this is the work of definitions.
pub trait Session {
    ghost use Rattle.std.specs.Prelude.{ℕ};
    ghost use Rattle.dg_asks.specs.Asks.{Ask};
    ghost use Rattle.dg_line.specs.Revisions.{Seen};
    ghost use Rattle.dg_play.specs.Sessions.{SessionView};
    ghost use Rattle.dg_play.specs.Work.{Work};

    /// What is given for an ask: its answer, or what stands for one that is still to come.
    type Answer: Drop;

    ghost shows: { Self → SessionView };

    ghost is_ready: { Self → Type 0 };

    ghost has_done: { Self → Seen → ℕ → Work → Type 0 };

    ghost made: { Self → ℕ };

    ghost asked: { Self.Answer → Ask };

    /// The current revision.
    fn now(&self) -> &Revision<Defold>
        ensures { result.now ≡ now_in (shows self.now) };

    /// The revision of a live pin.
    fn pinned(&self, pin: u32) -> Option<&Revision<Defold>>
        ensures { option_copied result ≡ (shows self.now).live pin };

    /// Does the steps, all or none, and answers the nodes that they made.
    fn edit(&mut self, steps: &[Step]) -> Result<Result<Items<NodeId>, EditCause>, AllocError>
        requires { is_ready self.old }
        ensures ready { OnOk result (is_ready self.new) }
        ensures shows { IfOk result (λ r. IsMoved (edited defold_tables (shows self.old).editor steps.now) (shows self.old) (shows self.new) r) }
        ensures nodes { IfOk result (λ r. IfOk r (λ ns. ns ≡ made_by (applied defold_tables (graph_in (shows self.old)) (next_in (shows self.old)) steps.now))) }
        ensures work { OnOk result (MovesOn shows has_done self.old self.new) }
        ensures made { OnOk result (made self.new ≡ made self.old) };

    fn undo(&mut self) -> Result<Result<(), EditCause>, AllocError>
        requires { is_ready self.old }
        ensures ready { OnOk result (is_ready self.new) }
        ensures shows { IfOk result (λ r. IsMoved (undo_of defold_tables (shows self.old).editor) (shows self.old) (shows self.new) r) }
        ensures work { OnOk result (MovesOn shows has_done self.old self.new) }
        ensures made { OnOk result (made self.new ≡ made self.old) };

    fn redo(&mut self) -> Result<Result<(), EditCause>, AllocError>
        requires { is_ready self.old }
        ensures ready { OnOk result (is_ready self.new) }
        ensures shows { IfOk result (λ r. IsMoved (redo_of defold_tables (shows self.old).editor) (shows self.old) (shows self.new) r) }
        ensures work { OnOk result (MovesOn shows has_done self.old self.new) }
        ensures made { OnOk result (made self.new ≡ made self.old) };

    /// Pins the current revision, under a number that no live pin has.
    fn pin(&mut self) -> Result<u32, AllocError>
        requires { is_ready self.old }
        ensures ready { OnOk result (is_ready self.new) }
        ensures free { IfOk result (λ n. (shows self.old).live n ≡ None) }
        ensures shows { IfOk result (λ n. shows self.new ≡ with_live (shows self.old) n) }
        ensures work { OnOk result (MovesOn shows has_done self.old self.new) }
        ensures made { OnOk result (made self.new ≡ made self.old) };

    /// Lets a live pin go.
    fn drop_pin(&mut self, pin: u32)
        requires ready { is_ready self.old }
        requires live { is_some ((shows self.old).live pin) ≡ true }
        ensures ready { is_ready self.new }
        ensures shows { shows self.new ≡ without_live (shows self.old) pin }
        ensures work { MovesOn shows has_done self.old self.new }
        ensures made { made self.new ≡ made self.old };

    /// Asks for an endpoint at the revision of a live pin, or at the current one.
    fn ask<L: Ledger>(
        &mut self,
        pin: Option<u32>,
        at: Endpoint,
        steps: &mut Steps<L>,
    ) -> Result<Self::Answer, AllocError>
        requires ready { is_ready self.old }
        requires live { is_some (revision_at (shows self.old) pin) ≡ true }
        ensures ready { OnOk result (is_ready self.new) }
        ensures revision { IfOk result (λ a. revision_at (shows self.old) pin ≡ Some (asked a).revision) }
        ensures endpoint { IfOk result (λ a. (asked a).at ≡ at) }
        ensures shows { OnOk result (shows self.new ≡ shows self.old) }
        ensures work { IfOk result (λ a. Leaves has_done self.old self.new (λ c w. after_ask defold_tables c (now_in (shows self.old)) (asked a) w)) }
        ensures steps { OnOk result (steps.new + made self.old ≡ steps.old + made self.new) };

    /// So many entries leave the cache, those that were used longest ago first, or all where there are fewer.
    fn evict(&mut self, most: u32) -> Result<(), AllocError>
        requires { is_ready self.old }
        ensures ready { OnOk result (is_ready self.new) }
        ensures shows { OnOk result (shows self.new ≡ shows self.old) }
        ensures work { OnOk result (Leaves has_done self.old self.new (λ c w. after_evict most w)) }
        ensures made { OnOk result (made self.new ≡ made self.old) };
}
