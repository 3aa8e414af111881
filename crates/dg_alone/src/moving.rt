//! Edits, undo and redo in a world.
ghost use Rattle.std.specs.Prelude.{◌≡◌, Result, IfOk, OnOk};
ghost use Rattle.dg_base.specs.Transact.{applied};
ghost use Rattle.dg_kinds_coll.specs.Defold.{defold_tables};
ghost use Rattle.dg_editor.specs.declared.cause.EditCause.{EditCause};
ghost use Rattle.dg_editor.specs.Machine.{State as Editor, edited, made_by, redo_of, undo_of};
ghost use Rattle.dg_editor.specs.Seeing.{state_of as editor_of};
ghost use Rattle.dg_play.specs.Sessions.{IsMoved, SessionView};
ghost use Rattle.dg_alone.specs.Works.{IsMovedOn, IsWhole, view_of};

use crate::outcome::change_of;
use crate::types::AloneWorld;
use dg_base::{NodeId, Step};
use dg_editor::EditCause;
use sqlite_items::Items;
use std::alloc::AllocError;

/// Does the steps, all or none, and answers the nodes that they made.
pub(crate) fn edit(
    world: &mut AloneWorld,
    steps: &[Step],
) -> Result<Result<Items<NodeId>, EditCause>, AllocError>
    requires { IsWhole world.old }
    ensures whole { OnOk result (IsWhole world.new) }
    ensures moved { IfOk result (λ r. IsMoved (edited defold_tables (editor_of world.old.editor) steps.now) (view_of world.old) (view_of world.new) r) }
    ensures nodes { IfOk result (λ r. IfOk r (λ ns. ns ≡ made_by (applied defold_tables world.old.editor.here.revision.graph world.old.editor.here.revision.next steps.now))) }
    ensures work { OnOk result (IsMovedOn world.old world.new) }
    ensures made { OnOk result (world.new.made ≡ world.old.made) }
{
    world.is_world();
    let outcome = world.edit(steps);
    change_of(outcome)
}

pub(crate) fn undo(world: &mut AloneWorld) -> Result<Result<(), EditCause>, AllocError>
    requires { IsWhole world.old }
    ensures whole { OnOk result (IsWhole world.new) }
    ensures moved { IfOk result (λ r. IsMoved (undo_of defold_tables (editor_of world.old.editor)) (view_of world.old) (view_of world.new) r) }
    ensures work { OnOk result (IsMovedOn world.old world.new) }
    ensures made { OnOk result (world.new.made ≡ world.old.made) }
{
    world.is_world();
    let outcome = world.undo();
    let changed = change_of(outcome)?;
    Ok(without_nodes(changed))
}

pub(crate) fn redo(world: &mut AloneWorld) -> Result<Result<(), EditCause>, AllocError>
    requires { IsWhole world.old }
    ensures whole { OnOk result (IsWhole world.new) }
    ensures moved { IfOk result (λ r. IsMoved (redo_of defold_tables (editor_of world.old.editor)) (view_of world.old) (view_of world.new) r) }
    ensures work { OnOk result (IsMovedOn world.old world.new) }
    ensures made { OnOk result (world.new.made ≡ world.old.made) }
{
    world.is_world();
    let outcome = world.redo();
    let changed = change_of(outcome)?;
    Ok(without_nodes(changed))
}

// An undo and a redo make no nodes.
fn without_nodes(changed: Result<Items<NodeId>, EditCause>) -> Result<(), EditCause>
    ensures { (r : Result Editor EditCause) (v w : SessionView) → IsMoved r v w changed → IsMoved r v w result }
{
    match changed {
        Ok(_) => Ok(()),
        Err(cause) => Err(cause),
    }
}
