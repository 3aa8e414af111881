//! Undo and redo of a script.
ghost use Rattle.std.specs.Prelude.{◌≡◌, IfOk, OnOk};
ghost use Rattle.dg_kinds_coll.specs.Defold.{defold_tables};
ghost use Rattle.dg_editor.specs.Machine.{redo_of, undo_of};
ghost use Rattle.dg_play.specs.Play.{moved};
ghost use Rattle.dg_play.specs.Seen.{reply_by, state_by};
ghost use Rattle.dg_play.specs.Sessions.{MovesOn};
ghost use Rattle.dg_play.specs.States.{IsPlayed};

use crate::reply::{Reply, refusal_reply};
use crate::session::Session;
use crate::state::State;
use std::alloc::AllocError;

pub(crate) fn undo<P: Session>(state: &mut State<P>) -> Result<Reply<P::Answer>, AllocError>
    requires { IsPlayed P.is_ready P.shows state.old }
    ensures turn { IfOk result (λ r. moved (state_by P.shows state.old) (undo_of defold_tables (P.shows state.old.session).editor) ≡ record { state = state_by P.shows state.new; reply = reply_by P.asked r }) }
    ensures played { OnOk result (IsPlayed P.is_ready P.shows state.new) }
    ensures work { OnOk result (MovesOn P.shows P.has_done state.old.session state.new.session) }
    ensures made { OnOk result (P.made state.new.session ≡ P.made state.old.session) }
{
    Ok(match state.session.undo()? {
        Ok(()) => Reply::Done,
        Err(cause) => refusal_reply(cause),
    })
}

pub(crate) fn redo<P: Session>(state: &mut State<P>) -> Result<Reply<P::Answer>, AllocError>
    requires { IsPlayed P.is_ready P.shows state.old }
    ensures turn { IfOk result (λ r. moved (state_by P.shows state.old) (redo_of defold_tables (P.shows state.old.session).editor) ≡ record { state = state_by P.shows state.new; reply = reply_by P.asked r }) }
    ensures played { OnOk result (IsPlayed P.is_ready P.shows state.new) }
    ensures work { OnOk result (MovesOn P.shows P.has_done state.old.session state.new.session) }
    ensures made { OnOk result (P.made state.new.session ≡ P.made state.old.session) }
{
    Ok(match state.session.redo()? {
        Ok(()) => Reply::Done,
        Err(cause) => refusal_reply(cause),
    })
}
