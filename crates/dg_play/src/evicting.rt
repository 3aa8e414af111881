//! Evictions of a script.
ghost use Rattle.std.specs.Prelude.{◌≡◌, IfOk, OnOk};
ghost use Rattle.dg_play.specs.Play.{Done, unchanged};
ghost use Rattle.dg_play.specs.Seen.{reply_by, state_by};
ghost use Rattle.dg_play.specs.Sessions.{Leaves};
ghost use Rattle.dg_play.specs.States.{IsPlayed};
ghost use Rattle.dg_play.specs.Work.{after_evict};

use crate::reply::Reply;
use crate::session::Session;
use crate::state::State;
use std::alloc::AllocError;

/// So many entries leave the cache, those that were used longest ago first, or all where there are fewer.
pub(crate) fn evict<P: Session>(
    state: &mut State<P>,
    most: u32,
) -> Result<Reply<P::Answer>, AllocError>
    requires { IsPlayed P.is_ready P.shows state.old }
    ensures turn { IfOk result (λ r. unchanged (state_by P.shows state.old) Done ≡ record { state = state_by P.shows state.new; reply = reply_by P.asked r }) }
    ensures played { OnOk result (IsPlayed P.is_ready P.shows state.new) }
    ensures work { OnOk result (Leaves P.has_done state.old.session state.new.session (λ c w. after_evict most w)) }
    ensures made { OnOk result (P.made state.new.session ≡ P.made state.old.session) }
{
    state.session.evict(most)?;
    Ok(Reply::Done)
}
