//! A transaction of a script.
ghost use Rattle.std.specs.Prelude.{◌≡◌, IfOk, OnOk};
ghost use Rattle.dg_bind.specs.Steps.{steps_bound};
ghost use Rattle.dg_kinds_coll.specs.Defold.{defold_tables};
ghost use Rattle.dg_play.specs.Play.{edits, transaction};
ghost use Rattle.dg_play.specs.Seen.{reply_by, state_by};
ghost use Rattle.dg_play.specs.Sessions.{MovesOn};
ghost use Rattle.dg_play.specs.States.{IsPlayed};

use crate::reply::{Reply, refusal_reply};
use crate::session::Session;
use crate::state::{State, bind_made};
use dg_base::{Refusal, Step, Str};
use dg_bind::{BoundSteps, bind_steps};
use dg_script::StepWords;
use std::alloc::{AllocError, Global};

/// Does the steps, all or none, and answers what is printed. The names that they intern stay interned.
pub(crate) fn transaction<P: Session>(
    alloc: Global,
    state: &mut State<P>,
    words: &[StepWords],
) -> Result<Reply<P::Answer>, AllocError>
    requires { IsPlayed P.is_ready P.shows state.old }
    ensures turn { IfOk result (λ r. transaction defold_tables (state_by P.shows state.old) words.now ≡ record { state = state_by P.shows state.new; reply = reply_by P.asked r }) }
    ensures played { OnOk result (IsPlayed P.is_ready P.shows state.new) }
    ensures work { OnOk result (MovesOn P.shows P.has_done state.old.session state.new.session) }
    ensures made { OnOk result (P.made state.new.session ≡ P.made state.old.session) }
{
    match bind_steps(alloc, &state.bound, &mut state.names, words) {
        Ok(bound) => {
            let BoundSteps { steps, new_names } = bound;
            edit(state, steps.as_slice(), new_names.as_slice())
        }
        Err(Refusal::Because(missed)) => Ok(Reply::Misses {
            step: missed.step,
            missing: missed.missing,
        }),
        Err(Refusal::NoMemory) => Err(AllocError),
    }
}

// Does the steps, and binds the names of the nodes that they make.
fn edit<P: Session>(
    state: &mut State<P>,
    steps: &[Step],
    new_names: &[Str],
) -> Result<Reply<P::Answer>, AllocError>
    requires { IsPlayed P.is_ready P.shows state.old }
    ensures turn { IfOk result (λ r. edits defold_tables (state_by P.shows state.old) new_names.now steps.now ≡ record { state = state_by P.shows state.new; reply = reply_by P.asked r }) }
    ensures played { OnOk result (IsPlayed P.is_ready P.shows state.new) }
    ensures work { OnOk result (MovesOn P.shows P.has_done state.old.session state.new.session) }
    ensures made { OnOk result (P.made state.new.session ≡ P.made state.old.session) }
{
    match state.session.edit(steps)? {
        Ok(made) => {
            bind_made(&mut state.bound, new_names, made.as_slice())?;
            Ok(Reply::Done)
        }
        Err(cause) => Ok(refusal_reply(cause)),
    }
}
