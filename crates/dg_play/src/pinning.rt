//! Pins of a script.
ghost use Rattle.std.specs.Prelude.{◌≡◌, None, IfOk, OnOk};
ghost use Rattle.dg_play.specs.Pins.{max_pins, pin_named};
ghost use Rattle.dg_play.specs.Play.{dropped, pinned, with_pin};
ghost use Rattle.dg_play.specs.Seen.{number_named, reply_by, state_by};
ghost use Rattle.dg_play.specs.Sessions.{MovesOn};
ghost use Rattle.dg_play.specs.States.{IsPlayed};

use crate::pins::{Pin, number_named, remove_pin};
use crate::reply::Reply;
use crate::session::Session;
use crate::state::State;
use dg_base::Str;
use std::alloc::{AllocError, Global};

/// At most so many pins are live at a time.
const MAX_PINS: usize = 1_024;

/// Gives the current revision a name.
pub(crate) fn pin<P: Session>(
    alloc: Global,
    state: &mut State<P>,
    name: &str,
) -> Result<Reply<P::Answer>, AllocError>
    requires { IsPlayed P.is_ready P.shows state.old }
    ensures turn { IfOk result (λ r. pinned (state_by P.shows state.old) name.now (pin_named (state_by P.shows state.old).pins name.now) ≡ record { state = state_by P.shows state.new; reply = reply_by P.asked r }) }
    ensures played { OnOk result (IsPlayed P.is_ready P.shows state.new) }
    ensures work { OnOk result (MovesOn P.shows P.has_done state.old.session state.new.session) }
    ensures made { OnOk result (P.made state.new.session ≡ P.made state.old.session) }
{
    if number_named(state.pins.as_slice(), name).is_some() {
        return Ok(Reply::PinUsed);
    }
    if state.pins.len() >= MAX_PINS {
        return Ok(Reply::PinsFull);
    }
    add_pin(alloc, state, name)
}

// Gives the current revision a name that no pin has.
fn add_pin<P: Session>(
    alloc: Global,
    state: &mut State<P>,
    name: &str,
) -> Result<Reply<P::Answer>, AllocError>
    requires free { number_named state.old.pins.items name.now ≡ None }
    requires played { IsPlayed P.is_ready P.shows state.old }
    ensures turn { IfOk result (λ r. with_pin (state_by P.shows state.old) name.now ≡ record { state = state_by P.shows state.new; reply = reply_by P.asked r }) }
    ensures played { OnOk result (IsPlayed P.is_ready P.shows state.new) }
    ensures work { OnOk result (MovesOn P.shows P.has_done state.old.session state.new.session) }
    ensures made { OnOk result (P.made state.new.session ≡ P.made state.old.session) }
{
    let name = Str::of(String::from_str(alloc, name)?);
    let revision = state.session.now().number();
    let number = state.session.pin()?;
    state.pins.push(Pin { name, number })?;
    Ok(Reply::PinnedAt { number: revision })
}

/// Takes the name away from its revision.
pub(crate) fn drop_name<P: Session>(state: &mut State<P>, name: &str) -> Reply<P::Answer>
    requires { IsPlayed P.is_ready P.shows state.old }
    ensures turn { dropped (state_by P.shows state.old) name.now (pin_named (state_by P.shows state.old).pins name.now) ≡ record { state = state_by P.shows state.new; reply = reply_by P.asked result } }
    ensures played { IsPlayed P.is_ready P.shows state.new }
    ensures work { MovesOn P.shows P.has_done state.old.session state.new.session }
    ensures made { P.made state.new.session ≡ P.made state.old.session }
{
    let Some(number) = number_named(state.pins.as_slice(), name) else {
        return Reply::NoPin;
    };
    state.session.drop_pin(number);
    remove_pin(&mut state.pins, name);
    Reply::Done
}
