//! Pins in a world.
ghost use Rattle.std.specs.Prelude.{◌≡◌, is_some, true, IfOk};
ghost use Rattle.dg_world.specs.Steps.{IsDropped, IsPinned};
ghost use Rattle.dg_alone.specs.Works.{live_in};

use crate::outcome::{dropped_of, pinned_of};
use crate::types::AloneWorld;
use std::alloc::AllocError;

/// Pins the current revision.
pub(crate) fn pin(world: &mut AloneWorld) -> Result<u32, AllocError>
    ensures { IfOk result (IsPinned world.old world.new) }
{
    let outcome = world.pin();
    pinned_of(outcome)
}

/// Lets a live pin go.
pub(crate) fn drop_pin(world: &mut AloneWorld, pin: u32)
    requires { is_some (live_in world.old.pins pin) ≡ true }
    ensures { IsDropped world.old world.new pin }
{
    let outcome = world.drop_pin(pin);
    dropped_of(outcome);
}
