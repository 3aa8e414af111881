//! Why a call isn't done.
ghost use Rattle.std.specs.Prelude.{◌≡◌};

use std::alloc::{AllocError, AllocFailed};

/// Why a call isn't done: for a cause of its own, or for want of memory. `specs/Refusal` says how a
/// contract speaks of it.
#[derive(Clone, Copy, PartialEq, Eq, Debug)]
pub enum Refusal<C> {
    Because(C),
    NoMemory,
}

impl<C> From<AllocError> for Refusal<C> {
    ghost use Rattle.dg_base.specs.declared.refusal.Refusal.TheVariants.{NoMemory};

    ghost from_gives = { λ _ refusal. refusal ≡ NoMemory };

    fn from(_: AllocError) -> Refusal<C> {
        Refusal::NoMemory
    }
}

impl<C, T: Drop> From<AllocFailed<T>> for Refusal<C> {
    ghost use Rattle.dg_base.specs.declared.refusal.Refusal.TheVariants.{NoMemory};

    ghost from_gives = { λ _ refusal. refusal ≡ NoMemory };

    fn from(_: AllocFailed<T>) -> Refusal<C> {
        Refusal::NoMemory
    }
}
