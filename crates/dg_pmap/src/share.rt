//! Values of which a second, equal one can be had.
ghost use Rattle.std.specs.Prelude.{◌≡◌, IfOk};

use std::alloc::{AllocError, Global};
use std::marker::Model;
use std::sync::Arc;

/// A value of which a second, equal one can be had, as a map needs when a change copies a chunk
/// that a share still holds.
pub trait Share: Drop {
    /// An equal value.
    fn share(&self) -> Result<Self, AllocError>
        ensures { IfOk result (λ again. again ≡ self.now) };
}

impl<T: Copy> Share for T {
    fn share(&self) -> Result<T, AllocError> {
        Ok(*self)
    }
}

/// A value behind a counted pointer: sharing it copies the pointer alone.
#[derive(Drop)]
pub struct Kept<T> {
    inner: Arc<T, Global>,
}

impl<T> Model for Kept<T> {
    ghost use Rattle.std.specs.Arc.{arc_value};

    ghost Value = { T };

    ghost view = { λ k. arc_value k.inner };
}

impl<T: Drop> Kept<T> {
    pub fn new(alloc: Global, value: T) -> Result<Kept<T>, AllocError>
        ensures { IfOk result (λ kept. kept ≡ value) }
    {
        Ok(Kept {
            inner: Arc::new(alloc, value)?,
        })
    }

    pub fn value(&self) -> &T
        ensures { result.now ≡ self.now }
    {
        &self.inner
    }
}

impl<T: Drop> Share for Kept<T> {
    fn share(&self) -> Result<Kept<T>, AllocError> {
        Ok(Kept {
            inner: Arc::try_clone(&self.inner)?,
        })
    }
}
