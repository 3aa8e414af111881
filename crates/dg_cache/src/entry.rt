//! An endpoint with its answer.
ghost use Rattle.std.specs.Prelude.{◌≡◌, IfOk};

use dg_base::{Endpoint, Held};
use std::alloc::AllocError;

/// An endpoint and the answer that it had. The answer is shared.
#[derive(Debug, Drop)]
pub struct Entry {
    pub at: Endpoint,
    pub value: Held,
}

impl Entry {
    /// The same entry once more, in constant time. It is refused where the count of owners is full.
    pub fn share(&self) -> Result<Entry, AllocError>
        ensures { IfOk result (λ x. x ≡ self.now) }
    {
        let value = self.value.share()?;
        Ok(Entry { at: self.at, value })
    }
}

impl Clone for Entry {
    ghost is_clone = { λ a b. b ≡ a };

    fn clone(&self) -> Result<Entry, AllocError> {
        self.share()
    }
}
