//! What is asked for.
ghost use Rattle.std.specs.Prelude.{◌≡◌, IfOk};

use dg_base::Endpoint;
use dg_line::{Mark, Ticket};
use std::alloc::AllocError;

/// A revision, and an endpoint of which the value there is asked for.
#[derive(Drop)]
pub struct Asking<M: Mark> {
    pub ticket: Ticket<M>,
    pub at: Endpoint,
}

impl<M: Mark> Asking<M> {
    /// The same once more. In constant time.
    pub fn share(&self) -> Result<Asking<M>, AllocError>
        ensures { IfOk result (λ a. a ≡ self.now) }
    {
        Ok(Asking {
            ticket: self.ticket.share()?,
            at: self.at,
        })
    }
}
