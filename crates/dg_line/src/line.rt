//! Lines of revisions.
ghost use Rattle.std.specs.Prelude.{◌≡◌, Bool, true, IfOk};

use crate::{Mark, Ticket};
use std::alloc::{AllocError, Global};

/// A growing list of revisions that gives a ticket for each. What is in it stays as it is, so two tickets
/// of one line with one index hold the same revision.
pub trait Line<T: Drop> {
    ghost use Rattle.dg_line.specs.declared.ticket.Ticket.{Ticket};

    type Mark: Mark<Of = T>;

    ghost is_of: { Self → Ticket Self.Mark T → Type 0 };

    ghost knows_all: { Bool };

    /// Adds a revision. Where memory is refused, the line may hold one more that nobody has a ticket of.
    fn push(&mut self, alloc: Global, revision: T) -> Result<Ticket<Self::Mark>, AllocError>
        ensures stays { (t : Ticket Self.Mark T) → is_of self.old t → is_of self.new t }
        ensures of { IfOk result (λ t. is_of self.new t) }
        ensures held { IfOk result (λ t. t.revision ≡ revision) };

    /// That two tickets of one index hold the same, for proofs. It does nothing.
    fn agrees(&self, a: &Ticket<Self::Mark>, b: &Ticket<Self::Mark>)
        requires a_of { is_of self.now a.now }
        requires b_of { is_of self.now b.now }
        requires index { a.now.index ≡ b.now.index }
        ensures { a.now.revision ≡ b.now.revision };

    /// That a ticket is of this line, where each ticket with its mark is, for proofs. It does nothing.
    fn known(&self, ticket: &Ticket<Self::Mark>)
        ensures { knows_all ≡ true → is_of self.now ticket.now };
}
