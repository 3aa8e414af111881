//! Tickets of revisions, and what lines mark them with.
ghost use Rattle.std.specs.Prelude.{◌≡◌, ℕ, IfOk};
ghost use Rattle.std.specs.Arc.{arc_value};
ghost use Rattle.dg_base.specs.Tables.{Tables};
ghost use Rattle.dg_line.specs.Revisions.{Seen, counter_at};

use dg_base::Endpoint;
use std::alloc::{AllocError, Global};
use std::marker::Model;
use std::sync::Arc;

/// What a line marks its tickets with, and what layers that are generic over it know of the revisions that
/// are held: the schema's tables, and how contracts see a revision.
pub trait Mark: Drop {
    type Of: Drop;

    ghost tables: { Tables };

    ghost seen: { Self.Of → Seen };

    ghost fits: { Self → Self.Of → ℕ → Type 0 };

    /// The same mark once more.
    fn again(&self) -> Self
        ensures { result ≡ self.now };

    /// How often an endpoint was dirty up to a revision.
    fn counter(of: &Self::Of, at: Endpoint) -> u32
        ensures { result ≡ counter_at (seen of.now) at };
}

/// A revision that is held, and where it stands in its line.
#[derive(Drop)]
pub struct Ticket<M: Mark> {
    revision: Arc<M::Of, Global>,
    index: usize,
    mark: M,
}

impl<M: Mark> Model for Ticket<M> {
    ghost use Rattle.std.specs.Arc.{arc_value};
    ghost use Rattle.dg_line.specs.Tickets.{Pin, pin_code};

    ghost Value = { Pin M.Of M };

    ghost coded = { pin_code M.Of.code M.code };

    ghost view = { λ t. record { revision = arc_value t.revision; index = t.index; mark = t.mark } };

    ghost invariant = { λ t. M.fits t.mark (arc_value t.revision) t.index };
}

impl<M: Mark> Ticket<M> {
    /// The ticket of a revision, for lines.
    pub fn of(revision: Arc<M::Of, Global>, index: usize, mark: M) -> Ticket<M>
        requires { M.fits mark (arc_value revision) index }
        ensures { result ≡ record { revision = arc_value revision; index = index; mark = mark } }
    {
        Ticket {
            revision,
            index,
            mark,
        }
    }

    /// The revision that is held.
    pub fn revision(&self) -> &M::Of
        ensures { result.now ≡ self.now.revision }
    {
        &self.revision
    }

    /// The revision, held on after the ticket is let go.
    pub fn into_revision(self) -> Arc<M::Of, Global>
        ensures { arc_value result ≡ self.revision }
    {
        self.revision
    }

    /// Where the revision stands in its line.
    pub fn index(&self) -> usize
        ensures { result ≡ self.now.index }
    {
        self.index
    }

    /// What the line marked the ticket with.
    pub fn mark(&self) -> &M
        ensures mark { result.now ≡ self.now.mark }
        ensures fits { M.fits self.now.mark self.now.revision self.now.index }
    {
        &self.mark
    }

    /// The same ticket once more. In constant time.
    pub fn share(&self) -> Result<Ticket<M>, AllocError>
        ensures { IfOk result (λ t. t ≡ self.now) }
    {
        let revision = Arc::try_clone(&self.revision)?;
        Ok(Ticket {
            revision,
            index: self.index,
            mark: self.mark.again(),
        })
    }
}
