//! A line for threads.
ghost use Rattle.std.specs.Prelude.{◌≡◌, IfOk};
ghost use Rattle.dg_line.specs.Revisions.{Seen};
ghost use Rattle.dg_line.specs.Tickets.{Pin};

use crate::{Line, LineName, Mark, Revision, Rows, Shown, Ticket};
use dg_base::{Endpoint, Schema};
use std::alloc::{AllocError, Global};
use std::marker::PhantomData;
use std::sync::{Arc, Wait};

/// A line that threads share: its shares add to the same rows, and each ticket of this type is of it.
#[derive(Drop)]
pub struct SharedLine<T: Drop, J: LineName, R: Wait + Drop> {
    rt: R,
    rows: Rows<T>,
    of: PhantomData<J>,
    ghost named: { rows ≡ J.shelves },
}

impl<T: Drop, J: LineName, R: Wait + Drop> SharedLine<T, J, R> {
    /// The line of these rows. It takes no memory.
    pub fn open(rt: R, rows: Rows<T>) -> SharedLine<T, J, R>
        requires { rows ≡ J.shelves }
    {
        SharedLine {
            rt,
            rows,
            of: PhantomData,
        }
    }

    /// The same line once more, for another thread. In constant time.
    pub fn share(&self) -> Result<SharedLine<T, J, R>, AllocError>
    where
        R: Copy,
    {
        let rows = self.rows.share()?;
        Ok(SharedLine {
            rt: self.rt,
            rows,
            of: PhantomData,
        })
    }
}

impl<S: Schema, J: LineName, R: Wait + Drop> Line<Revision<S>> for SharedLine<Revision<S>, J, R> {
    ghost use Rattle.std.specs.Prelude.{true};

    type Mark = Shown<Revision<S>, J>;

    ghost is_of = { λ line t. Unit {0} };

    ghost knows_all = { true };

    fn push(
        &mut self,
        alloc: Global,
        revision: Revision<S>,
    ) -> Result<Ticket<Shown<Revision<S>, J>>, AllocError>
        ensures held { IfOk result (λ t. t.revision ≡ revision) }
    {
        let kept = Arc::new(alloc, revision)?;
        let held = Arc::try_clone(&kept)?;
        let pushed = self.rows.push(&self.rt, kept)?;
        let index = pushed.index();
        Ok(Ticket::of(held, index, Shown::of(pushed)))
    }

    fn agrees(&self, a: &Ticket<Shown<Revision<S>, J>>, b: &Ticket<Shown<Revision<S>, J>>) {
        self.rows.agrees(a.mark().pushed(), b.mark().pushed());
    }

    fn known(&self, ticket: &Ticket<Shown<Revision<S>, J>>) {}
}
