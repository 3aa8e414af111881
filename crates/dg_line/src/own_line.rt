//! A line for one thread.
ghost use Rattle.std.specs.Prelude.{◌≡◌, ◌∷◌, ◌++◌, [], Some, IfOk, OnOk, OnErr, slice_get};
ghost use Rattle.dg_line.specs.Revisions.{Seen};
ghost use Rattle.dg_line.specs.Tickets.{Pin};

use crate::{Line, Mark, Revision, Ticket};
use dg_base::{Endpoint, Schema};
use std::alloc::{AllocError, Global};
use std::marker::{Model, PhantomData};
use std::sync::Arc;

/// A mark that says nothing.
#[derive(Drop)]
pub struct Unmarked<T: Drop> {
    of: PhantomData<T>,
}

impl<S: Schema> Mark for Unmarked<Revision<S>> {
    type Of = Revision<S>;

    ghost tables = { S.tables };

    ghost seen = { λ r. r };

    ghost fits = { λ m t n. Unit {0} };

    fn again(&self) -> Unmarked<Revision<S>> {
        Unmarked { of: PhantomData }
    }

    fn counter(of: &Revision<S>, at: Endpoint) -> u32 {
        of.counters().get(at)
    }
}

/// A line for one thread. It holds each of its revisions. Contracts see them in order.
#[derive(Drop)]
pub struct OwnLine<T: Drop> {
    list: Vec<Arc<T, Global>>,
}

impl<T: Drop> Model for OwnLine<T> {
    ghost use Rattle.std.specs.Prelude.{List, map};
    ghost use Rattle.std.specs.Arc.{arc_value};
    ghost use Rattle.std.specs.Coded.{coded_list};

    ghost Value = { List T };

    ghost coded = { coded_list T.code };

    ghost view = { λ l. map arc_value l.list.items };
}

impl<T: Drop> OwnLine<T> {
    /// A line without revisions.
    pub fn new(alloc: Global) -> OwnLine<T>
        ensures { result ≡ [] }
    {
        OwnLine {
            list: Vec::new(alloc),
        }
    }
}

impl<S: Schema> Line<Revision<S>> for OwnLine<Revision<S>> {
    ghost use Rattle.std.specs.Prelude.{◌≡◌, Some, false, slice_get};

    type Mark = Unmarked<Revision<S>>;

    ghost is_of = { λ line t. slice_get line t.index ≡ Some t.revision };

    ghost knows_all = { false };

    fn push(
        &mut self,
        alloc: Global,
        revision: Revision<S>,
    ) -> Result<Ticket<Unmarked<Revision<S>>>, AllocError>
        ensures stays { (t : Pin Seen (Unmarked Seen)) → slice_get self.old t.index ≡ Some t.revision → slice_get self.new t.index ≡ Some t.revision }
        ensures of { IfOk result (λ t. slice_get self.new t.index ≡ Some t.revision) }
        ensures held { IfOk result (λ t. t.revision ≡ revision) }
        ensures ok { OnOk result (self.new ≡ self.old ++ revision ∷ []) }
        ensures err { OnErr result (self.new ≡ self.old) }
    {
        let index = self.list.len();
        self.list.reserve(1)?;
        let kept = Arc::new(alloc, revision)?;
        let held = Arc::try_clone(&kept)?;
        self.list.push_reserved(kept);
        Ok(Ticket::of(held, index, Unmarked { of: PhantomData }))
    }

    fn agrees(&self, a: &Ticket<Unmarked<Revision<S>>>, b: &Ticket<Unmarked<Revision<S>>>) {}

    fn known(&self, ticket: &Ticket<Unmarked<Revision<S>>>) {}
}
