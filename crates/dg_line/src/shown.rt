//! What a shared line marks its tickets with.
ghost use Rattle.std.specs.Prelude.{◌≡◌};
ghost use Rattle.std.specs.Arc.{arc_value};
ghost use Rattle.boxcar.specs.Table.{Shows};

use crate::{LineName, Mark, Revision};
use boxcar::Pushed;
use dg_base::{Endpoint, Schema};
use std::alloc::Global;
use std::marker::{Model, PhantomData};
use std::sync::Arc;

/// A mark that shows which row of the named rows holds a revision. It doesn't hold the revision.
#[derive(Drop)]
pub struct Shown<T: Drop, J: LineName> {
    pushed: Pushed<Arc<T, Global>>,
    of: PhantomData<J>,
}

impl<T: Drop, J: LineName> Model for Shown<T, J> {
    ghost use Rattle.std.specs.Arc.{arc_value};
    ghost use Rattle.boxcar.specs.Table.{Shows, Where, where_coded};

    ghost Value = { Where T };

    ghost coded = { where_coded T.code };

    ghost view = { λ s. record { index = s.pushed.index; value = arc_value s.pushed.value; bucket = s.pushed.bucket; row = s.pushed.row; item = s.pushed.item } };

    ghost invariant = { λ s. Shows J.shelves s.pushed };
}

impl<T: Drop, J: LineName> Shown<T, J> {
    pub(crate) fn of(pushed: Pushed<Arc<T, Global>>) -> Shown<T, J>
        requires { Shows J.shelves pushed }
        ensures index { result.index ≡ pushed.index }
        ensures value { result.value ≡ arc_value pushed.value }
    {
        Shown {
            pushed,
            of: PhantomData,
        }
    }

    // What shows it.
    pub(crate) fn pushed(&self) -> &Pushed<Arc<T, Global>>
        ensures shows { Shows J.shelves result.now }
        ensures index { result.now.index ≡ self.now.index }
        ensures value { arc_value result.now.value ≡ self.now.value }
    {
        &self.pushed
    }
}

impl<S: Schema, J: LineName> Mark for Shown<Revision<S>, J> {
    ghost use Rattle.std.specs.Prelude.{◌≡◌};

    type Of = Revision<S>;

    ghost tables = { S.tables };

    ghost seen = { λ r. r };

    ghost fits = { λ m t n. (n ≡ m.index) × (m.value ≡ t) };

    fn again(&self) -> Shown<Revision<S>, J> {
        Shown {
            pushed: self.pushed.again(),
            of: PhantomData,
        }
    }

    fn counter(of: &Revision<S>, at: Endpoint) -> u32 {
        of.counters().get(at)
    }
}
