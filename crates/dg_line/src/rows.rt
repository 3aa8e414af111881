//! Where the revisions of a shared line stand.
ghost use Rattle.std.specs.Prelude.{◌≡◌, IfOk};
ghost use Rattle.boxcar.specs.Table.{Shelves, Shows};

use boxcar::Pushed;
use std::alloc::{AllocError, Global};
use std::marker::{Brand, Model};
use std::sync::{Arc, Wait};

/// Which rows they are. A function that opens a shared line is generic over it, and its caller passes [`Brand`]
/// and picks the rows that it hands in.
pub trait LineName {
    ghost shelves: { Shelves };
}

impl LineName for Brand {
    ghost use Rattle.std.specs.Prelude.{[]};

    ghost shelves = { record { tag = []; buckets = [] } };
}

/// A growing list to which several threads add. What is in it stays as and where it is. Contracts see which list it is.
#[derive(Drop)]
pub struct Rows<T: Drop> {
    rows: Arc<boxcar::Vec<Arc<T, Global>>, Global>,
}

impl<T: Drop> Model for Rows<T> {
    ghost use Rattle.std.specs.Arc.{arc_value};
    ghost use Rattle.boxcar.specs.Table.{Shelves, shelves_coded};

    ghost Value = { Shelves };

    ghost coded = { shelves_coded };

    ghost view = { λ r. arc_value r.rows };
}

impl<T: Drop> Rows<T> {
    /// A list of its own, without rows.
    pub fn new(alloc: Global) -> Result<Rows<T>, AllocError> {
        let rows = boxcar::Vec::new(alloc)?;
        Ok(Rows {
            rows: Arc::new(alloc, rows)?,
        })
    }

    /// The same list once more. In constant time.
    pub fn share(&self) -> Result<Rows<T>, AllocError>
        ensures { IfOk result (λ r. r ≡ self.now) }
    {
        let rows = Arc::try_clone(&self.rows)?;
        Ok(Rows { rows })
    }

    /// Adds a row, and gives what shows it.
    pub(crate) fn push<R: Wait>(
        &self,
        rt: &R,
        kept: Arc<T, Global>,
    ) -> Result<Pushed<Arc<T, Global>>, AllocError>
        ensures { IfOk result (λ p. Shows self.now p × (p.value ≡ kept)) }
    {
        match self.rows.push_shown(rt, kept) {
            Ok(pushed) => Ok(pushed),
            Err(_) => Err(AllocError),
        }
    }

    /// That an index has one value, for proofs. It does nothing.
    pub(crate) fn agrees(&self, a: &Pushed<Arc<T, Global>>, b: &Pushed<Arc<T, Global>>)
        requires a_of { Shows self.now a.now }
        requires b_of { Shows self.now b.now }
        requires index { a.now.index ≡ b.now.index }
        ensures { a.now.value ≡ b.now.value }
    {
        self.rows.agrees(a, b);
    }
}
