//! Bad places, in the order of finding and in that of their paths and lines.
ghost use Rattle.std.specs.Prelude.{◌≡◌, ◌++◌, ◌∷◌, [], OnOk, OnErr};
ghost use Rattle.dg_sources.specs.Sorting.{sorted, bad_before, bad_cmp};

use crate::bad::BadPlace;
use std::alloc::{AllocError, Global};
use std::cmp::Ordering;
use std::marker::Model;

/// Bad places. Contracts see the list.
#[derive(Debug, Drop)]
pub struct BadPlaces {
    places: Vec<BadPlace>,
}

impl Model for BadPlaces {
    ghost use Rattle.std.specs.Prelude.{List};
    ghost use Rattle.dg_sources.specs.declared.bad.BadPlace.{BadPlace};

    ghost Value = { List BadPlace };

    ghost view = { λ b. b.places.items };
}

impl BadPlaces {
    /// No place yet.
    pub fn new(alloc: Global) -> BadPlaces
        ensures { result ≡ [] }
    {
        BadPlaces {
            places: Vec::new(alloc),
        }
    }

    pub fn as_slice(&self) -> &[BadPlace]
        ensures { result.now ≡ self.now }
    {
        self.places.as_slice()
    }

    /// One more place, behind those that are there.
    pub fn push(&mut self, place: BadPlace) -> Result<(), AllocError>
        ensures ok { OnOk result (self.new ≡ self.old ++ place ∷ []) }
        ensures err { OnErr result (self.new ≡ self.old) }
    {
        self.places.push(place)?;
        Ok(())
    }

    /// Puts the places in the order of their paths and then of their lines; those at one line stay in their order.
    pub fn sort(&mut self) -> Result<(), AllocError>
        ensures { OnOk result (self.new ≡ sorted bad_before self.old) }
    {
        self.places.sort_by(|a, b| compare(a, b))?;
        Ok(())
    }
}

fn compare(a: &BadPlace, b: &BadPlace) -> Ordering
    ensures { result ≡ bad_cmp a.now b.now }
{
    a.path
        .as_str()
        .cmp(b.path.as_str())
        .then(a.line.cmp(&b.line))
}
