//! Endpoints with their counters, as they were published.
ghost use Rattle.std.specs.Prelude.{◌≡◌, ◌⊎◌, [], IsTrue, OnOk};
ghost use Rattle.std.specs.List.{Contains};
ghost use Rattle.dg_base.specs.declared.ids.Endpoint.{Endpoint};
ghost use Rattle.dg_closing.specs.declared.spots.Spot.{Spot};
ghost use Rattle.dg_closing.specs.Spots.{HasSpot, is_spot_among, spot_of};

use dg_base::Endpoint;
use dg_line::Mark;
use dg_offer::Offer;
use indexmap::IndexSet;
use std::alloc::{AllocError, Global};
use std::marker::Model;

/// An endpoint, and its counter in a revision.
#[derive(Clone, Copy, Debug, Hash, PartialEq, Eq)]
pub(crate) struct Spot {
    pub(crate) at: Endpoint,
    pub(crate) counter: u32,
}

/// Endpoints with counters, each once. One is found by its hash.
#[derive(Drop)]
pub(crate) struct Spots {
    found: IndexSet<Spot>,
}

impl Model for Spots {
    ghost use Rattle.std.specs.Prelude.{List};
    ghost use Rattle.dg_closing.specs.declared.spots.Spot.{Spot};

    ghost Value = { List Spot };

    ghost view = { λ s. s.found.keys };
}

impl Spots {
    pub(crate) fn new(alloc: Global) -> Spots
        ensures { result ≡ [] }
    {
        Spots {
            found: IndexSet::new(alloc),
        }
    }

    fn has(&self, spot: Spot) -> bool
        ensures { result ≡ is_spot_among self.now spot }
    {
        self.found.contains(&spot)
    }

    fn note(&mut self, spot: Spot) -> Result<(), AllocError>
        ensures { OnOk result ((s : Spot) → Contains self.new s → Contains self.old s ⊎ (s ≡ spot)) }
    {
        self.found.insert(spot)?;
        Ok(())
    }

    /// Whether all that an offer found known is there, with its counter at the offer's revision.
    pub(crate) fn have_hits<M: Mark>(&self, offer: &Offer<M>) -> bool
        ensures { IsTrue result → (e : Endpoint) → Contains offer.now.hits e → Contains self.now (spot_of (M.seen offer.now.ticket.revision) e) }
    {
        let revision = offer.ticket().revision();
        for hit in offer.hits() {
            let spot = Spot {
                at: *hit,
                counter: M::counter(revision, *hit),
            };
            if !self.has(spot) {
                return false;
            }
        }
        true
    }

    /// Adds the entries of an offer, with their counters at its revision.
    pub(crate) fn note_entries<M: Mark>(&mut self, offer: &Offer<M>) -> Result<(), AllocError>
        ensures { OnOk result ((s : Spot) → Contains self.new s → Contains self.old s ⊎ HasSpot (M.seen offer.now.ticket.revision) offer.now.entries s) }
    {
        let revision = offer.ticket().revision();
        for entry in offer.entries() {
            self.note(Spot {
                at: entry.at,
                counter: M::counter(revision, entry.at),
            })?;
        }
        Ok(())
    }
}
