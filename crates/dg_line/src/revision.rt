//! A revision of a project graph.
ghost use Rattle.std.specs.Prelude.{◌≡◌, ◌+◌, ◌<◌, false, IfOk, IsTrue};
ghost use Rattle.dg_base.specs.declared.limits.TheConstants.{REVISIONS};
ghost use Rattle.dg_base.specs.Order.{ends_rise};
ghost use Rattle.dg_line.specs.Revisions.{after, first_revision, IsRevision};

use crate::Counters;
use dg_base::{Endpoint, REVISIONS, Schema};
use dg_view::Graph;
use std::alloc::{AllocError, Global};
use std::marker::Model;

/// A project graph as it was after a number of changes, with the next id and how often each endpoint
/// was dirty. It never changes.
#[derive(Drop)]
pub struct Revision<S: Schema> {
    number: u32,
    next: u32,
    graph: Graph<S>,
    counters: Counters,
}

impl<S: Schema> Model for Revision<S> {
    ghost use Rattle.dg_line.specs.Revisions.{Seen, seen_code, IsRevision};

    ghost Value = { Seen };

    ghost coded = { seen_code };

    ghost view = { λ r. record { number = r.number; next = r.next; graph = r.graph; counters = r.counters } };

    ghost invariant = { λ r. IsRevision (record { number = r.number; next = r.next; graph = r.graph; counters = r.counters }) };
}

impl<S: Schema> Revision<S> {
    /// The first revision of a run. Its number is 0.
    pub fn first(alloc: Global, graph: Graph<S>, next: u32) -> Result<Revision<S>, AllocError>
        ensures { IfOk result (λ r. r ≡ first_revision graph next) }
    {
        let counters = Counters::new(alloc)?;
        Ok(Revision {
            number: 0,
            next,
            graph,
            counters,
        })
    }

    /// The revision after this one, where these endpoints are dirty. Linear in them and in the endpoints
    /// that were ever dirty.
    pub fn after(
        &self,
        alloc: Global,
        graph: Graph<S>,
        next: u32,
        dirty: &[Endpoint],
    ) -> Result<Revision<S>, AllocError>
        requires room { self.now.number + 1 < REVISIONS }
        requires in_order { IsTrue (ends_rise dirty.now) }
        ensures { IfOk result (λ r. r ≡ after self.now graph next dirty.now) }
    {
        let mut counters = self.counters.share()?;
        counters.raise(alloc, dirty)?;
        Ok(Revision {
            number: self.number + 1,
            next,
            graph,
            counters,
        })
    }

    /// That the number is below the limit and no counter is above the number, for proofs. It does
    /// nothing.
    pub fn is_revision(&self)
        ensures { IsRevision self.now }
    {
        let _ = &self.number;
    }

    /// How many changes there were before.
    pub fn number(&self) -> u32
        ensures { result ≡ self.now.number }
    {
        self.number
    }

    /// Whether no revision can follow.
    pub fn is_last(&self) -> bool
        ensures yes { IsTrue result → self.now.number + 1 ≡ REVISIONS }
        ensures no { result ≡ false → self.now.number + 1 < REVISIONS }
    {
        self.number as usize + 1 >= REVISIONS
    }

    /// The number that the next node gets.
    pub fn next(&self) -> u32
        ensures { result ≡ self.now.next }
    {
        self.next
    }

    pub fn graph(&self) -> &Graph<S>
        ensures { result.now ≡ self.now.graph }
    {
        &self.graph
    }

    pub fn counters(&self) -> &Counters
        ensures { result.now ≡ self.now.counters }
    {
        &self.counters
    }
}
