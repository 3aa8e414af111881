//! What follows from some endpoints, found along the pairs: each endpoint that is met is gone on from once.
ghost use Rattle.std.specs.Prelude.{◌≡◌, map, drop, IfOk, OnOk, IsTrue};
ghost use Rattle.std.specs.List.{list_all, take_while};
ghost use Rattle.indexmap.specs.IndexSet.{insert_all};
ghost use Rattle.dg_base.specs.Order.{ordered};
ghost use Rattle.dg_base.specs.Same.{same_end};
ghost use Rattle.dg_succ.specs.Closure.{IsLeastClosure};
ghost use Rattle.dg_succ.specs.Walked.{IsLeastFound, begins_at, end_of, ends_of, ends_after};

use crate::Succ;
use dg_base::{Endpoint, Label, NodeId};
use dg_pmap::PMap;
use indexmap::IndexSet;
use std::alloc::AllocError;

// No endpoint is before this one.
const FIRST: Endpoint = Endpoint {
    node: NodeId(0),
    label: Label(0),
};

impl Succ {
    /// The least list that holds these endpoints and, with each endpoint where a pair begins, the one where
    /// the pair ends: in endpoint order, each once. Each endpoint that is met is searched once among the
    /// pairs, in logarithmic time, and each pair that begins there is read once; the endpoints are then
    /// sorted.
    pub fn closure(&self, from: &[Endpoint]) -> Result<Vec<Endpoint>, AllocError>
        ensures { IfOk result (λ v. IsLeastClosure self.now from.now v.items) }
    {
        let found = self.found(from)?;
        let ends = found.as_slice().to_vec(self.alloc)?;
        Ok(in_order(ends))
    }

    // The same endpoints as they are met: this is both the list of those that are still to be gone on
    // from and the set of those that were met.
    fn found(&self, from: &[Endpoint]) -> Result<IndexSet<Endpoint>, AllocError>
        ensures { IfOk result (λ found. IsLeastFound self.now from.now found.keys) }
    {
        let mut found = IndexSet::new(self.alloc);
        add_all(&mut found, from)?;
        let mut place = 0;
        while place < found.len() {
            let Some(here) = found.get_index(place) else {
                return Ok(found);
            };
            let here = *here;
            self.add_ends(&mut found, here)?;
            place += 1;
        }
        Ok(found)
    }

    // Adds the endpoints where pairs that begin here end.
    fn add_ends(&self, found: &mut IndexSet<Endpoint>, here: Endpoint) -> Result<(), AllocError>
        ensures { OnOk result (found.new.keys ≡ insert_all same_end found.old.keys (ends_of self.now here)) }
    {
        let start = self.pairs.position(&(here, FIRST));
        add_run(&self.pairs, found, start, here)?;
        Ok(())
    }
}

fn add_all(found: &mut IndexSet<Endpoint>, ends: &[Endpoint]) -> Result<(), AllocError>
    ensures { OnOk result (found.new.keys ≡ insert_all same_end found.old.keys ends.now) }
{
    for end in ends {
        found.insert(*end)?;
    }
    Ok(())
}

// Adds where the pairs end from a place on, up to the first that doesn't begin here.
fn add_run(
    pairs: &PMap<(Endpoint, Endpoint), ()>,
    found: &mut IndexSet<Endpoint>,
    start: usize,
    here: Endpoint,
) -> Result<(), AllocError>
    ensures { OnOk result (found.new.keys ≡ insert_all same_end found.old.keys (ends_after here (drop start pairs.now))) }
{
    let mut place = start;
    while place < pairs.len() {
        let run = pairs.run_at(place);
        if !add_chunk(found, run, here)? {
            return Ok(());
        }
        place += run.len();
    }
    Ok(())
}

// The same in one chunk. Says whether all of its pairs begin here.
fn add_chunk(
    found: &mut IndexSet<Endpoint>,
    run: &[((Endpoint, Endpoint), ())],
    here: Endpoint,
) -> Result<bool, AllocError>
    ensures ok { OnOk result (found.new.keys ≡ insert_all same_end found.old.keys (ends_after here run.now)) }
    ensures more { IfOk result (λ more. more ≡ list_all (begins_at here) run.now) }
{
    for pair in run {
        let (from, to) = pair.0;
        if here != from {
            return Ok(false);
        }
        found.insert(to)?;
    }
    Ok(true)
}

// Endpoints in their order, each once.
fn in_order(mut ends: Vec<Endpoint>) -> Vec<Endpoint>
    ensures { result.items ≡ ordered ends.items }
{
    ends.sort_unstable();
    ends.dedup();
    ends
}
