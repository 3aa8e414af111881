//! A bounded cache.
ghost use Rattle.std.specs.Prelude.{◌≡◌, ◌≤◌, ◌<◌, ◌∷◌, [], IfOk, OnOk, OnErr, length, min, nat_lt};
ghost use Rattle.dg_base.specs.Order.{is_end_among};
ghost use Rattle.dg_cache.specs.declared.cache.EvictEnd.{EvictEnd};
ghost use Rattle.dg_cache.specs.declared.cache.EvictEnd.TheVariants as evict_end;
ghost use Rattle.dg_cache.specs.Entries.{ends_of, in_order, others, pairs_of, put_entry, to_front, without};
ghost use Rattle.dg_cache.specs.Caches.{IsCached, evicted, holding};
ghost use Rattle.dg_cache.specs.Layout.{dropped_for, last_end};

use crate::recent::Recency;
use crate::values::Values;
use crate::{Entry, Snapshot, recent, values};
use dg_base::{Endpoint, Held};
use dg_pmap::{Kept, PMap};
use std::alloc::{AllocError, Global};
use std::marker::Model;

/// Whether all that was asked for was evicted.
#[derive(Clone, Copy, PartialEq, Eq, Debug)]
pub enum EvictEnd {
    All,
    NoMemory,
}

/// How many entries an eviction dropped, and why it ended there.
#[derive(Clone, Copy, PartialEq, Eq, Debug)]
pub struct Evicted {
    pub gone: u32,
    pub end: EvictEnd,
}

/// A bounded cache of answers. Contracts see its capacity and its entries, most recent first.
///
/// The answers stand in a map by endpoint, which snapshots share, and the endpoints in the order of their
/// last use beside it. A change is made on a share of the map: it is taken in after the order has changed,
/// so where memory is refused to either, both are as before.
#[derive(Drop)]
pub struct Cache {
    alloc: Global,
    capacity: u32,
    pub(crate) recency: Recency,
    values: Values,
}

impl Model for Cache {
    ghost use Rattle.std.specs.Prelude.{◌≡◌};
    ghost use Rattle.dg_cache.specs.Entries.{entries_at};
    ghost use Rattle.dg_cache.specs.Caches.{Cached, cached_code};
    ghost use Rattle.dg_cache.specs.Layout.{IsLaidOut, ends_by_use, entries_from, most_of};

    ghost Value = { Cached };

    ghost coded = { cached_code };

    ghost view = { λ c. record { capacity = c.capacity; entries = entries_at (ends_by_use c.recency) (entries_from c.values) } };

    ghost invariant = { λ c. IsLaidOut c.capacity (ends_by_use c.recency) (entries_from c.values) × (most_of c.capacity c.recency ≡ c.capacity) };
}

impl Cache {
    /// Without entries, for at most so many. It takes no memory.
    pub fn new(alloc: Global, capacity: u32) -> Cache
        requires { 1 ≤ capacity }
        ensures { result ≡ record { capacity = capacity; entries = [] } }
    {
        Cache {
            alloc,
            capacity,
            recency: None,
            values: PMap::new(alloc),
        }
    }

    /// That each endpoint has one entry and there are at most as many as the capacity, for proofs. It does
    /// nothing.
    pub fn is_cached(&self)
        ensures { IsCached self.now }
    {
        let _ = &self.capacity;
    }

    pub fn capacity(&self) -> u32
        ensures { result ≡ self.now.capacity }
    {
        self.capacity
    }

    pub fn len(&self) -> usize
        ensures { result ≡ length self.now.entries }
    {
        recent::len(&self.recency)
    }

    /// All that the cache has, shared. In constant time.
    pub fn snapshot(&self) -> Result<Snapshot, AllocError>
        ensures { IfOk result (λ s. s ≡ in_order self.now.entries) }
    {
        let values = self.values.share()?;
        Ok(Snapshot::of(values))
    }

    /// The map of the answers: its pairs are the entries, in endpoint order. It takes no memory.
    pub fn values(&self) -> &PMap<Endpoint, Kept<Held>>
        ensures { result.now ≡ pairs_of (in_order self.now.entries) }
    {
        &self.values
    }

    // Whether an endpoint has an entry. In logarithmic time.
    fn has(&self, at: Endpoint) -> bool
        ensures { result ≡ is_end_among (ends_of self.now.entries) at }
    {
        values::get(&self.values, at).is_some()
    }

    /// Puts an endpoint's entry to the front, and answers whether there is one. It takes no memory. In the
    /// time of a look-up by hash.
    pub fn touch(&mut self, at: Endpoint) -> bool
        ensures there { result ≡ is_end_among (ends_of self.old.entries) at }
        ensures new { self.new ≡ holding self.old (to_front at self.old.entries) }
    {
        recent::touch(&mut self.recency, at)
    }

    /// Puts an entry to the front in place of the one of its endpoint. In a full cache the last entry goes
    /// where the endpoint is new. In logarithmic time: the way to the entry is copied, and the rest shared.
    /// Where memory is refused, nothing changed.
    pub fn put(&mut self, at: Endpoint, value: Held) -> Result<(), AllocError>
        ensures ok { OnOk result (self.new ≡ holding self.old (put_entry self.old.capacity (record { at = at; value = value }) self.old.entries)) }
        ensures err { OnErr result (self.new ≡ self.old) }
    {
        let last = self.dropped_for(at);
        let mut changed = self.values.share()?;
        values::put(&mut changed, self.alloc, Entry { at, value }, last)?;
        recent::put_front(&mut self.recency, self.alloc, self.capacity, at)?;
        self.values = changed;
        Ok(())
    }

    // The endpoint that goes where this one is put.
    fn dropped_for(&self, at: Endpoint) -> Option<Endpoint>
        ensures { result ≡ dropped_for self.now at }
    {
        if self.has(at) {
            return None;
        }
        if self.len() < self.capacity as usize {
            return None;
        }
        self.last()
    }

    fn last(&self) -> Option<Endpoint>
        ensures { result ≡ last_end self.now.entries }
    {
        recent::last(&self.recency)
    }

    /// Takes an endpoint's entry out, and answers whether there was one. In logarithmic time: the way to
    /// the entry is copied, and the rest shared. Where memory is refused, nothing changed.
    pub fn take_out(&mut self, at: Endpoint) -> Result<bool, AllocError>
        ensures there { IfOk result (λ b. b ≡ is_end_among (ends_of self.old.entries) at) }
        ensures ok { OnOk result (self.new ≡ holding self.old (others at self.old.entries)) }
        ensures err { OnErr result (self.new ≡ self.old) }
    {
        if !self.has(at) {
            return Ok(false);
        }
        let mut rest = self.values.share()?;
        values::take_out(&mut rest, at)?;
        recent::leave_out(&mut self.recency, at);
        self.values = rest;
        Ok(true)
    }

    /// Takes out the entries of some endpoints, in logarithmic time for each of these, however many entries
    /// there are. Where memory is refused, nothing changed.
    pub fn retain_outside(&mut self, dirty: &[Endpoint]) -> Result<(), AllocError>
        ensures ok { OnOk result (self.new ≡ holding self.old (without dirty.now self.old.entries)) }
        ensures err { OnErr result (self.new ≡ self.old) }
    {
        let mut clean = self.values.share()?;
        values::take_out_all(&mut clean, dirty)?;
        recent::leave_out_all(&mut self.recency, dirty);
        self.values = clean;
        Ok(())
    }

    /// Drops entries from the end, one by one, at most so many, in logarithmic time for each. Those that were
    /// dropped before memory was refused stay dropped.
    pub fn evict(&mut self, most: u32) -> Evicted
        ensures new { self.new ≡ holding self.old (evicted result.gone self.old.entries) }
        ensures all { result.end ≡ evict_end.All → result.gone ≡ min most (length self.old.entries) }
        ensures part { result.end ≡ evict_end.NoMemory → result.gone < min most (length self.old.entries) }
    {
        for gone in 0..most {
            match self.drop_last() {
                Ok(true) => {}
                Ok(false) => return all_gone(gone),
                Err(_) => {
                    return Evicted {
                        gone,
                        end: EvictEnd::NoMemory,
                    };
                }
            }
        }
        all_gone(most)
    }

    // Drops the last entry, and answers whether there was one.
    fn drop_last(&mut self) -> Result<bool, AllocError>
        ensures some { IfOk result (λ b. b ≡ nat_lt 0 (length self.old.entries)) }
        ensures ok { OnOk result (self.new ≡ holding self.old (evicted 1 self.old.entries)) }
        ensures err { OnErr result ((self.new ≡ self.old) × (0 < length self.old.entries)) }
    {
        self.is_cached();
        let Some(last) = self.last() else {
            return Ok(false);
        };
        self.take_out(last)?;
        Ok(true)
    }

    /// Drops all entries. It takes no memory.
    pub fn clear(&mut self)
        ensures { self.new ≡ holding self.old [] }
    {
        recent::clear(&mut self.recency);
        self.values = PMap::new(self.alloc);
    }
}

fn all_gone(gone: u32) -> Evicted
    ensures { result ≡ record { gone = gone; end = evict_end.All } }
{
    Evicted {
        gone,
        end: EvictEnd::All,
    }
}
