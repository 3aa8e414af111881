//! The set: the keys of a map in which nothing stands at a key.
ghost use Rattle.std.specs.Prelude.{◌≡◌, [], not, length, IfOk, OnOk, OnErr};
ghost use Rattle.dg_succ.specs.Pairs.{is_pair_among, with_pair, without_pair};

use dg_base::Endpoint;
use dg_pmap::PMap;
use std::alloc::{AllocError, Global};
use std::marker::Model;

/// A set of pairs (from, to) of endpoints whose old states stay: a share of it is had in constant time,
/// and no change of the one shows in the other. Contracts see the pairs in order.
#[derive(Drop)]
pub struct Succ {
    pub(crate) alloc: Global,
    pub(crate) pairs: PMap<(Endpoint, Endpoint), ()>,
}

impl Model for Succ {
    ghost use Rattle.std.specs.Prelude.{List};
    ghost use Rattle.std.specs.List.Sorted.{IsStrictlySortedBy};
    ghost use Rattle.std.specs.Map.{keys_of};
    ghost use Rattle.dg_base.specs.declared.ids.Endpoint.{Endpoint as End};

    ghost Value = { List (End × End) };

    ghost view = { λ s. keys_of s.pairs };

    ghost invariant = { λ s. IsStrictlySortedBy ⟦<(Endpoint, Endpoint) as Ord>⟧.cmp (keys_of s.pairs) };
}

impl Succ {
    /// No pairs. It takes no memory.
    pub fn new(alloc: Global) -> Succ
        ensures { result ≡ [] }
    {
        Succ {
            alloc,
            pairs: PMap::new(alloc),
        }
    }

    /// How many pairs there are, in constant time.
    pub fn len(&self) -> usize
        ensures { result ≡ length self.now }
    {
        self.pairs.len()
    }

    /// Whether there is the pair. In time logarithmic in the pairs.
    pub fn has(&self, from: Endpoint, to: Endpoint) -> bool
        ensures { result ≡ is_pair_among self.now (from, to) }
    {
        self.pairs.contains_key(&(from, to))
    }

    /// Adds the pair, and says whether it is new. In time logarithmic in the pairs: in place where no share
    /// holds what changes, on a copy where one does, and nothing is touched where the pair was there.
    /// Where there is no memory the set is as before.
    pub fn add(&mut self, from: Endpoint, to: Endpoint) -> Result<bool, AllocError>
        ensures ok { OnOk result (self.new ≡ with_pair (from, to) self.old) }
        ensures added { IfOk result (λ added. added ≡ not (is_pair_among self.old (from, to))) }
        ensures err { OnErr result (self.new ≡ self.old) }
    {
        if self.has(from, to) {
            return Ok(false);
        }
        self.pairs.insert((from, to), ())?;
        Ok(true)
    }

    /// Takes the pair away, and says whether it was there. In time logarithmic in the pairs: in place
    /// where no share holds what changes, on a copy where one does, and nothing is touched where the pair
    /// wasn't there. Where there is no memory the set is as before.
    pub fn take_away(&mut self, from: Endpoint, to: Endpoint) -> Result<bool, AllocError>
        ensures ok { OnOk result (self.new ≡ without_pair (from, to) self.old) }
        ensures there { IfOk result (λ there. there ≡ is_pair_among self.old (from, to)) }
        ensures err { OnErr result (self.new ≡ self.old) }
    {
        let there = self.pairs.remove(&(from, to))?;
        Ok(there)
    }

    /// An equal set that shares all that this one holds, in constant time. No change of the one shows in
    /// the other. It is refused where the count of shares is full.
    pub fn share(&self) -> Result<Succ, AllocError>
        ensures { IfOk result (λ again. again ≡ self.now) }
    {
        Ok(Succ {
            alloc: self.alloc,
            pairs: self.pairs.share()?,
        })
    }
}
