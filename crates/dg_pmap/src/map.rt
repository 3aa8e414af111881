//! The map: the pairs of its tree.
ghost use Rattle.std.specs.Prelude.{◌≡◌, ◌+◌, ◌/◌, ◌^◌, ◌<◌, ◌≤◌, ◌↔◌, [], List, length, max, take, drop, slice_get, option_map, IsTrue, IfOk, OnOk, OnErr, is_some};
ghost use Rattle.std.specs.Option.{option_copied};
ghost use Rattle.std.specs.Map.{lookup, remove_entry};
ghost use Rattle.std.specs.BTreeMap.{is_at, insert_entry};
ghost use Rattle.dg_pmap.specs.Heights.{fewest};
ghost use Rattle.dg_pmap.specs.Places.{count_below, first_at_least};

use crate::root;
use crate::share::Share;
use crate::tree::Tree;
use std::alloc::{AllocError, Global};
use std::marker::Model;
use std::sync::Arc;

/// A map in key order whose old states stay: a share of it is had in constant time, and no change of
/// the one shows in the other.
#[derive(Drop)]
pub struct PMap<K: Ord, V> {
    alloc: Global,
    root: Option<Arc<Tree<K, V>>>,
}

impl<K: Ord, V> Model for PMap<K, V> {
    ghost use Rattle.std.specs.Prelude.{List};
    ghost use Rattle.std.specs.List.Sorted.{IsStrictlySortedBy};
    ghost use Rattle.std.specs.Map.{keys_of};
    ghost use Rattle.dg_pmap.specs.Shape.{pairs_of};

    ghost Value = { List (K × V) };

    ghost view = { λ m. pairs_of m.root };

    ghost invariant = { λ m. IsStrictlySortedBy K.cmp (keys_of (pairs_of m.root)) };
}

impl<K: Ord, V> PMap<K, V> {
    /// No pairs. Takes no memory.
    pub fn new(alloc: Global) -> PMap<K, V>
        ensures { result ≡ [] }
    {
        PMap { alloc, root: None }
    }

    /// How many pairs there are, in constant time.
    pub fn len(&self) -> usize
        ensures { result ≡ length self.now }
    {
        match &self.root {
            None => 0,
            Some(root) => root.len(),
        }
    }

    /// Whether there is no pair, in constant time.
    pub fn is_empty(&self) -> bool
        ensures { IsTrue result ↔ (self.now ≡ []) }
    {
        self.len() == 0
    }

    /// How many forks lie on the longest way to a pair, in constant time. A way is as long as twice
    /// the logarithm of the number of pairs to the base two, at most.
    pub fn height(&self) -> usize
        ensures balanced { fewest result ≤ max 1 (length self.now) }
        ensures logarithmic { 2 ^ (result / 2) ≤ max 1 (length self.now) }
    {
        match &self.root {
            None => 0,
            Some(root) => root.height(),
        }
    }

    /// The value at the key. Logarithmic.
    pub fn get(&self, key: &K) -> Option<&V>
        ensures { option_copied result ≡ lookup (is_at (K.cmp key.now)) self.now }
    {
        match &self.root {
            None => None,
            Some(root) => root.get(key),
        }
    }

    /// Whether the key is there. Logarithmic.
    pub fn contains_key(&self, key: &K) -> bool
        ensures { result ≡ is_some (lookup (is_at (K.cmp key.now)) self.now) }
    {
        self.get(key).is_some()
    }

    /// How many keys stand below the key: the place of the first pair whose key isn't smaller. Logarithmic.
    pub fn position(&self, key: &K) -> usize
        ensures value { result ≡ count_below K.cmp key.now self.now }
        ensures bound { result ≤ length self.now }
    {
        match &self.root {
            None => 0,
            Some(root) => root.position(key),
        }
    }

    /// The pairs from a place in key order on, as many as lie side by side: a walk over all pairs asks
    /// for the run at its place, goes over it, and asks for the next. Logarithmic, and takes no memory.
    pub fn run_at(&self, index: usize) -> &[(K, V)]
        ensures run { result.now ≡ take (length result.now) (drop index self.now) }
        ensures some { index < length self.now → 0 < length result.now }
    {
        match &self.root {
            None => &[],
            Some(root) => {
                if index < root.len() {
                    root.run_at(index)
                } else {
                    &[]
                }
            }
        }
    }

    /// As [`PMap::run_at`], from the first pair whose key isn't smaller than the key.
    pub fn run_from(&self, key: &K) -> &[(K, V)]
        ensures run { result.now ≡ take (length result.now) (drop (count_below K.cmp key.now self.now) self.now) }
        ensures some { count_below K.cmp key.now self.now < length self.now → 0 < length result.now }
    {
        self.run_at(self.position(key))
    }

    /// The pair at a place in key order. Logarithmic.
    pub fn at(&self, index: usize) -> Option<(&K, &V)>
        ensures { option_map (λ p. (p.0.now, p.1.now)) result ≡ slice_get self.now index }
    {
        match self.run_at(index) {
            [] => None,
            [pair, ..] => Some((&pair.0, &pair.1)),
        }
    }

    /// The first pair whose key isn't smaller than the key. Logarithmic.
    pub fn first_from(&self, key: &K) -> Option<(&K, &V)>
        ensures { option_map (λ p. (p.0.now, p.1.now)) result ≡ first_at_least K.cmp key.now self.now }
    {
        self.at(self.position(key))
    }

    /// An equal map that shares all of this one's nodes, in constant time. No change of the one shows
    /// in the other.
    pub fn share(&self) -> Result<PMap<K, V>, AllocError>
        ensures { IfOk result (λ again. again ≡ self.now) }
    {
        let root = match &self.root {
            None => None,
            Some(root) => Some(Arc::try_clone(root)?),
        };
        Ok(PMap {
            alloc: self.alloc,
            root,
        })
    }
}

impl<K: Ord + Copy, V: Share> PMap<K, V> {
    /// Puts the value at the key, and says whether the key was there.
    ///
    /// Touches a way of logarithmic length. A node that no share holds is changed in place, a shared
    /// one is copied first. Where there is no memory the map is as before.
    pub fn insert(&mut self, key: K, value: V) -> Result<bool, AllocError>
        ensures ok { OnOk result (self.new ≡ insert_entry K.cmp self.old key value) }
        ensures there { IfOk result (λ there. there ≡ is_some (lookup (is_at (K.cmp key)) self.old)) }
        ensures err { OnErr result (self.new ≡ self.old) }
    {
        let alloc = self.alloc;
        match &mut self.root {
            None => {
                self.root = Some(root::first(alloc, key, value)?);
                Ok(false)
            }
            Some(root) => root::insert(root, alloc, key, value),
        }
    }

    /// Takes the key's pair out, and says whether the key was there.
    ///
    /// Touches a way of logarithmic length, in place where no share holds it, and nothing where the key
    /// isn't there. Where there is no memory the map is as before.
    pub fn remove(&mut self, key: &K) -> Result<bool, AllocError>
        ensures ok { OnOk result (self.new ≡ remove_entry (is_at (K.cmp key.now)) self.old) }
        ensures there { IfOk result (λ there. there ≡ is_some (lookup (is_at (K.cmp key.now)) self.old)) }
        ensures err { OnErr result (self.new ≡ self.old) }
    {
        if !self.contains_key(key) {
            return Ok(false);
        }
        root::remove(&mut self.root, self.alloc, key)?;
        Ok(true)
    }
}

impl<K: Ord, V> Share for PMap<K, V>
where
    K: Drop,
    V: Drop,
{
    fn share(&self) -> Result<PMap<K, V>, AllocError> {
        PMap::share(self)
    }
}
