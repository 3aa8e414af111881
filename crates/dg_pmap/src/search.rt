//! What stands at a key and at a place.
ghost use Rattle.std.specs.Prelude.{◌≡◌, ◌≤◌, ◌<◌, length, take, drop};
ghost use Rattle.std.specs.Option.{option_copied};
ghost use Rattle.std.specs.List.Sorted.{IsStrictlySortedBy};
ghost use Rattle.std.specs.Map.{keys_of, lookup};
ghost use Rattle.std.specs.BTreeMap.{is_at};
ghost use Rattle.dg_pmap.specs.Places.{count_below};

use crate::entries;
use crate::order::is_below;
use crate::tree::{Body, Tree};

impl<K: Ord, V> Tree<K, V> {
    pub(crate) fn get(&self, key: &K) -> Option<&V>
        requires { IsStrictlySortedBy K.cmp (keys_of self.now.0) }
        ensures { option_copied result ≡ lookup (is_at (K.cmp key.now)) self.now.0 }
    {
        match &self.body {
            Body::Leaf(entries) => entries::value_of(entries, key),
            Body::Fork(low, split, high) => {
                if is_below(key, split) {
                    low.get(key)
                } else {
                    high.get(key)
                }
            }
        }
    }

    // How many keys stand below the key.
    pub(crate) fn position(&self, key: &K) -> usize
        requires { IsStrictlySortedBy K.cmp (keys_of self.now.0) }
        ensures value { result ≡ count_below K.cmp key.now self.now.0 }
        ensures bound { result ≤ length self.now.0 }
    {
        match &self.body {
            Body::Leaf(entries) => entries::place_of(entries, key),
            Body::Fork(low, split, high) => {
                if is_below(key, split) {
                    low.position(key)
                } else {
                    let high: &Tree<K, V> = high;
                    let lower = self.size - high.len();
                    lower + high.position(key)
                }
            }
        }
    }

    // The pairs from a place to the end of its chunk.
    pub(crate) fn run_at(&self, index: usize) -> &[(K, V)]
        requires { index < length self.now.0 }
        ensures run { result.now ≡ take (length result.now) (drop index self.now.0) }
        ensures some { 0 < length result.now }
    {
        match &self.body {
            Body::Leaf(entries) => &entries[index..],
            Body::Fork(low, _, high) => {
                let lower = low.len();
                if index < lower {
                    low.run_at(index)
                } else {
                    high.run_at(index - lower)
                }
            }
        }
    }
}
