//! A pair put where the tree keeps its shape: in place where nothing else holds a node, on a copy of it where a share does.
// What a refusal or a full chunk leaves has the same pairs.
ghost use Rattle.std.specs.Prelude.{◌≡◌, ◌+◌, ◌^◌, ◌<◌, ◌≤◌, length};
ghost use Rattle.std.specs.Arc.{arc_value};
ghost use Rattle.std.specs.List.Sorted.{IsStrictlySortedBy};
ghost use Rattle.std.specs.Map.{keys_of};
ghost use Rattle.dg_pmap.specs.Edits.{Puts};
ghost use Rattle.dg_pmap.specs.Heights.{fewest};

use crate::entries;
use crate::order::is_below;
use crate::share::Share;
use crate::tree::{Body, Tree};
use std::alloc::AllocError;
use std::sync::Arc;

impl<K: Ord + Copy, V: Share> Tree<K, V> {
    // Puts the pair, unless the chunk where it belongs is full: then the value comes back. Beside that
    // comes how many pairs the tree has now.
    #[cycle(put)]
    pub(crate) fn put(&mut self, key: K, value: V) -> Result<(usize, Result<bool, V>), AllocError>
        requires sorted { IsStrictlySortedBy K.cmp (keys_of self.old.0) }
        requires room { length self.old.0 + 1 < 2 ^ 64 }
        ensures puts { Puts K.cmp self.old.0 key value result self.new.0 }
        ensures height { self.new.1 ≡ self.old.1 }
        ensures filled { fewest self.new.1 ≤ length self.new.0 }
    {
        match &mut self.body {
            Body::Leaf(entries) => {
                let done = entries::put(entries, key, value)?;
                let len = entries.len();
                self.size = len;
                Ok((len, done))
            }
            Body::Fork(low, split, high) => {
                if is_below(&key, split) {
                    let rest = self.size - low.len();
                    let (len, done) = put_below(low, key, value)?;
                    let size = rest + len;
                    self.size = size;
                    Ok((size, done))
                } else {
                    let rest = self.size - high.len();
                    let (len, done) = put_below(high, key, value)?;
                    let size = rest + len;
                    self.size = size;
                    Ok((size, done))
                }
            }
        }
    }
}

#[cycle(put)]
fn put_below<K: Ord + Copy, V: Share>(
    tree: &mut Arc<Tree<K, V>>,
    key: K,
    value: V,
) -> Result<(usize, Result<bool, V>), AllocError>
    requires sorted { IsStrictlySortedBy K.cmp (keys_of (arc_value tree.old).0) }
    requires room { length (arc_value tree.old).0 + 1 < 2 ^ 64 }
    ensures puts { Puts K.cmp (arc_value tree.old).0 key value result (arc_value tree.new).0 }
    ensures height { (arc_value tree.new).1 ≡ (arc_value tree.old).1 }
    ensures filled { fewest (arc_value tree.old).1 ≤ length (arc_value tree.old).0 → fewest (arc_value tree.new).1 ≤ length (arc_value tree.new).0 }
{
    let tree = Arc::make_mut(tree)?;
    tree.put(key, value)
}
