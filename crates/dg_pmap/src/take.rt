//! A pair taken out where the tree keeps its shape, as a pair is put.
ghost use Rattle.std.specs.Prelude.{◌≡◌, ◌<◌, ◌≤◌, false, length, Some};
ghost use Rattle.std.specs.Arc.{arc_value};
ghost use Rattle.std.specs.List.Sorted.{IsStrictlySortedBy};
ghost use Rattle.std.specs.Map.{keys_of, remove_entry};
ghost use Rattle.std.specs.BTreeMap.{is_at};
ghost use Rattle.dg_pmap.specs.Firsts.{first_key_of};
ghost use Rattle.dg_pmap.specs.Edits.{Takes};
ghost use Rattle.dg_pmap.specs.Heights.{fewest};

use crate::entries;
use crate::grow::SPARSE;
use crate::order::is_below;
use crate::share::Share;
use crate::tree::{Body, Tree};
use std::alloc::AllocError;
use std::sync::Arc;

impl<K: Ord + Copy, V: Share> Tree<K, V> {
    // Takes the key's pair out, unless that would leave too little of a chunk or of a pair of chunks.
    // Beside that comes how many pairs the tree has now, and its first key where that may be another.
    #[cycle(take)]
    pub(crate) fn take(&mut self, key: &K) -> Result<Option<(usize, Option<K>)>, AllocError>
        requires { IsStrictlySortedBy K.cmp (keys_of self.old.0) }
        ensures takes { Takes K.cmp self.old.0 key.now result self.new.0 }
        ensures height { self.new.1 ≡ self.old.1 }
        ensures filled { fewest self.new.1 ≤ length self.new.0 }
    {
        if is_sparse(self.height, self.size) {
            return Ok(None);
        }
        match &mut self.body {
            Body::Leaf(entries) => {
                let (len, first) = take_from(entries, key);
                self.size = len;
                Ok(Some((len, Some(first))))
            }
            Body::Fork(low, split, high) => {
                if is_below(key, split) {
                    let rest = self.size - low.len();
                    let Some((len, first)) = take_below(low, key)? else {
                        return Ok(None);
                    };
                    let size = rest + len;
                    self.size = size;
                    Ok(Some((size, first)))
                } else {
                    let rest = self.size - high.len();
                    let Some((len, first)) = take_below(high, key)? else {
                        return Ok(None);
                    };
                    *split = first.unwrap_or(*split);
                    let size = rest + len;
                    self.size = size;
                    Ok(Some((size, None)))
                }
            }
        }
    }
}

#[cycle(take)]
fn take_below<K: Ord + Copy, V: Share>(
    tree: &mut Arc<Tree<K, V>>,
    key: &K,
) -> Result<Option<(usize, Option<K>)>, AllocError>
    requires { IsStrictlySortedBy K.cmp (keys_of (arc_value tree.old).0) }
    ensures takes { Takes K.cmp (arc_value tree.old).0 key.now result (arc_value tree.new).0 }
    ensures height { (arc_value tree.new).1 ≡ (arc_value tree.old).1 }
    ensures filled { fewest (arc_value tree.old).1 ≤ length (arc_value tree.old).0 → fewest (arc_value tree.new).1 ≤ length (arc_value tree.new).0 }
{
    let tree = Arc::make_mut(tree)?;
    tree.take(key)
}

// Takes the key's pair out of a chunk that keeps another one. Beside that comes how many pairs there are, and the first key.
fn take_from<K: Ord + Copy, V: Drop>(entries: &mut Vec<(K, V)>, key: &K) -> (usize, K)
    requires sorted { IsStrictlySortedBy K.cmp (keys_of entries.old.items) }
    requires many { 1 < length entries.old.items }
    ensures pairs { entries.new.items ≡ remove_entry (is_at (K.cmp key.now)) entries.old.items }
    ensures len { result.0 ≡ length entries.new.items }
    ensures some { 0 < length entries.new.items }
    ensures most { length entries.new.items ≤ length entries.old.items }
    ensures first { first_key_of entries.new.items ≡ Some result.1 }
{
    entries::take_out(entries, key);
    let first = entries[0].0;
    (entries.len(), first)
}

// Whether a chunk, or a fork of two chunks, has too little to give a pair in place.
fn is_sparse(height: usize, size: usize) -> bool
    ensures { result ≡ false → height ≡ 0 → 1 < size }
{
    if height == 0 {
        size <= 1
    } else {
        height == 1 && size <= SPARSE
    }
}
