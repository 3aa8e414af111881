//! A pair more or less where the tree's shape has to change: new nodes along one path, the old ones stay.
ghost use Rattle.std.specs.Prelude.{◌≡◌, ◌+◌, ◌≤◌, ◌<◌, ◌++◌, length, IfOk, OnOk};
ghost use Rattle.std.specs.Arc.{arc_value};
ghost use Rattle.std.specs.List.Sorted.{IsStrictlySortedBy};
ghost use Rattle.std.specs.Map.{keys_of, remove_entry};
ghost use Rattle.std.specs.BTreeMap.{is_at, insert_entry};
ghost use Rattle.dg_pmap.specs.Heights.{IsGrown, IsShrunk};
ghost use Rattle.dg_pmap.specs.Shape.{pairs_of};

use crate::entries;
use crate::entries::CHUNK;
use crate::join::joined;
use crate::order::is_below;
use crate::share::Share;
use crate::tree::{Body, Tree};
use std::alloc::{AllocError, Global};
use std::sync::Arc;

/// Two chunks with no more pairs than this become one.
pub(crate) const SPARSE: usize = 16;

impl<K: Ord + Copy, V: Share> Tree<K, V> {
    // The tree with the pair put. Where `last` says that no key of the map stands above this tree's,
    // a chunk that is full takes nothing more and the pair begins a new one: keys that come in
    // order leave full chunks.
    pub(crate) fn with(
        &self,
        alloc: Global,
        key: K,
        value: V,
        last: bool,
    ) -> Result<Arc<Tree<K, V>>, AllocError>
        requires { IsStrictlySortedBy K.cmp (keys_of self.now.0) }
        ensures pairs { IfOk result (λ t. (arc_value t).0 ≡ insert_entry K.cmp self.now.0 key value) }
        ensures height { IfOk result (λ t. IsGrown self.now.1 (arc_value t).1) }
    {
        match &self.body {
            Body::Leaf(entries) => {
                let whole = chunk_with(alloc, entries, key, value, last)?;
                Ok(whole)
            }
            Body::Fork(low, split, high) => {
                if is_below(&key, split) {
                    let low = low.with(alloc, key, value, false)?;
                    let whole = joined(alloc, low, Arc::try_clone(high)?)?;
                    Ok(whole)
                } else {
                    let high = high.with(alloc, key, value, last)?;
                    let whole = joined(alloc, Arc::try_clone(low)?, high)?;
                    Ok(whole)
                }
            }
        }
    }

    // The tree without the key's pair, if anything is left.
    pub(crate) fn without(
        &self,
        alloc: Global,
        key: &K,
    ) -> Result<Option<Arc<Tree<K, V>>>, AllocError>
        requires { IsStrictlySortedBy K.cmp (keys_of self.now.0) }
        ensures pairs { IfOk result (λ rest. pairs_of rest ≡ remove_entry (is_at (K.cmp key.now)) self.now.0) }
        ensures height { IfOk result (λ rest. IsShrunk self.now.1 rest) }
    {
        if self.height == 0 || (self.height == 1 && self.size <= SPARSE) {
            return self.gathered_without(alloc, key);
        }
        match &self.body {
            Body::Leaf(_) => unreachable!(),
            Body::Fork(low, split, high) => {
                if is_below(key, split) {
                    match low.without(alloc, key)? {
                        None => Ok(Some(Arc::try_clone(high)?)),
                        Some(low) => Ok(Some(joined(alloc, low, Arc::try_clone(high)?)?)),
                    }
                } else {
                    match high.without(alloc, key)? {
                        None => Ok(Some(Arc::try_clone(low)?)),
                        Some(high) => Ok(Some(joined(alloc, Arc::try_clone(low)?, high)?)),
                    }
                }
            }
        }
    }

    // One chunk of the few pairs of a small tree, without the key's.
    fn gathered_without(
        &self,
        alloc: Global,
        key: &K,
    ) -> Result<Option<Arc<Tree<K, V>>>, AllocError>
        requires sorted { IsStrictlySortedBy K.cmp (keys_of self.now.0) }
        requires flat { self.now.1 ≤ 1 }
        requires few { length self.now.0 ≤ CHUNK }
        ensures pairs { IfOk result (λ rest. pairs_of rest ≡ remove_entry (is_at (K.cmp key.now)) self.now.0) }
        ensures height { IfOk result (λ rest. IsShrunk self.now.1 rest) }
    {
        let mut all = Vec::with_capacity(alloc, entries::room_for(self.size))?;
        self.copy_into(&mut all)?;
        entries::take_out(&mut all, key);
        if all.is_empty() {
            return Ok(None);
        }
        let whole = Tree::leaf(alloc, all)?;
        Ok(Some(whole))
    }

    // Adds equal pairs at the end.
    fn copy_into(&self, all: &mut Vec<(K, V)>) -> Result<(), AllocError>
        ensures { OnOk result (all.new.items ≡ all.old.items ++ self.now.0) }
    {
        match &self.body {
            Body::Leaf(entries) => entries::add_all(all, entries),
            Body::Fork(low, _, high) => {
                low.copy_into(all)?;
                high.copy_into(all)?;
                Ok(())
            }
        }
    }
}

// The chunk with the pair put, as one chunk or two.
fn chunk_with<K: Ord + Copy, V: Share>(
    alloc: Global,
    entries: &Vec<(K, V)>,
    key: K,
    value: V,
    last: bool,
) -> Result<Arc<Tree<K, V>>, AllocError>
    requires sorted { IsStrictlySortedBy K.cmp (keys_of entries.now.items) }
    requires few { length entries.now.items ≤ CHUNK }
    ensures pairs { IfOk result (λ t. (arc_value t).0 ≡ insert_entry K.cmp entries.now.items key value) }
    ensures height { IfOk result (λ t. (arc_value t).1 ≤ 1) }
{
    let mut all = entries::copy_of(entries)?;
    let end = entries::add(&mut all, key, value)?;
    if all.len() <= CHUNK {
        let whole = Tree::leaf(alloc, all)?;
        return Ok(whole);
    }
    let cut = if last && end { CHUNK } else { CHUNK / 2 };
    let upper = all.split_off(cut)?;
    let whole = Tree::fork(alloc, Tree::leaf(alloc, all)?, Tree::leaf(alloc, upper)?)?;
    Ok(whole)
}
