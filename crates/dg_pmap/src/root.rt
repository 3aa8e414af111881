//! A pair put into the root of a map.
ghost use Rattle.dg_pmap.specs.Shape.{pairs_of, LeavesAfter};
ghost use Rattle.dg_pmap.specs.Edits.{PutsInChunk};
ghost use Rattle.std.specs.Prelude.{◌≡◌, ◌+◌, ◌^◌, ◌<◌, length, [], ◌∷◌, true, false, IfOk, OnOk, OnErr, is_some};
ghost use Rattle.std.specs.Arc.{arc_value};
ghost use Rattle.std.specs.List.Sorted.{IsStrictlySortedBy};
ghost use Rattle.std.specs.Map.{keys_of, lookup, remove_entry};
ghost use Rattle.std.specs.BTreeMap.{is_at, insert_entry};

use crate::share::Share;
use crate::tree::Tree;
use std::alloc::{AllocError, Global};
use std::sync::Arc;

// A tree of one pair.
pub(crate) fn first<K: Copy, V: Drop>(
    alloc: Global,
    key: K,
    value: V,
) -> Result<Arc<Tree<K, V>>, AllocError>
    ensures { IfOk result (λ t. (arc_value t).0 ≡ (key, value) ∷ []) }
{
    let mut entries = Vec::new(alloc);
    entries.push((key, value))?;
    let whole = Tree::leaf(alloc, entries)?;
    Ok(whole)
}

// In place where the chunk has room, and else by new nodes along the way.
pub(crate) fn insert<K: Ord + Copy, V: Share>(
    root: &mut Arc<Tree<K, V>>,
    alloc: Global,
    key: K,
    value: V,
) -> Result<bool, AllocError>
    requires { IsStrictlySortedBy K.cmp (keys_of (arc_value root.old).0) }
    ensures ok { OnOk result ((arc_value root.new).0 ≡ insert_entry K.cmp (arc_value root.old).0 key value) }
    ensures there { IfOk result (λ there. there ≡ is_some (lookup (is_at (K.cmp key)) (arc_value root.old).0)) }
    ensures err { OnErr result ((arc_value root.new).0 ≡ (arc_value root.old).0) }
{
    if root.len() == usize::MAX {
        return Err(AllocError);
    }
    match put_in_place(root, key, value)? {
        Ok(there) => Ok(there),
        Err(value) => {
            *root = root.with(alloc, key, value, true)?;
            Ok(false)
        }
    }
}

// Puts the pair unless its chunk is full.
fn put_in_place<K: Ord + Copy, V: Share>(
    root: &mut Arc<Tree<K, V>>,
    key: K,
    value: V,
) -> Result<Result<bool, V>, AllocError>
    requires sorted { IsStrictlySortedBy K.cmp (keys_of (arc_value root.old).0) }
    requires room { length (arc_value root.old).0 + 1 < 2 ^ 64 }
    ensures { PutsInChunk K.cmp (arc_value root.old).0 key value result (arc_value root.new).0 }
{
    let tree = Arc::make_mut(root)?;
    let (_, done) = tree.put(key, value)?;
    Ok(done)
}

// Without the key's pair, in place where the tree keeps its shape.
pub(crate) fn remove<K: Ord + Copy, V: Share>(
    root: &mut Option<Arc<Tree<K, V>>>,
    alloc: Global,
    key: &K,
) -> Result<(), AllocError>
    requires { IsStrictlySortedBy K.cmp (keys_of (pairs_of root.old)) }
    ensures ok { OnOk result (pairs_of root.new ≡ remove_entry (is_at (K.cmp key.now)) (pairs_of root.old)) }
    ensures err { OnErr result (pairs_of root.new ≡ pairs_of root.old) }
{
    match root {
        None => Ok(()),
        Some(tree) => match left_after(tree, alloc, key)? {
            None => Ok(()),
            Some(rest) => {
                *root = rest;
                Ok(())
            }
        },
    }
}

// Takes the pair out in place, or answers what is to stand in the root's place.
fn left_after<K: Ord + Copy, V: Share>(
    root: &mut Arc<Tree<K, V>>,
    alloc: Global,
    key: &K,
) -> Result<Option<Option<Arc<Tree<K, V>>>>, AllocError>
    requires { IsStrictlySortedBy K.cmp (keys_of (arc_value root.old).0) }
    ensures ok { IfOk result (λ left. LeavesAfter (is_at (K.cmp key.now)) (arc_value root.old).0 left (arc_value root.new).0) }
    ensures err { OnErr result ((arc_value root.new).0 ≡ (arc_value root.old).0) }
{
    if take_in_place(root, key)? {
        return Ok(None);
    }
    let rest = root.without(alloc, key)?;
    Ok(Some(rest))
}

// Takes the pair out unless the tree's shape has to change.
fn take_in_place<K: Ord + Copy, V: Share>(
    root: &mut Arc<Tree<K, V>>,
    key: &K,
) -> Result<bool, AllocError>
    requires { IsStrictlySortedBy K.cmp (keys_of (arc_value root.old).0) }
    ensures taken { IfOk result (λ taken. taken ≡ true → (arc_value root.new).0 ≡ remove_entry (is_at (K.cmp key.now)) (arc_value root.old).0) }
    ensures left { IfOk result (λ taken. taken ≡ false → (arc_value root.new).0 ≡ (arc_value root.old).0) }
    ensures err { OnErr result ((arc_value root.new).0 ≡ (arc_value root.old).0) }
{
    let tree = Arc::make_mut(root)?;
    match tree.take(key)? {
        Some(_) => Ok(true),
        None => Ok(false),
    }
}
