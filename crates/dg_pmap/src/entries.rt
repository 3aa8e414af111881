//! The pairs of one chunk, in key order.
ghost use Rattle.std.specs.Prelude.{◌≡◌, ◌+◌, ◌≤◌, ◌<◌, ◌^◌, vec_len, List, [], ◌∷◌, ◌++◌, length, IfOk, IfErr, OnOk, OnErr, MatchResult, is_some};
ghost use Rattle.std.specs.List.{insert};
ghost use Rattle.std.specs.Option.{option_copied};
ghost use Rattle.std.specs.List.Sorted.{IsStrictlySortedBy};
ghost use Rattle.std.specs.Map.{keys_of, lookup, remove_entry};
ghost use Rattle.std.specs.BTreeMap.{is_at, insert_entry};
ghost use Rattle.dg_pmap.specs.Places.{IsFoundAt, IsGapAt, count_below};
ghost use Rattle.dg_pmap.specs.Edits.{PutsInChunk};

use crate::share::Share;
use std::alloc::{AllocError, Global};
use std::cmp::Ordering;

/// The most pairs that one chunk holds.
pub(crate) const CHUNK: usize = 32;

// Where the key stands among the pairs of a chunk, or where it would go.
pub(crate) fn find<K: Ord, V>(entries: &[(K, V)], key: &K) -> Result<usize, usize>
    requires { IsStrictlySortedBy K.cmp (keys_of entries.now) }
    ensures found { IfOk result (IsFoundAt K.cmp key.now entries.now) }
    ensures gap { IfErr result (IsGapAt K.cmp key.now entries.now) }
{
    let mut low = 0;
    let mut high = entries.len();
    while low < high {
        let middle = low + (high - low) / 2;
        match key.cmp(&entries[middle].0) {
            Ordering::Less => high = middle,
            Ordering::Equal => return Ok(middle),
            Ordering::Greater => low = middle + 1,
        }
    }
    Err(low)
}

pub(crate) fn value_of<'a, K: Ord, V>(entries: &'a [(K, V)], key: &K) -> Option<&'a V>
    requires { IsStrictlySortedBy K.cmp (keys_of entries.now) }
    ensures { option_copied result ≡ lookup (is_at (K.cmp key.now)) entries.now }
{
    match find(entries, key) {
        Ok(at) => Some(&entries[at].1),
        Err(_) => None,
    }
}

pub(crate) fn place_of<K: Ord, V>(entries: &[(K, V)], key: &K) -> usize
    requires { IsStrictlySortedBy K.cmp (keys_of entries.now) }
    ensures value { result ≡ count_below K.cmp key.now entries.now }
    ensures bound { result ≤ length entries.now }
{
    match find(entries, key) {
        Ok(at) => at,
        Err(at) => at,
    }
}

// The size of the next larger block for a chunk: small maps stay small, and no block is larger than a full chunk.
pub(crate) fn room_for(len: usize) -> usize
    ensures { len ≤ result }
{
    if len <= 4 {
        4
    } else if len <= 8 {
        8
    } else if len <= 16 {
        16
    } else {
        len.max(CHUNK)
    }
}

// Inserts with the block's growth in steps.
fn insert_at<T: Drop>(entries: &mut Vec<T>, at: usize, entry: T) -> Result<(), AllocError>
    requires room { vec_len entries.old < 2 ^ 16 }
    requires inside { at ≤ vec_len entries.old }
    ensures ok { OnOk result (entries.new.items ≡ insert entries.old.items at entry) }
    ensures err { OnErr result (entries.new.items ≡ entries.old.items) }
{
    let len = entries.len();
    if len == entries.capacity() {
        entries.reserve_exact(room_for(len + 1) - len)?;
    }
    entries.insert(at, entry)?;
    Ok(())
}

// Puts the pair where it belongs. A full chunk that lacks the key hands the value back.
pub(crate) fn put<K: Ord + Drop, V: Drop>(
    entries: &mut Vec<(K, V)>,
    key: K,
    value: V,
) -> Result<Result<bool, V>, AllocError>
    requires { IsStrictlySortedBy K.cmp (keys_of entries.old.items) }
    ensures puts { PutsInChunk K.cmp entries.old.items key value result entries.new.items }
    ensures least { length entries.old.items ≤ length entries.new.items }
    ensures most { length entries.old.items ≤ CHUNK → length entries.new.items ≤ CHUNK }
{
    match find(entries, &key) {
        Ok(at) => {
            entries[at].1 = value;
            Ok(Ok(true))
        }
        Err(at) => {
            if entries.len() >= CHUNK {
                return Ok(Err(value));
            }
            insert_at(entries, at, (key, value))?;
            Ok(Ok(false))
        }
    }
}

// Puts the pair where it belongs, and says whether that is the end.
pub(crate) fn add<K: Ord + Drop, V: Drop>(
    entries: &mut Vec<(K, V)>,
    key: K,
    value: V,
) -> Result<bool, AllocError>
    requires sorted { IsStrictlySortedBy K.cmp (keys_of entries.old.items) }
    requires few { length entries.old.items ≤ CHUNK }
    ensures pairs { OnOk result (entries.new.items ≡ insert_entry K.cmp entries.old.items key value) }
    ensures len { OnOk result (length entries.new.items ≤ CHUNK + 1) }
    ensures some { OnOk result (0 < length entries.new.items) }
{
    match find(entries, &key) {
        Ok(at) => {
            entries[at].1 = value;
            Ok(false)
        }
        Err(at) => {
            let end = at == entries.len();
            insert_at(entries, at, (key, value))?;
            Ok(end)
        }
    }
}

pub(crate) fn take_out<K: Ord + Drop, V: Drop>(entries: &mut Vec<(K, V)>, key: &K)
    requires { IsStrictlySortedBy K.cmp (keys_of entries.old.items) }
    ensures pairs { entries.new.items ≡ remove_entry (is_at (K.cmp key.now)) entries.old.items }
    ensures least { length entries.old.items ≤ length entries.new.items + 1 }
    ensures most { length entries.new.items ≤ length entries.old.items }
{
    if let Ok(at) = find(entries, key) {
        let _ = entries.remove(at);
    }
}

// Adds equal pairs at the end.
pub(crate) fn add_all<K: Copy, V: Share>(
    all: &mut Vec<(K, V)>,
    entries: &[(K, V)],
) -> Result<(), AllocError>
    ensures { OnOk result (all.new.items ≡ all.old.items ++ entries.now) }
{
    for entry in entries {
        all.push((entry.0, entry.1.share()?))?;
    }
    Ok(())
}

// A second chunk of equal pairs.
pub(crate) fn copy_of<K: Copy, V: Share>(entries: &Vec<(K, V)>) -> Result<Vec<(K, V)>, AllocError>
    ensures { IfOk result (λ copy. copy.items ≡ entries.now.items) }
{
    let mut copy = Vec::with_capacity(*entries.allocator(), room_for(entries.len()))?;
    add_all(&mut copy, entries)?;
    Ok(copy)
}
