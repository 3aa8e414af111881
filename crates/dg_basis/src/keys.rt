//! The keys of override nodes in the indexes, and a map's changes at a key that may be none.
ghost use Rattle.std.specs.Prelude.{◌≡◌, OnOk, OnErr};
ghost use Rattle.dg_basis.specs.Keys.{over_key, place_key, with_key, without_key};

use dg_base::{NodeId, Origin};
use dg_pmap::PMap;
use std::alloc::AllocError;

// Where a node of this origin stands by root and original.
pub(crate) fn place_key(node: NodeId, origin: Option<Origin>) -> Option<((NodeId, NodeId), NodeId)>
    ensures { result ≡ place_key node origin }
{
    match origin {
        Some(Origin::Over { root, original }) => Some(((root, original), node)),
        Some(Origin::Plain(_)) => None,
        None => None,
    }
}

// Where a node of this origin stands by original.
pub(crate) fn over_key(node: NodeId, origin: Option<Origin>) -> Option<(NodeId, NodeId)>
    ensures { result ≡ over_key node origin }
{
    match origin {
        Some(Origin::Over { original, .. }) => Some((original, node)),
        Some(Origin::Plain(_)) => None,
        None => None,
    }
}

pub(crate) fn put_key<K: Ord + Copy>(
    map: &mut PMap<K, ()>,
    key: Option<K>,
) -> Result<(), AllocError>
    ensures { OnOk result (map.new ≡ with_key K.cmp key map.old) }
{
    if let Some(key) = key {
        map.insert(key, ())?;
    }
    Ok(())
}

pub(crate) fn take_key<K: Ord + Copy>(
    map: &mut PMap<K, ()>,
    key: Option<K>,
) -> Result<(), AllocError>
    ensures { OnOk result (map.new ≡ without_key K.cmp key map.old) }
{
    if let Some(key) = key {
        map.remove(&key)?;
    }
    Ok(())
}
