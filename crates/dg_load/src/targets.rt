//! Components of the instances in a collection, as the instances of the collection name them.
ghost use Rattle.std.specs.Prelude.{◌≡◌, ◌==◌, IfOk, length, map, option_map, slice_get};
ghost use Rattle.std.specs.Option.{option_copied};
ghost use Rattle.std.specs.List.{slice_split};
ghost use Rattle.dg_load.specs.Targets.{under, in_override, object_at, part_in, instance_part, instance_in, sub_in, through, target_in, target, behind_slash, ids_in, is_slash};

use crate::state::{Filled, Instance, Object, Sub};
use dg_base::NodeRef;
use sqlite_items::Boxed;
use std::alloc::{AllocError, Global};

/// The override node of a node in the override of a root.
pub(crate) fn under(
    alloc: Global,
    root: u32,
    original: Option<NodeRef>,
) -> Result<Option<NodeRef>, AllocError>
    ensures { IfOk result (λ at. at ≡ under root original) }
{
    match original {
        None => Ok(None),
        Some(original) => Ok(Some(NodeRef::In {
            root: Boxed::new(alloc, NodeRef::New(root))?,
            original: Boxed::new(alloc, original)?,
        })),
    }
}

/// A component of a game object, or its override node where the object is overridden.
pub(crate) fn in_override(
    alloc: Global,
    over: Option<u32>,
    part: Option<u32>,
) -> Result<Option<NodeRef>, AllocError>
    ensures { IfOk result (λ at. at ≡ in_override over part) }
{
    let original = match part {
        None => None,
        Some(node) => Some(NodeRef::New(node)),
    };
    match over {
        None => Ok(original),
        Some(root) => under(alloc, root, original),
    }
}

/// The game object at a place.
pub(crate) fn object_at(objects: &[Object], place: Option<usize>) -> Option<&Object>
    ensures { option_copied result ≡ object_at objects.now place }
{
    match place {
        None => None,
        Some(place) => objects.get(place),
    }
}

// The component of an id in the game object at a place.
fn part_at(objects: &[Object], place: Option<usize>, id: &str) -> Option<u32>
    ensures { result ≡ part_in (object_at objects.now place) id.now }
{
    match object_at(objects, place) {
        None => None,
        Some(object) => object.part(id),
    }
}

// The component of an id in an instance.
fn instance_part(
    alloc: Global,
    objects: &[Object],
    instance: Option<Instance>,
    id: &str,
) -> Result<Option<NodeRef>, AllocError>
    ensures { IfOk result (λ at. at ≡ instance_part objects.now instance id.now) }
{
    match instance {
        None => Ok(None),
        Some(instance) => {
            in_override(alloc, instance.over, part_at(objects, instance.object, id))
        }
    }
}

// The component of an id in the last instance of a filled collection that has another id.
fn instance_in(
    alloc: Global,
    objects: &[Object],
    here: Option<&Filled>,
    last: &str,
    id: &str,
) -> Result<Option<NodeRef>, AllocError>
    ensures { IfOk result (λ at. at ≡ instance_in objects.now (option_map (λ f. f.now) here.entry) last.now id.now) }
{
    match here {
        None => Ok(None),
        Some(here) => instance_part(alloc, objects, here.instances.find(last), id),
    }
}

// The last instance of a collection in a filled one that has an id, where it has an override.
fn sub_in(here: Option<&Filled>, first: &str) -> Option<Sub>
    ensures { result ≡ sub_in (option_map (λ f. f.now) here.entry) first.now }
{
    match here {
        None => None,
        Some(here) => match here.subs.find(first) {
            None => None,
            Some(sub) => sub,
        },
    }
}

// The filled collection at a place.
fn filled_in(filled: &[Filled], place: usize) -> Option<&Filled>
    ensures { option_map (λ f. f.now) result ≡ slice_get filled.now place }
{
    filled.get(place)
}

/// The component of an id in the instance that the last of these ids names, in the collections that those before it
/// name, from a filled collection on. It takes time linear in the ids.
#[cycle(target)]
pub(crate) fn target(
    alloc: Global,
    objects: &[Object],
    filled: &[Filled],
    place: usize,
    ids: &[&str],
    id: &str,
) -> Result<Option<NodeRef>, AllocError>
    ensures { IfOk result (λ at. at ≡ target objects.now filled.now place (map (λ i. i.now) ids.now) id.now) }
{
    match ids {
        [first, more @ ..] => target_in(alloc, objects, filled, place, first, more, id),
        [] => Ok(None),
    }
}

// The same, where a first id and more of them are named.
#[cycle(target)]
fn target_in(
    alloc: Global,
    objects: &[Object],
    filled: &[Filled],
    place: usize,
    first: &str,
    more: &[&str],
    id: &str,
) -> Result<Option<NodeRef>, AllocError>
    ensures { IfOk result (λ at. at ≡ target_in objects.now (slice_get filled.now place) first.now (length more.now == 0) (λ inner. target objects.now filled.now inner (map (λ i. i.now) more.now) id.now) id.now) }
{
    let here = filled_in(filled, place);
    if more.is_empty() {
        instance_in(alloc, objects, here, first, id)
    } else {
        through(alloc, objects, filled, sub_in(here, first), more, id)
    }
}

// What is found in an instance of a collection, through its override.
#[cycle(target)]
fn through(
    alloc: Global,
    objects: &[Object],
    filled: &[Filled],
    sub: Option<Sub>,
    more: &[&str],
    id: &str,
) -> Result<Option<NodeRef>, AllocError>
    ensures { IfOk result (λ at. at ≡ through (λ inner. target objects.now filled.now inner (map (λ i. i.now) more.now) id.now) sub) }
{
    match sub {
        None => Ok(None),
        Some(sub) => {
            let inner = target(alloc, objects, filled, sub.filled, more, id)?;
            under(alloc, sub.over, inner)
        }
    }
}

/// The ids that a path of instances has: one slash at its begin is passed over.
pub(crate) fn ids_in(alloc: Global, path: &str) -> Result<Vec<&str>, AllocError>
    ensures { IfOk result (λ ids. map (λ i. i.now) ids.items ≡ ids_in path.now) }
{
    split_ids(alloc, behind_slash(path))
}

fn behind_slash(path: &str) -> &str
    ensures { result.now ≡ behind_slash path.now }
{
    match path.strip_prefix("/") {
        Some(rest) => rest,
        None => path,
    }
}

fn split_ids(alloc: Global, path: &str) -> Result<Vec<&str>, AllocError>
    ensures { IfOk result (λ ids. map (λ i. i.now) ids.items ≡ slice_split is_slash path.now) }
{
    path.split('/').collect(alloc)
}
