//! The entries of collections: how they are written, and how they move with the collection around them.
ghost use Rattle.std.specs.Prelude.{◌≡◌, Some, map, IfOk};
ghost use Rattle.std.specs.Option.{option_copied};
ghost use Rattle.dg_geom.specs.Composition.{composition};
ghost use Rattle.dg_kinds_go.specs.Values.{text_in};
ghost use Rattle.dg_kinds_coll.specs.Entries.{flag_in, is_child, behind, entry_of, moved_place, moved_entry, moved_entries};

use crate::places::place_in;
use dg_base::{Datum, Fields, Items, Str};
use dg_geom::{Transform, compose};
use dg_kinds_go::{copied, field_in, items_in, push_field, push_item, text_in};
use dg_labels::labels::{CHILD, CHILDREN, ID, OBJECT, POSITION, ROTATION, SCALE3};
use std::alloc::{AllocError, Global};

/// The entry of a record that has an id, children and an object, with the prefix before its ids.
pub(crate) fn entry_of(
    alloc: Global,
    prefix: &str,
    child: bool,
    place: &Transform,
    from: Option<&Datum>,
) -> Result<Datum, AllocError>
    ensures { IfOk result (λ d. d ≡ entry_of prefix.now child place.now (option_copied from.entry)) }
{
    let mut fields = Fields::new(alloc);
    push_field(
        &mut fields,
        ID,
        behind(alloc, prefix, text_in(field_in(from, ID)))?,
    )?;
    push_field(&mut fields, CHILD, Datum::Flag(child))?;
    let children = all_behind(alloc, prefix, items_in(field_in(from, CHILDREN)))?;
    push_field(&mut fields, CHILDREN, Datum::List(children))?;
    push_field(&mut fields, POSITION, Datum::Vec3(place.position))?;
    push_field(&mut fields, ROTATION, Datum::Quat(place.rotation))?;
    push_field(&mut fields, SCALE3, Datum::Vec3(place.scale))?;
    push_field(&mut fields, OBJECT, copied(alloc, field_in(from, OBJECT))?)?;
    Ok(Datum::Rec(fields))
}

fn behind(alloc: Global, prefix: &str, text: &str) -> Result<Datum, AllocError>
    ensures { IfOk result (λ d. d ≡ behind prefix.now text.now) }
{
    let mut all = String::from_str(alloc, prefix)?;
    all.push_str(text)?;
    Ok(Datum::Text(Str::of(all)))
}

fn all_behind(alloc: Global, prefix: &str, texts: &[Datum]) -> Result<Items, AllocError>
    ensures { IfOk result (λ all. all ≡ map (behind prefix.now) (map (λ t. text_in (Some t)) texts.now)) }
{
    let mut all = Items::new(alloc);
    for text in texts {
        push_item(&mut all, behind(alloc, prefix, text_in(Some(text)))?)?;
    }
    Ok(all)
}

/// The entries in a collection whose place is `outer`, with the prefix before their ids: those that
/// aren't children move along. None where the numbers of one are out of range. Each entry is written
/// once, in time linear in its own size and that of the prefix.
pub(crate) fn moved_entries(
    alloc: Global,
    prefix: &str,
    outer: &Transform,
    entries: &[Datum],
) -> Result<Option<Items>, AllocError>
    ensures { IfOk result (λ r. r ≡ moved_entries prefix.now outer.now entries.now) }
{
    let mut all = Items::new(alloc);
    for entry in entries {
        match moved_entry(alloc, prefix, outer, Some(entry))? {
            Some(moved) => push_item(&mut all, moved)?,
            None => return Ok(None),
        }
    }
    Ok(Some(all))
}

fn moved_entry(
    alloc: Global,
    prefix: &str,
    outer: &Transform,
    from: Option<&Datum>,
) -> Result<Option<Datum>, AllocError>
    ensures { IfOk result (λ r. r ≡ moved_entry prefix.now outer.now (option_copied from.entry)) }
{
    match moved_place(outer, from) {
        Some(place) => {
            let entry = entry_of(alloc, prefix, is_child(from), &place, from)?;
            Ok(Some(entry))
        }
        None => Ok(None),
    }
}

fn moved_place(outer: &Transform, from: Option<&Datum>) -> Option<Transform>
    ensures { result ≡ moved_place outer.now (option_copied from.entry) }
{
    let place = place_in(from);
    if is_child(from) {
        Some(place)
    } else {
        composition(outer, &place)
    }
}

fn composition(outer: &Transform, inner: &Transform) -> Option<Transform>
    ensures { result ≡ composition outer.now inner.now }
{
    match compose(outer, inner) {
        Ok(place) => Some(place),
        Err(_) => None,
    }
}

fn is_child(from: Option<&Datum>) -> bool
    ensures { result ≡ is_child (option_copied from.entry) }
{
    flag_in(field_in(from, CHILD))
}

/// Whether a value is the flag that says yes.
pub fn flag_in(datum: Option<&Datum>) -> bool
    ensures { result ≡ flag_in (option_copied datum.entry) }
{
    match datum {
        Some(Datum::Flag(flag)) => *flag,
        _ => false,
    }
}
