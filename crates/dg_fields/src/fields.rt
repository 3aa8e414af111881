//! Own values in label order.
ghost use Rattle.std.specs.Prelude.{◌≡◌, ◌+◌, ◌≤◌, ◌++◌, length, take, drop, reverse, insert, vec_len, OnOk, OnErr, IfOk, slice_get, IsTrue, map, filter, not};
ghost use Rattle.std.specs.Option.{option_copied};
ghost use Rattle.std.specs.Vec.{vec_capacity};
ghost use Rattle.dg_base.specs.Graph.{value_in, put_value};
ghost use Rattle.dg_base.specs.Order.{rises};
ghost use Rattle.dg_base.specs.Same.{same_label};
ghost use Rattle.dg_fields.specs.Places.{place_of, has_label};

use dg_base::{Datum, FieldOf, Fields, Label};
use std::alloc::{AllocError, Global};

/// The value at a label. In time linear in the values.
pub fn value_in(fields: &[FieldOf], label: Label) -> Option<&Datum>
    ensures { option_copied result ≡ value_in fields.now label }
{
    for field in fields {
        if field.label.0 == label.0 {
            return Some(&field.value);
        }
    }
    None
}

/// Puts a value at its label, in place of one that stands there, among values in label order. Where
/// memory is refused the values stay as they were. In time linear in the values.
pub fn put(alloc: Global, fields: &mut Fields, label: Label, value: Datum) -> Result<(), AllocError>
    ensures ok { OnOk result (fields.new ≡ put_value fields.old label value) }
    ensures err { OnErr result (fields.new ≡ fields.old) }
{
    let place = place_of(fields.as_slice(), label);
    let field = FieldOf { label, value };
    if is_labelled(fields.get(place), label) {
        fields.set(place, field);
        return Ok(());
    }
    insert(alloc, fields, place, field)
}

/// Equal values, made anew. In time linear in their bytes.
pub fn copied(alloc: Global, fields: &[FieldOf]) -> Result<Fields, AllocError>
    ensures { IfOk result (λ all. all ≡ fields.now) }
{
    let mut all = Fields::new(alloc);
    for field in fields {
        let value = field.value.copy(alloc)?;
        let label = field.label;
        if all.push(FieldOf { label, value }).is_err() {
            return Err(AllocError);
        }
    }
    Ok(all)
}

/// Takes the value at a label away, if there is one, among values in label order. In time linear in
/// the values.
pub fn clear(fields: &mut Fields, label: Label)
    requires { IsTrue (rises (map (λ f. f.label.0) fields.old)) }
    ensures { fields.new ≡ filter (λ f. not (same_label f.label label)) fields.old }
{
    let place = place_of(fields.as_slice(), label);
    if is_labelled(fields.get(place), label) {
        let _gone = fields.remove(place);
    }
}

fn place_of(fields: &[FieldOf], label: Label) -> usize
    ensures place { result ≡ place_of fields.now label }
    ensures within { result ≤ length fields.now }
{
    let mut place = 0;
    for field in fields {
        if label.0 <= field.label.0 {
            return place;
        }
        place += 1;
    }
    place
}

fn is_labelled(field: Option<&FieldOf>, label: Label) -> bool
    ensures { result ≡ has_label (option_copied field.entry) label }
{
    match field {
        Some(field) => field.label.0 == label.0,
        None => false,
    }
}

// The list that is to be is made room for first. Then nothing can fail, and each value is moved.
fn insert(
    alloc: Global,
    fields: &mut Fields,
    place: usize,
    field: FieldOf,
) -> Result<(), AllocError>
    requires { place ≤ length fields.old }
    ensures ok { OnOk result (fields.new ≡ insert fields.old place field) }
    ensures err { OnErr result (fields.new ≡ fields.old) }
{
    let Some(room) = fields.len().checked_add(1) else {
        return Err(AllocError);
    };
    let mut all = Vec::with_capacity(alloc, room)?;
    move_from(fields, place, &mut all);
    all.push_reserved(field);
    move_from(fields, 0, &mut all);
    all.reverse();
    *fields = Fields::from_vec(all);
    Ok(())
}

// Moves the values from a place on, the last one first.
fn move_from(fields: &mut Fields, place: usize, all: &mut Vec<FieldOf>)
    requires place { place ≤ length fields.old }
    requires room { vec_len all.old + length fields.old ≤ vec_capacity all.old + place }
    ensures rest { fields.new ≡ take place fields.old }
    ensures moved { all.new.items ≡ all.old.items ++ reverse (drop place fields.old) }
    ensures count { vec_len all.new + place ≡ vec_len all.old + length fields.old }
    ensures room { vec_capacity all.new ≡ vec_capacity all.old }
{
    while fields.len() > place {
        if let Some(last) = fields.pop() {
            all.push_reserved(last);
        }
    }
}
