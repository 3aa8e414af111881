//! What a production reads of its arguments. An argument of another shape than the one that is looked
//! for reads as none, as an empty text or as no values. Nothing is copied but by [`copied`].
ghost use Rattle.std.specs.Prelude.{◌≡◌, ◌++◌, ◌∷◌, [], map, slice_get, OnOk, IfOk};
ghost use Rattle.std.specs.Option.{option_copied};
ghost use Rattle.dg_base.specs.Graph.{value_in};
ghost use Rattle.dg_kinds_go.specs.Values.{good_in, value_of, answers_of, props_of, value_at, text_in, items_in, fields_in, field_in, or_nil, field};

use dg_base::{Answer, ArgVal, Datum, FieldOf, Fields, Held, Items, Label, PropVal};
use std::alloc::{AllocError, Global};

/// The value of a good answer.
pub fn good_in(answer: &Answer) -> Option<&Datum>
    ensures { option_copied result ≡ good_in answer.now }
{
    match answer {
        Answer::Good(datum) => Some(datum),
        Answer::Bad(_) => None,
        Answer::Cycle => None,
    }
}

/// The value of the argument at a place, from 0; none for an input without a source.
pub fn value_at(args: &[ArgVal], place: usize) -> Option<&Datum>
    ensures { option_copied result ≡ value_at args.now place }
{
    match args.get(place) {
        Some(ArgVal::One(held)) => good_in(held.answer()),
        Some(ArgVal::Sub(datum)) => Some(datum),
        _ => None,
    }
}

/// The answers of the array at a place.
pub fn answers_at(args: &[ArgVal], place: usize) -> &[Held]
    ensures { result.now ≡ answers_of (slice_get args.now place) }
{
    match args.get(place) {
        Some(ArgVal::Many(helds)) => helds.as_slice(),
        _ => &[],
    }
}

/// The open values at a place, in label order.
pub fn props_at(args: &[ArgVal], place: usize) -> &[PropVal]
    ensures { result.now ≡ props_of (slice_get args.now place) }
{
    match args.get(place) {
        Some(ArgVal::Open(props)) => props.as_slice(),
        _ => &[],
    }
}

/// The text of a value.
pub fn text_in(datum: Option<&Datum>) -> &str
    ensures { result.now ≡ text_in (option_copied datum.entry) }
{
    match datum {
        Some(Datum::Text(text)) => text.as_str(),
        _ => "",
    }
}

/// The members of a list.
pub fn items_in(datum: Option<&Datum>) -> &[Datum]
    ensures { result.now ≡ items_in (option_copied datum.entry) }
{
    match datum {
        Some(Datum::List(items)) => items.as_slice(),
        _ => &[],
    }
}

/// The fields of a record.
pub fn fields_in(datum: Option<&Datum>) -> &[FieldOf]
    ensures { result.now ≡ fields_in (option_copied datum.entry) }
{
    match datum {
        Some(Datum::Rec(fields)) => fields.as_slice(),
        _ => &[],
    }
}

/// The value of a record's field, which is looked for from the first field on.
pub fn field_in(datum: Option<&Datum>, label: Label) -> Option<&Datum>
    ensures { option_copied result ≡ field_in (option_copied datum.entry) label }
{
    value_in(fields_in(datum), label)
}

fn value_in(fields: &[FieldOf], label: Label) -> Option<&Datum>
    ensures { option_copied result ≡ value_in fields.now label }
{
    for field in fields {
        if field.label.0 == label.0 {
            return Some(&field.value);
        }
    }
    None
}

/// An equal value, or `Nil` for none.
pub fn copied(alloc: Global, datum: Option<&Datum>) -> Result<Datum, AllocError>
    ensures { IfOk result (λ d. d ≡ or_nil (option_copied datum.entry)) }
{
    match datum {
        Some(datum) => datum.copy(alloc),
        None => Ok(Datum::Nil),
    }
}

/// Puts a field behind the others.
pub fn push_field(fields: &mut Fields, label: Label, value: Datum) -> Result<(), AllocError>
    ensures { OnOk result (fields.new ≡ fields.old ++ field label value ∷ []) }
{
    fields.push(FieldOf { label, value })
}

/// Puts a value behind the others.
pub fn push_item(items: &mut Items, item: Datum) -> Result<(), AllocError>
    ensures { OnOk result (items.new ≡ items.old ++ item ∷ []) }
{
    items.push(item)
}
