//! What the fields of a message without fault give.
ghost use Rattle.std.specs.Prelude.{◌≡◌, ℤ, IfOk, option_map, pos, map};
ghost use Rattle.dg_desc.specs.Lookups.{last_value, is_unknown, unknown, fields_in, text_in, text_or_none, text_of, word_in, number_or, number_of, type_in, switch_in, one, vector_of, quaternion_of, position_of, rotation_of, evenly, scale3_of};

use crate::check::is_named;
use crate::copying::copy_field;
use crate::known::{FieldName, Message, row_in, rows_of};
use crate::words::{switch_named, type_named};
use dg_base::{PType, Str, V3, V4};
use dg_ptext::{Field, Tree, Value};
use std::alloc::{AllocError, Global};

/// One, in billionths.
pub(crate) const ONE: i64 = 1_000_000_000;

/// The value of the last field of a name.
#[tactic(auto, using(crate::proofs::LastFields::last_later))]
pub(crate) fn last_value(name: FieldName, fields: &[Field]) -> Option<&Value>
    ensures { option_map (λ v. v.now) result ≡ last_value name fields.now }
{
    let mut found = None;
    for field in fields {
        if is_named(name, field) {
            found = Some(&field.value);
        }
    }
    found
}

/// The fields of no known name, in order.
pub(crate) fn unknown(alloc: Global, message: Message, fields: &[Field]) -> Result<Tree, AllocError>
    ensures { IfOk result (λ tree. tree ≡ unknown message fields.now) }
{
    let mut all = Tree::new(alloc);
    for field in fields {
        if is_unknown(message, field) {
            all.push(copy_field(alloc, field)?)?;
        }
    }
    Ok(all)
}

fn is_unknown(message: Message, field: &Field) -> bool
    ensures { result ≡ is_unknown message field.now }
{
    row_in(rows_of(message), field.name.as_str()).is_none()
}

/// The fields of a value that is a message.
pub(crate) fn fields_in(value: &Value) -> &[Field]
    ensures { result.now ≡ fields_in value.now }
{
    match value {
        Value::Message(fields) => fields.as_slice(),
        _ => &[],
    }
}

/// The text of a value that is one.
pub(crate) fn text_in(value: &Value) -> &str
    ensures { result.now ≡ text_in value.now }
{
    match value {
        Value::Quoted(text) => text.as_str(),
        _ => "",
    }
}

fn word_in(value: &Value) -> &str
    ensures { result.now ≡ word_in value.now }
{
    match value {
        Value::Bare(word) => word.as_str(),
        _ => "",
    }
}

/// The text of a field.
pub(crate) fn text_of(alloc: Global, name: FieldName, fields: &[Field]) -> Result<Str, AllocError>
    ensures { IfOk result (λ text. text ≡ text_of name fields.now) }
{
    let text = match last_value(name, fields) {
        Some(value) => text_in(value),
        None => "",
    };
    Ok(Str::of(String::from_str(alloc, text)?))
}

// The number of a value that is a decimal, and another where there is none.
fn number_or(other: i64, value: Option<&Value>) -> i64
    ensures { result ≡ number_or other (option_map (λ v. v.now) value.entry) }
{
    match value {
        None => other,
        Some(value) => match dg_decimal::read(word_in(value)) {
            Ok(number) => number,
            Err(_) => other,
        },
    }
}

fn number_of(other: i64, name: FieldName, fields: &[Field]) -> i64
    ensures { result ≡ number_of other name fields.now }
{
    number_or(other, last_value(name, fields))
}

/// The type of a property.
pub(crate) fn type_in(value: Option<&Value>) -> PType
    ensures { result ≡ type_in (option_map (λ v. v.now) value.entry) }
{
    match value {
        None => PType::Number,
        Some(value) => match type_named(word_in(value)) {
            Some(ptype) => ptype,
            None => PType::Number,
        },
    }
}

/// Whether a switch is on.
pub(crate) fn switch_in(value: Option<&Value>) -> bool
    ensures { result ≡ switch_in (option_map (λ v. v.now) value.entry) }
{
    match value {
        None => false,
        Some(value) => match switch_named(word_in(value)) {
            Some(on) => on,
            None => false,
        },
    }
}

fn vector_of(other: i64, fields: &[Field]) -> V3
    ensures { result ≡ vector_of other fields.now }
{
    V3 {
        x: number_of(other, FieldName::X, fields),
        y: number_of(other, FieldName::Y, fields),
        z: number_of(other, FieldName::Z, fields),
    }
}

fn quaternion_of(fields: &[Field]) -> V4
    ensures { result ≡ quaternion_of fields.now }
{
    V4 {
        x: number_of(0, FieldName::X, fields),
        y: number_of(0, FieldName::Y, fields),
        z: number_of(0, FieldName::Z, fields),
        w: number_of(ONE, FieldName::W, fields),
    }
}

/// The position, where the field stands there.
pub(crate) fn position_of(fields: &[Field]) -> Option<V3>
    ensures { result ≡ position_of fields.now }
{
    match last_value(FieldName::Position, fields) {
        Some(value) => Some(vector_of(0, fields_in(value))),
        None => None,
    }
}

/// The rotation, where the field stands there.
pub(crate) fn rotation_of(fields: &[Field]) -> Option<V4>
    ensures { result ≡ rotation_of fields.now }
{
    match last_value(FieldName::Rotation, fields) {
        Some(value) => Some(quaternion_of(fields_in(value))),
        None => None,
    }
}

/// The scale, where one of its two fields stands there. Three scales, wherever they stand, come before one.
pub(crate) fn scale3_of(fields: &[Field]) -> Option<V3>
    ensures { result ≡ scale3_of fields.now }
{
    if let Some(value) = last_value(FieldName::Scale3, fields) {
        return Some(vector_of(ONE, fields_in(value)));
    }
    match last_value(FieldName::Scale, fields) {
        Some(value) => Some(evenly(number_or(ONE, Some(value)))),
        None => None,
    }
}

// The same scale along each axis.
fn evenly(scale: i64) -> V3
    ensures { result ≡ evenly scale }
{
    V3 {
        x: scale,
        y: scale,
        z: scale,
    }
}
