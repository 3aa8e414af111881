//! The first fault of a message.
ghost use Rattle.std.specs.Prelude.{◌≡◌};
ghost use Rattle.dg_desc.specs.Faults.{is_named, is_there, missing, fits_bare, fits_quoted, unless, value_fault, fields_fault, fault_of};

use crate::known::{FieldName, Form, Message, Place, Row, label_of, place_in, rows_of};
use crate::refusal::DescCode;
use crate::words::{is_decimal, is_kind, switch_named, type_named};
use dg_ptext::{Field, Value};

/// The first fault of a message whose own field stands on this line, in time linear in its text.
#[cycle(check)]
pub(crate) fn fault_of(message: Message, line: u32, fields: &[Field]) -> Option<DescCode>
    ensures { result ≡ fault_of message line fields.now }
{
    match fields_fault(message, fields) {
        Some(fault) => Some(fault),
        None => missing(rows_of(message), line, fields),
    }
}

#[cycle(check)]
fn fields_fault(message: Message, fields: &[Field]) -> Option<DescCode>
    ensures { result ≡ fields_fault message fields.now }
{
    for field in fields {
        let place = place_in(message, field.name.as_str());
        if let Some(fault) = value_fault(place, field.line, &field.value) {
            return Some(fault);
        }
    }
    None
}

#[cycle(check)]
fn value_fault(place: Place, line: u32, value: &Value) -> Option<DescCode>
    ensures { result ≡ value_fault place line value.now }
{
    match value {
        Value::Bare(word) => unless(fits_bare(place.form, word.as_str()), line, place),
        Value::Quoted(text) => unless(fits_quoted(place.form, text.as_str()), line, place),
        Value::Message(fields) => match place.form {
            Form::Any => None,
            Form::Inner(message) => fault_of(message, line, fields.as_slice()),
            _ => unless(false, line, place),
        },
    }
}

fn unless(fits: bool, line: u32, place: Place) -> Option<DescCode>
    ensures { result ≡ unless fits line place }
{
    if fits {
        None
    } else {
        Some(DescCode::Form {
            line,
            field: place.name,
        })
    }
}

fn fits_bare(form: Form, word: &str) -> bool
    ensures { result ≡ fits_bare form word.now }
{
    match form {
        Form::Any => true,
        Form::Decimal => is_decimal(word),
        Form::PropertyType => type_named(word).is_some(),
        Form::Switch => switch_named(word).is_some(),
        _ => false,
    }
}

fn fits_quoted(form: Form, text: &str) -> bool
    ensures { result ≡ fits_quoted form text.now }
{
    match form {
        Form::Any | Form::Text => true,
        Form::Kind => is_kind(text),
        _ => false,
    }
}

// The first required field that isn't there.
fn missing(rows: &[Row], line: u32, fields: &[Field]) -> Option<DescCode>
    ensures { result ≡ missing rows.now line fields.now }
{
    for row in rows {
        if row.required && !is_there(row.name, fields) {
            return Some(DescCode::Missing {
                line,
                field: row.name,
            });
        }
    }
    None
}

fn is_there(name: FieldName, fields: &[Field]) -> bool
    ensures { result ≡ is_there name fields.now }
{
    fields.iter().any(|field| is_named(name, field))
}

pub(crate) fn is_named(name: FieldName, field: &Field) -> bool
    ensures { result ≡ is_named name field.now }
{
    field.name.as_str() == label_of(name)
}
