//! The text of a value.
ghost use Rattle.std.specs.Prelude.{◌≡◌, ◌++◌, cond, codes, OnOk};
ghost use Rattle.dg_report.specs.Text.{property_text, value_text, field_text, list_text, record_text};

use crate::parts::{put_label, put_number, put_quat, put_vec3, type_word};
use dg_base::{Datum, FieldOf, Names, PropVal};
use dg_text::put_quoted;
use std::alloc::AllocError;

/// The value's text, in time linear in it. It is a recursion as deep as lists and records lie in one
/// another, which how values are made bounds.
#[cycle(values)]
pub(crate) fn put_value(out: &mut Vec<u8>, value: &Datum, names: &Names) -> Result<(), AllocError>
    ensures { OnOk result (out.new.items ≡ out.old.items ++ value_text names.now value.now) }
{
    match value {
        Datum::Nil => out.extend_from_slice(b"nil"),
        Datum::Flag(flag) => put_flag(out, *flag),
        Datum::Dec(number) => put_number(out, number),
        Datum::Text(text) => put_quoted(out, text.as_str()),
        Datum::Vec3(v) => put_vec3(out, v),
        Datum::Quat(v) => put_quat(out, v),
        Datum::Prop(prop) => put_property(out, prop, names),
        Datum::List(items) => put_items(out, items.as_slice(), names),
        Datum::Rec(fields) => put_fields(out, fields.as_slice(), names),
    }
}

fn put_flag(out: &mut Vec<u8>, flag: bool) -> Result<(), AllocError>
    ensures { OnOk result (out.new.items ≡ out.old.items ++ cond flag (codes "true") (codes "false")) }
{
    out.extend_from_slice(if flag { "true" } else { "false" }.as_bytes())
}

/// The name, the type word and the quoted text.
fn put_property(out: &mut Vec<u8>, prop: &PropVal, names: &Names) -> Result<(), AllocError>
    ensures { OnOk result (out.new.items ≡ out.old.items ++ property_text names.now prop.now) }
{
    put_label(out, prop.name, names)?;
    out.push(b' ')?;
    out.extend_from_slice(type_word(prop.ptype).as_bytes())?;
    out.push(b' ')?;
    put_quoted(out, prop.text.as_str())
}

#[cycle(values)]
fn put_items(out: &mut Vec<u8>, items: &[Datum], names: &Names) -> Result<(), AllocError>
    ensures { OnOk result (out.new.items ≡ out.old.items ++ list_text names.now items.now) }
{
    out.push(b'(')?;
    if let Some((first, rest)) = items.split_first() {
        put_value(out, first, names)?;
        for item in rest {
            out.extend_from_slice(b", ")?;
            put_value(out, item, names)?;
        }
    }
    out.push(b')')?;
    Ok(())
}

#[cycle(values)]
fn put_fields(out: &mut Vec<u8>, fields: &[FieldOf], names: &Names) -> Result<(), AllocError>
    ensures { OnOk result (out.new.items ≡ out.old.items ++ record_text names.now fields.now) }
{
    out.push(b'{')?;
    if let Some((first, rest)) = fields.split_first() {
        put_field(out, first, names)?;
        for field in rest {
            out.extend_from_slice(b", ")?;
            put_field(out, field, names)?;
        }
    }
    out.push(b'}')?;
    Ok(())
}

#[cycle(values)]
fn put_field(out: &mut Vec<u8>, field: &FieldOf, names: &Names) -> Result<(), AllocError>
    ensures { OnOk result (out.new.items ≡ out.old.items ++ field_text names.now field.now) }
{
    put_label(out, field.label, names)?;
    out.extend_from_slice(b": ")?;
    put_value(out, &field.value, names)
}
