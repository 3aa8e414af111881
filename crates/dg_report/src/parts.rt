//! The parts of a printed answer: numbers, labels, endpoints, codes, type words, vectors.
ghost use Rattle.std.specs.Prelude.{◌≡◌, ◌++◌, OnOk};
ghost use Rattle.std.specs.Option.{option_map};
ghost use Rattle.std.specs.Fmt.{decimal};
ghost use Rattle.dg_report.specs.Parts.{name_of, label_text, mark_of, endpoint_text, code_text, type_word, number_text, next_text, vec3_text, quat_text};

use dg_base::{Endpoint, FaultCode, Label, Names, PType, V3, V4};
use dg_labels::label_name;
use itoa::Buffer;
use std::alloc::AllocError;

/// The label's name: an open one's is the interned text, another's the schema's.
#[tactic(auto, unfolding(crate::specs::Parts::name_of))]
pub fn name_of(label: Label, names: &Names) -> Option<&str>
    ensures { option_map (λ t. t.now) result ≡ name_of names.now label }
{
    if label.is_open() {
        names.text(label)
    } else {
        label_name(label)
    }
}

/// The label's name, or its number where it has none.
pub(crate) fn put_label(out: &mut Vec<u8>, label: Label, names: &Names) -> Result<(), AllocError>
    ensures { OnOk result (out.new.items ≡ out.old.items ++ label_text names.now label) }
{
    match name_of(label, names) {
        Some(name) => out.extend_from_slice(name.as_bytes()),
        None => out.extend_from_slice(Buffer::new().format(label.0).as_bytes()),
    }
}

fn mark_of(label: Label) -> u8
    ensures { result ≡ mark_of label }
{
    if label.is_open() { b':' } else { b'.' }
}

/// The node's id, a mark, and the label: `.` before one of the schema, `:` before an open one.
pub(crate) fn put_endpoint(out: &mut Vec<u8>, at: Endpoint, names: &Names) -> Result<(), AllocError>
    ensures { OnOk result (out.new.items ≡ out.old.items ++ endpoint_text names.now at) }
{
    out.extend_from_slice(Buffer::new().format(at.node.0).as_bytes())?;
    out.push(mark_of(at.label))?;
    put_label(out, at.label, names)
}

/// Puts a number of billionths behind what is there, as a decimal.
#[tactic(auto, unfolding(crate::specs::Parts::number_text))]
pub fn put_number(out: &mut Vec<u8>, number: &i64) -> Result<(), AllocError>
    ensures { OnOk result (out.new.items ≡ out.old.items ++ number_text number.now) }
{
    out.extend_from_slice(dg_decimal::print(*number).as_str().as_bytes())
}

/// A comma, a blank and the number.
fn put_next(out: &mut Vec<u8>, number: &i64) -> Result<(), AllocError>
    ensures { OnOk result (out.new.items ≡ out.old.items ++ next_text number.now) }
{
    out.extend_from_slice(b", ")?;
    put_number(out, number)
}

pub(crate) fn put_vec3(out: &mut Vec<u8>, v: &V3) -> Result<(), AllocError>
    ensures { OnOk result (out.new.items ≡ out.old.items ++ vec3_text v.now.x v.now.y v.now.z) }
{
    out.push(b'[')?;
    put_number(out, &v.x)?;
    put_next(out, &v.y)?;
    put_next(out, &v.z)?;
    out.push(b']')?;
    Ok(())
}

pub(crate) fn put_quat(out: &mut Vec<u8>, v: &V4) -> Result<(), AllocError>
    ensures { OnOk result (out.new.items ≡ out.old.items ++ quat_text v.now.x v.now.y v.now.z v.now.w) }
{
    out.push(b'[')?;
    put_number(out, &v.x)?;
    put_next(out, &v.y)?;
    put_next(out, &v.z)?;
    put_next(out, &v.w)?;
    out.push(b']')?;
    Ok(())
}

pub(crate) fn code_text(code: FaultCode) -> &'static str
    ensures { result.now ≡ code_text code }
{
    match code {
        FaultCode::NoEndpoint => "NoEndpoint",
        FaultCode::Defective => "Defective",
        FaultCode::Range => "Range",
        FaultCode::NoResource => "NoResource",
        FaultCode::DuplicateId => "DuplicateId",
        FaultCode::PropType => "PropType",
        FaultCode::BadName => "BadName",
        FaultCode::TooLong => "TooLong",
    }
}

/// The word of a property's type.
pub fn type_word(ptype: PType) -> &'static str
    ensures { result.now ≡ type_word ptype }
{
    match ptype {
        PType::Number => "number",
        PType::Hash => "hash",
        PType::Url => "url",
        PType::Vector3 => "vector3",
        PType::Vector4 => "vector4",
        PType::Quat => "quat",
        PType::Boolean => "boolean",
    }
}
