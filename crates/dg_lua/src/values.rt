//! Values.
ghost use Rattle.std.specs.Prelude.{◌≡◌, ℕ, IfOk, string_bytes, option_map};
ghost use Rattle.dg_decimal.specs.Reading.{reading};
ghost use Rattle.dg_lua.specs.Parts.{Taken, taken};
ghost use Rattle.dg_lua.specs.Values.{Valued, typed, is_read, decimal_in, one_more, more, decimals_in, others_of, preset_of, vector_in, resource_in, of_type, plain_in, value_in};

use crate::parts::{
    Run, argument_in, argument_or_none, behind, behind_blanks, behind_bracket, closed, split_run,
};
use dg_base::{PType, Str};
use std::alloc::{AllocError, Global};

/// A value with its type, and what stands behind it.
#[derive(Drop)]
pub(crate) struct Value<'a> {
    pub(crate) ptype: PType,
    pub(crate) text: Str,
    pub(crate) rest: &'a str,
}

// The run of bytes of a decimal, where it is one, and what stands behind it.
fn decimal_in(text: &str) -> Option<(&str, &str)>
    ensures { option_map (λ p. taken p.0.now p.1.now) result ≡ decimal_in text.now }
{
    let (front, rest) = split_run(Run::Decimal, text);
    match dg_decimal::read(front) {
        Ok(_) => Some((front, rest)),
        Err(_) => None,
    }
}

// One more decimal behind a comma, which is joined to what was found.
fn one_more<'a>(found: &mut String, text: &'a str) -> Result<Option<&'a str>, AllocError>
    ensures { IfOk result (λ rest. option_map (λ r. taken (string_bytes found.new) r.now) rest ≡ one_more (taken (string_bytes found.old) text.now)) }
{
    let Some(rest) = behind(",", behind_blanks(text)) else {
        return Ok(None);
    };
    let Some((decimal, rest)) = decimal_in(behind_blanks(rest)) else {
        return Ok(None);
    };
    found.push_str(", ")?;
    found.push_str(decimal)?;
    Ok(Some(rest))
}

// So many more of them.
#[tactic(auto, using(crate::proofs::Vectors::more_next))]
fn more<'a>(count: u32, found: &mut String, text: &'a str) -> Result<Option<&'a str>, AllocError>
    ensures { IfOk result (λ rest. option_map (λ r. taken (string_bytes found.new) r.now) rest ≡ more count (taken (string_bytes found.old) text.now)) }
{
    if count == 0 {
        return Ok(Some(text));
    }
    match one_more(found, text)? {
        Some(rest) => more(count - 1, found, rest),
        None => Ok(None),
    }
}

// Behind an opening bracket: a decimal, so many more, and the bracket that closes.
fn decimals_in<'a>(
    alloc: Global,
    count: u32,
    text: &'a str,
) -> Result<Option<(String, &'a str)>, AllocError>
    ensures { IfOk result (λ found. option_map (λ f. taken (string_bytes f.0) f.1.now) found ≡ decimals_in count text.now) }
{
    let Some((first, rest)) = decimal_in(behind_blanks(text)) else {
        return Ok(None);
    };
    let mut found = String::from_str(alloc, first)?;
    let Some(rest) = more(count, &mut found, rest)? else {
        return Ok(None);
    };
    match behind_bracket(rest) {
        Some(rest) => Ok(Some((found, rest))),
        None => Ok(None),
    }
}

fn others_of(ptype: PType) -> u32
    ensures { result ≡ others_of ptype }
{
    match ptype {
        PType::Vector3 => 2,
        _ => 3,
    }
}

fn preset_of(ptype: PType) -> &'static str
    ensures { result.now ≡ preset_of ptype }
{
    match ptype {
        PType::Vector3 => "0, 0, 0",
        PType::Quat => "0, 0, 0, 1",
        _ => "0, 0, 0, 0",
    }
}

// Behind the opening bracket of a vector: nothing, or its decimals.
fn vector_in<'a>(
    alloc: Global,
    ptype: PType,
    text: &'a str,
) -> Result<Option<Value<'a>>, AllocError>
    ensures { IfOk result (λ found. option_map (λ v. record { ptype = v.ptype; text = v.text; behind = v.rest.now }) found ≡ of_type ptype (vector_in ptype text.now)) }
{
    if let Some(rest) = behind_bracket(text) {
        let text = Str::of(String::from_str(alloc, preset_of(ptype))?);
        return Ok(Some(Value { ptype, text, rest }));
    }
    match decimals_in(alloc, others_of(ptype), text)? {
        Some((text, rest)) => Ok(Some(Value {
            ptype,
            text: Str::of(text),
            rest,
        })),
        None => Ok(None),
    }
}

// Behind `resource.`: a name, and an argument.
fn resource_in(text: &str) -> Option<(&str, &str)>
    ensures { option_map (λ p. taken p.0.now p.1.now) result ≡ resource_in text.now }
{
    let (name, rest) = split_run(Run::Letters, text);
    if name.is_empty() {
        return None;
    }
    argument_or_none(behind("(", rest)?)
}

// A value that stands in the line as it is: its type, its text, and what stands behind it.
fn plain_in(text: &str) -> Option<(PType, &str, &str)>
    ensures { option_map (λ p. typed p.0 (taken p.1.now p.2.now)) result ≡ plain_in text.now }
{
    if let Some(rest) = behind("true", text) {
        return Some((PType::Boolean, "true", rest));
    }
    if let Some(rest) = behind("false", text) {
        return Some((PType::Boolean, "false", rest));
    }
    if let Some(rest) = behind("hash(", text) {
        return of_type(PType::Hash, argument_in(rest));
    }
    if let Some(rest) = behind("msg.url(", text) {
        return of_type(PType::Url, argument_or_none(rest));
    }
    if let Some(rest) = behind("resource.", text) {
        return of_type(PType::Hash, resource_in(rest));
    }
    of_type(PType::Number, decimal_in(text))
}

fn of_type<'a>(ptype: PType, found: Option<(&'a str, &'a str)>) -> Option<(PType, &'a str, &'a str)>
    ensures { option_map (λ p. typed p.0 (taken p.1.now p.2.now)) result ≡ of_type ptype (option_map (λ p. taken p.0.now p.1.now) found.entry) }
{
    match found {
        Some((text, rest)) => Some((ptype, text, rest)),
        None => None,
    }
}

/// The value that the text begins with, and what stands behind it. It takes time linear in what it takes.
pub(crate) fn value_in(alloc: Global, text: &str) -> Result<Option<Value<'_>>, AllocError>
    ensures { IfOk result (λ found. option_map (λ v. record { ptype = v.ptype; text = v.text; behind = v.rest.now }) found ≡ value_in text.now) }
{
    if let Some(rest) = behind("vmath.vector3(", text) {
        return vector_in(alloc, PType::Vector3, rest);
    }
    if let Some(rest) = behind("vmath.vector4(", text) {
        return vector_in(alloc, PType::Vector4, rest);
    }
    if let Some(rest) = behind("vmath.quat(", text) {
        return vector_in(alloc, PType::Quat, rest);
    }
    match plain_in(text) {
        Some((ptype, text, rest)) => Ok(Some(Value {
            ptype,
            text: Str::of(String::from_str(alloc, text)?),
            rest,
        })),
        None => Ok(None),
    }
}
