//! The forms of words: names, nodes, kinds, types, numbers. A word of another form is the code Value.
ghost use Rattle.std.specs.Prelude.{◌≡◌, ◌<◌, ◌^◌, ◌≤◌, true, Ok, count_by};
ghost use Rattle.std.specs.Char.{is_ascii_digit};
ghost use Rattle.std.specs.List.{list_all};
ghost use Rattle.dg_base.specs.Refusal.{Gives};
ghost use Rattle.dg_script.specs.Forms.{name_of, is_now, pin_name_of, pin_of, is_at, is_node, node_of, kind_of, type_named, type_of, is_bare, decimal_of, is_number, number_from, count_of, switch_of};

use crate::command::ScriptCode;
use crate::words::Word;
use dg_base::{Kind, PType, Refusal, Str};
use dg_labels::kind_named;
use dg_text::is_name;

/// Whether the word stands there without quotes.
pub(crate) fn is_bare(word: &Word, name: &str) -> bool
    ensures { result ≡ is_bare word.now name.now }
{
    !word.quoted && word.text.as_str() == name
}

fn is_now(text: &str) -> bool
    ensures { result ≡ is_now text.now }
{
    text == "now"
}

/// A name: an ASCII letter or `_`, and then such characters and digits.
pub(crate) fn name_of(word: &Word) -> Result<Str, Refusal<ScriptCode>>
    ensures { Gives (λ x. x) result (name_of word.now.text) }
{
    if !is_name(word.text.as_str()) {
        return Err(Refusal::Because(ScriptCode::Value));
    }
    Ok(word.text.copy()?)
}

/// The name of a pin, which isn't `now`.
pub(crate) fn pin_name_of(word: &Word) -> Result<Str, Refusal<ScriptCode>>
    ensures { Gives (λ x. x) result (pin_name_of word.now.text) }
{
    if !is_name(word.text.as_str()) || is_now(word.text.as_str()) {
        return Err(Refusal::Because(ScriptCode::Value));
    }
    Ok(word.text.copy()?)
}

/// The pin that is asked, or None for `now`.
pub(crate) fn pin_of(word: &Word) -> Result<Option<Str>, Refusal<ScriptCode>>
    ensures { Gives (λ x. x) result (pin_of word.now.text) }
{
    if is_now(word.text.as_str()) {
        return Ok(None);
    }
    let name = name_of(word)?;
    Ok(Some(name))
}

fn at_count(text: &str) -> usize
    ensures { result ≡ count_by is_at text.now }
{
    text.as_bytes().iter().filter(|b| **b == b'@').count()
}

pub(crate) fn is_node(text: &str) -> bool
    ensures { result ≡ is_node text.now }
{
    at_count(text) <= 64
}

/// A node: any word with at most 64 `@`.
pub(crate) fn node_of(word: &Word) -> Result<Str, Refusal<ScriptCode>>
    ensures { Gives (λ x. x) result (node_of word.now.text) }
{
    if !is_node(word.text.as_str()) {
        return Err(Refusal::Because(ScriptCode::Value));
    }
    Ok(word.text.copy()?)
}

/// The kind of this name.
pub(crate) fn kind_of(word: &Word) -> Result<Kind, Refusal<ScriptCode>>
    ensures { Gives (λ x. x) result (kind_of word.now.text) }
{
    match kind_named(word.text.as_str()) {
        Some(kind) => Ok(kind),
        None => Err(Refusal::Because(ScriptCode::Value)),
    }
}

fn type_named(text: &str) -> Option<PType>
    ensures { result ≡ type_named text.now }
{
    match text {
        "number" => Some(PType::Number),
        "hash" => Some(PType::Hash),
        "url" => Some(PType::Url),
        "vector3" => Some(PType::Vector3),
        "vector4" => Some(PType::Vector4),
        "quat" => Some(PType::Quat),
        "boolean" => Some(PType::Boolean),
        _ => None,
    }
}

/// The type of this name, without quotes.
pub(crate) fn type_of(word: &Word) -> Result<PType, Refusal<ScriptCode>>
    ensures { Gives (λ x. x) result (type_of word.now) }
{
    if word.quoted {
        return Err(Refusal::Because(ScriptCode::Value));
    }
    match type_named(word.text.as_str()) {
        Some(ptype) => Ok(ptype),
        None => Err(Refusal::Because(ScriptCode::Value)),
    }
}

/// A decimal without quotes, in billionths.
pub(crate) fn decimal_of(word: &Word) -> Result<i64, Refusal<ScriptCode>>
    ensures { Gives (λ x. x) result (decimal_of word.now) }
{
    if word.quoted {
        return Err(Refusal::Because(ScriptCode::Value));
    }
    match dg_decimal::read(word.text.as_str()) {
        Ok(value) => Ok(value),
        Err(_) => Err(Refusal::Because(ScriptCode::Value)),
    }
}

fn are_digits(text: &[u8]) -> bool
    ensures { result ≡ list_all is_ascii_digit text.now }
{
    text.iter().all(|b| b.is_ascii_digit())
}

fn is_number(text: &[u8]) -> bool
    ensures { result ≡ is_number text.now }
{
    1 <= text.len() && text.len() <= 20 && are_digits(text)
}

/// The number that 1 to 20 digits spell.
fn number_of(digits: &[u8]) -> u128
    requires { is_number digits.now ≡ true }
    ensures { result ≡ number_from 0 digits.now }
{
    let mut number = 0u128;
    for digit in digits {
        number = number * 10 + u128::from(*digit - b'0');
    }
    number
}

/// A number from 0 to 1,000,000 in 1 to 20 digits.
pub(crate) fn count_of(word: &Word) -> Result<u32, Refusal<ScriptCode>>
    ensures { Gives (λ x. x) result (count_of word.now.text) }
{
    if !is_number(word.text.as_str().as_bytes()) {
        return Err(Refusal::Because(ScriptCode::Value));
    }
    let number = number_of(word.text.as_str().as_bytes());
    if number <= 1_000_000 {
        Ok(number as u32)
    } else {
        Err(Refusal::Because(ScriptCode::Value))
    }
}

/// Whether the word is `on`, and not `off`.
pub(crate) fn switch_of(word: &Word) -> Result<bool, Refusal<ScriptCode>>
    ensures { Gives (λ x. x) result (switch_of word.now.text) }
{
    match word.text.as_str() {
        "on" => Ok(true),
        "off" => Ok(false),
        _ => Err(Refusal::Because(ScriptCode::Value)),
    }
}
