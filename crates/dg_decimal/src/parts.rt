//! A text taken apart: its signs, and its digits where they stand in the text.
ghost use Rattle.std.specs.Prelude.{◌≡◌, ◌≤◌, length, drop, MatchOption, true, false};
ghost use Rattle.std.specs.List.{list_all, prefix_len};
ghost use Rattle.std.specs.Char.{is_ascii_digit};
ghost use Rattle.std.specs.Str.Parse.{AllDigits};
ghost use Rattle.dg_decimal.specs.Reading.{begins_negative, after_sign, digits_in, after_digits, fraction_in, after_fraction, is_exponent_or_empty, number_in};

use std::marker::Model;

/// A number as its text spells it.
#[derive(Drop)]
pub(crate) struct Parts<'a> {
    pub(crate) negative: bool,
    pub(crate) whole: &'a [u8],
    pub(crate) fraction: &'a [u8],
    pub(crate) exponent_negative: bool,
    pub(crate) exponent: &'a [u8],
}

impl<'a> Model for Parts<'a> {
    ghost use Rattle.std.specs.Str.Parse.{AllDigits};
    ghost use Rattle.dg_decimal.specs.Form.{Number};

    ghost Value = { Number };

    ghost view = { λ p. record {
      negative = p.negative;
      whole = p.whole.now;
      fraction = p.fraction.now;
      exponent_negative = p.exponent_negative;
      exponent = p.exponent.now;
    } };

    ghost invariant = { λ p. AllDigits 10 p.whole.now × AllDigits 10 p.fraction.now × AllDigits 10 p.exponent.now };
}

/// Takes a text apart, where it is a number. It goes over each byte once.
#[tactic(auto, unfolding(crate::specs::Reading::number_in))]
pub(crate) fn parts_of(text: &[u8]) -> Option<Parts<'_>>
    ensures { result ≡ number_in text.now }
{
    let (negative, unsigned) = split_sign(text);
    let (whole, after_whole) = split_digits(unsigned);
    let (fraction, after_fraction) = split_fraction(after_whole);
    if whole.is_empty() && fraction.is_empty() {
        return None;
    }
    match split_exponent(after_fraction) {
        None => None,
        Some((exponent_negative, exponent)) => Some(Parts {
            negative,
            whole,
            fraction,
            exponent_negative,
            exponent,
        }),
    }
}

// Whether the text begins with a minus, and what follows its sign.
fn split_sign(text: &[u8]) -> (bool, &[u8])
    ensures negative { result.0 ≡ begins_negative text.now }
    ensures rest { result.1.now ≡ after_sign text.now }
{
    match text {
        [b'-', rest @ ..] => (true, rest),
        [b'+', rest @ ..] => (false, rest),
        _ => (false, text),
    }
}

// The digits that the text begins with, and what follows them.
fn split_digits(text: &[u8]) -> (&[u8], &[u8])
    ensures digits { result.0.now ≡ digits_in text.now }
    ensures rest { result.1.now ≡ after_digits text.now }
    ensures all { AllDigits 10 result.0.now }
{
    text.split_at(digit_count(text))
}

fn digit_count(text: &[u8]) -> usize
    ensures count { result ≡ prefix_len is_ascii_digit text.now }
    ensures within { result ≤ length text.now }
{
    text.iter().take_while(|byte| byte.is_ascii_digit()).count()
}

// The digits behind a point that the text begins with, and what follows them.
fn split_fraction(text: &[u8]) -> (&[u8], &[u8])
    ensures digits { result.0.now ≡ fraction_in text.now }
    ensures rest { result.1.now ≡ after_fraction text.now }
    ensures all { AllDigits 10 result.0.now }
{
    match text {
        [b'.', rest @ ..] => split_digits(rest),
        _ => (&[], text),
    }
}

// The sign and the digits of a text that is nothing but an exponent, or is empty.
fn split_exponent(text: &[u8]) -> Option<(bool, &[u8])>
    ensures { MatchOption result (is_exponent_or_empty text.now ≡ false) (λ r.
        (is_exponent_or_empty text.now ≡ true) × (r.0 ≡ begins_negative (drop 1 text.now))
        × (r.1.now ≡ after_sign (drop 1 text.now)) × AllDigits 10 r.1.now) }
{
    match text {
        [] => Some((false, &[])),
        [b'e' | b'E', rest @ ..] => {
            let (negative, digits) = split_sign(rest);
            if digits.is_empty() || !are_digits(digits) {
                return None;
            }
            Some((negative, digits))
        }
        _ => None,
    }
}

fn are_digits(text: &[u8]) -> bool
    ensures { result ≡ list_all is_ascii_digit text.now }
{
    text.iter().all(|byte| byte.is_ascii_digit())
}
