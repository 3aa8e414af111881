//! Printing a value.
ghost use Rattle.std.specs.Prelude.{◌≡◌, ◌+◌, ◌^◌, ◌≤◌, ◌<◌, [], ◌∷◌, ◌++◌, length};
ghost use Rattle.arrayvec.specs.ArrayString.{array_string_len};
ghost use Rattle.dg_decimal.specs.Canonical.{canonical, magnitude_text, fraction_text, fraction_digits};

use arrayvec::ArrayString;
use itoa::Buffer;
use std::fmt;
use std::marker::Model;

// How many billionths one is.
const BILLION: u64 = 1_000_000_000;

// The room for the longest text, `-9223372036.854775808`.
const ROOM: usize = 21;

/// A printed value. It holds its bytes itself, at most 21, and takes no memory.
#[derive(Clone, Debug, Drop)]
pub struct DecimalText {
    text: ArrayString<ROOM>,
}

impl Model for DecimalText {
    ghost use Rattle.std.specs.Prelude.{ℕ, List};

    ghost Value = { List ℕ };

    ghost view = { λ t. t.text.bytes };
}

impl DecimalText {
    /// The text.
    pub fn as_str(&self) -> &str
        ensures text { result.now ≡ self.now }
        ensures short { length result.now ≤ 21 }
    {
        self.text.as_str()
    }
}

impl fmt::Display for DecimalText {
    ghost use Rattle.std.specs.Prelude.{Some};

    ghost output = { λ t. Some t };

    fn fmt<W: fmt::Write>(&self, f: &mut fmt::Formatter<W>) -> fmt::Result {
        f.pad(self.as_str())
    }
}

/// Prints a number of billionths as its one canonical text: `-` where it is negative, the whole part, and, where the
/// rest is not 0, a point and at most nine digits, of which the last is not 0.
pub fn print(value: i64) -> DecimalText
    ensures { result ≡ canonical value }
{
    let mut text = ArrayString::new();
    if value < 0 {
        text.push('-');
    }
    push_magnitude(&mut text, value.unsigned_abs());
    DecimalText { text }
}

// The whole part and the fraction of a value without its sign.
fn push_magnitude(text: &mut ArrayString<ROOM>, magnitude: u64)
    requires small { magnitude ≤ 2 ^ 63 }
    requires room { array_string_len text.old ≤ 1 }
    ensures { text.new.bytes ≡ text.old.bytes ++ magnitude_text magnitude }
{
    text.push_str(Buffer::new().format(magnitude / BILLION));
    push_fraction(text, magnitude % BILLION);
}

// The point and the digits behind it, where the rest is not 0.
fn push_fraction(text: &mut ArrayString<ROOM>, rest: u64)
    requires below_one { rest < 10 ^ 9 }
    requires room { array_string_len text.old + 10 ≤ 21 }
    ensures { text.new.bytes ≡ text.old.bytes ++ fraction_text rest }
{
    if rest > 0 {
        text.push('.');
        push_digits(text, rest);
    }
}

// The digits of a rest below one, up to the last that is not 0.
fn push_digits(text: &mut ArrayString<ROOM>, rest: u64)
    requires below_one { rest < 10 ^ 9 }
    requires room { array_string_len text.old + 9 ≤ 21 }
    ensures { text.new.bytes ≡ text.old.bytes ++ fraction_digits rest }
{
    let mut left = rest;
    let mut places: u32 = 9;
    while left > 0 {
        places -= 1;
        let unit = 10u64.pow(places);
        push_digit(text, (left / unit) as u8);
        left %= unit;
    }
}

fn push_digit(text: &mut ArrayString<ROOM>, digit: u8)
    requires digit { digit < 10 }
    requires room { array_string_len text.old < 21 }
    ensures { text.new.bytes ≡ text.old.bytes ++ (48 + digit) ∷ [] }
{
    text.push(char::from(b'0' + digit));
}
