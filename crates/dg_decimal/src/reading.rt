//! Reading a text.
ghost use Rattle.std.specs.Prelude.{◌≡◌, ◌↔◌, ◌<◌, ◌^◌, IsTrue, SomeIff, Err};
ghost use Rattle.dg_decimal.specs.Form.{Number, Spells};
ghost use Rattle.dg_decimal.specs.Value.{billionths, with_sign, fits};
ghost use Rattle.dg_decimal.specs.Reading.{reading, in_range};

use crate::parts::parts_of;
use crate::refusal::DecimalRefusal;

/// Reads a decimal number as a count of billionths.
///
/// A number is an optional sign, digits with an optional point and more digits or none, or a point and at least one
/// digit, and then optionally `e` or `E`, an optional sign and at least one digit. Its exact value is rounded once to
/// a whole number of billionths, halves away from zero.
///
/// Any other text is [`DecimalRefusal::NotNumber`], and a number whose rounded value is outside the signed 64-bit
/// numbers is [`DecimalRefusal::Range`]. The time is linear in the text, whatever its exponent says, and no memory is
/// taken.
#[tactic(auto, using(crate::proofs::Grammar::refusals))]
pub fn read(text: &str) -> Result<i64, DecimalRefusal>
    ensures answer { result ≡ reading text.now }

    // The form and the value by the grammar: every number that the text spells is read, and only where it spells none
    // is it no number.
    ensures number { (n : Number) → Spells text.now n → result ≡ in_range (billionths n) }
    ensures not_number { (result ≡ Err DecimalRefusal.NotNumber) ↔ ¬ ((n : Number) × Spells text.now n) }
{
    read_bytes(text.as_bytes())
}

fn read_bytes(text: &[u8]) -> Result<i64, DecimalRefusal>
    ensures { result ≡ reading text.now }
{
    let Some(parts) = parts_of(text) else {
        return Err(DecimalRefusal::NotNumber);
    };
    match signed(parts.is_negative(), parts.magnitude()) {
        Some(value) => Ok(value),
        None => Err(DecimalRefusal::Range),
    }
}

/// The number with this sign and magnitude, where it is a signed 64-bit number.
pub(crate) fn signed(negative: bool, magnitude: u128) -> Option<i64>
    requires { magnitude < 2 ^ 127 }
    ensures { SomeIff result (IsTrue (fits (with_sign negative magnitude))) (with_sign negative magnitude) }
{
    let magnitude = magnitude as i128;
    i64::try_from(if negative { -magnitude } else { magnitude }).ok()
}
