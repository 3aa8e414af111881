//! How many billionths a number is, without its sign: the digits up to the last place that counts, and one digit
//! more that rounds them. No digit behind that one can change the answer.
ghost use Rattle.std.specs.Prelude.{◌≡◌, ◌+◌, ◌*◌, ◌^◌, ◌≤◌, ◌<◌, length, take, min, slice_index, ◌++◌};
ghost use Rattle.std.specs.Str.Parse.{AllDigits, digits_value, digits_value_after};
ghost use Rattle.dg_decimal.specs.Value.{numerator, denominator, nearest};

use crate::parts::Parts;

/// Magnitudes are told apart up to this one, which is outside the signed 64-bit numbers. An exponent that is as
/// large decides alone, since no text has as many digits.
pub(crate) const CAP: u128 = 10_000_000_000_000_000_000;

// How many powers of ten lead past `CAP` from 1.
const CAP_TENS: u128 = 19;

// The number of decimal places of a billionth.
const PLACES: u128 = 9;

impl Parts<'_> {
    /// Whether a minus stands first.
    pub(crate) fn is_negative(&self) -> bool
        ensures { result ≡ self.now.negative }
    {
        self.negative
    }

    /// The number in billionths without its sign, rounded once, halves up; capped. Its time is linear in the text.
    pub(crate) fn magnitude(&self) -> u128
        ensures { result ≡ min (nearest (numerator self.now) (denominator self.now)) CAP }
    {
        let exponent = grown(0, self.exponent);
        let places = self.fraction.len() as u128;
        if self.exponent_negative {
            self.scaled(PLACES, places + exponent)
        } else {
            self.scaled(PLACES + exponent, places)
        }
    }

    // All digits as one whole number, raised by so many powers of ten, lowered by so many, and rounded; capped.
    fn scaled(&self, up: u128, down: u128) -> u128
        ensures { result ≡ min (nearest (digits_value 10 (self.now.whole ++ self.now.fraction) * 10 ^ up) (10 ^ down)) CAP }
    {
        if down <= up {
            self.raised(up - down)
        } else {
            self.lowered(down - up)
        }
    }

    // The digits with so many zeros behind them; capped.
    fn raised(&self, tens: u128) -> u128
        ensures { result ≡ min (digits_value 10 (self.now.whole ++ self.now.fraction) * 10 ^ tens) CAP }
    {
        let power = 10u128.pow(tens.min(CAP_TENS) as u32);
        (self.front(self.len()) * power).min(CAP)
    }

    // The digits without so many at the end, rounded by the first that is left out; capped.
    fn lowered(&self, tens: u128) -> u128
        requires { 0 < tens }
        ensures { result ≡ min (nearest (digits_value 10 (self.now.whole ++ self.now.fraction)) (10 ^ tens)) CAP }
    {
        let all = self.len();
        if tens > all as u128 {
            return 0;
        }
        let kept = all - tens as usize;
        let front = self.front(kept);
        if self.digit(kept) < b'5' {
            front
        } else {
            (front + 1).min(CAP)
        }
    }

    // How many digits there are.
    fn len(&self) -> usize
        ensures len { result ≡ length self.now.whole + length self.now.fraction }
        ensures digits { AllDigits 10 (self.now.whole ++ self.now.fraction) }
    {
        self.whole.len() + self.fraction.len()
    }

    // The first digits as one whole number, capped.
    fn front(&self, count: usize) -> u128
        requires { count ≤ length self.now.whole + length self.now.fraction }
        ensures { result ≡ min (digits_value 10 (take count (self.now.whole ++ self.now.fraction))) CAP }
    {
        let whole = count.min(self.whole.len());
        let value = grown(0, &self.whole[..whole]);
        grown(value, &self.fraction[..count - whole])
    }

    // The digit at a place, of those before and behind the point.
    fn digit(&self, place: usize) -> u8
        requires { place < length self.now.whole + length self.now.fraction }
        ensures { result ≡ slice_index (self.now.whole ++ self.now.fraction) place }
    {
        if place < self.whole.len() {
            self.whole[place]
        } else {
            self.fraction[place - self.whole.len()]
        }
    }
}

// The number that the digits spell when they follow those of the value, capped.
fn grown(value: u128, digits: &[u8]) -> u128
    requires small { value ≤ CAP }
    requires digits { AllDigits 10 digits.now }
    ensures { result ≡ min (digits_value_after 10 value digits.now) CAP }
{
    let mut value = value;
    for digit in digits {
        value = (value * 10 + u128::from(*digit - b'0')).min(CAP);
    }
    value
}
