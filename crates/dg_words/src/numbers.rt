//! Words that are numbers.
ghost use Rattle.std.specs.Prelude.{◌≡◌, ◌^◌, ◌≤◌, IfOk, MatchOption, true, option_map};
ghost use Rattle.std.specs.List.{list_all};
ghost use Rattle.std.specs.Char.{is_ascii_digit};
ghost use Rattle.std.specs.Str.Parse.{digits_value};
ghost use Rattle.dg_base.specs.Refusal.{Gives};
ghost use Rattle.dg_words.specs.Numbers.{is_number, number_in, number_of, option_of};

use crate::task::Usage;
use dg_base::Refusal;

fn are_digits(text: &[u8]) -> bool
    ensures { result ≡ list_all is_ascii_digit text.now }
{
    text.iter().all(|b| b.is_ascii_digit())
}

/// Whether a word is 1 to 20 digits.
fn is_number(text: &[u8]) -> bool
    ensures { result ≡ is_number text.now }
{
    1 <= text.len() && text.len() <= 20 && are_digits(text)
}

/// The number that digits spell; None for one of 65 bits or more.
fn value_of(text: &str) -> Option<u64>
    requires { is_number text.now ≡ true }
    ensures { MatchOption result (2 ^ 64 ≤ digits_value 10 text.now) (λ n. n ≡ digits_value 10 text.now) }
{
    text.parse::<u64>().ok()
}

/// A number from the least to the most.
fn number_in(text: &str, least: u64, most: u64) -> Result<u64, Refusal<Usage>>
    ensures number { Gives (λ n. n) result (number_in least most text.now) }
    ensures most { IfOk result (λ n. n ≤ most) }
{
    if !is_number(text.as_bytes()) {
        return Err(Refusal::Because(Usage));
    }
    match value_of(text) {
        Some(number) if least <= number && number <= most => Ok(number),
        _ => Err(Refusal::Because(Usage)),
    }
}

/// A number from the least to the most that has to stand there.
pub(crate) fn number_of(text: Option<&str>, least: u64, most: u64) -> Result<u64, Refusal<Usage>>
    ensures number { Gives (λ n. n) result (number_of least most (option_map (λ s. s.now) text.entry)) }
    ensures most { IfOk result (λ n. n ≤ most) }
{
    match text {
        Some(text) => number_in(text, least, most),
        None => Err(Refusal::Because(Usage)),
    }
}

/// A number from the least to the most, or the default where there is none.
pub(crate) fn option_of(
    text: Option<&str>,
    default: u32,
    least: u32,
    most: u32,
) -> Result<u32, Refusal<Usage>>
    ensures { Gives (λ n. n) result (option_of default least most (option_map (λ s. s.now) text.entry)) }
{
    match text {
        Some(text) => {
            let number = number_in(text, u64::from(least), u64::from(most))?;
            Ok(number as u32)
        }
        None => Ok(default),
    }
}
