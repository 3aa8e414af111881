//! Sums and products of values.
ghost use Rattle.std.specs.Prelude.{◌≡◌, ◌^◌, ◌<◌, ◌≤◌, ◌+ℤ◌, ◌*ℤ◌, OkIff, FitsSigned, unsigned_abs};
ghost use Rattle.std.specs.Int.{w64};
ghost use Rattle.dg_decimal.specs.Value.{billion, nearest};
ghost use Rattle.dg_decimal.specs.Arithmetic.{product};

use crate::reading::signed;
use crate::refusal::Range;

// How many billionths one is.
const BILLION: u128 = 1_000_000_000;

/// The product of two numbers of billionths, exact and then rounded once to a whole number of billionths, halves away
/// from zero; `Range` where that is outside the signed 64-bit numbers.
pub fn mul(a: i64, b: i64) -> Result<i64, Range>
    ensures { OkIff result (FitsSigned w64 (product a b)) (product a b) }
{
    let exact = exact_product(a, b);
    match signed(exact < 0, nearest_over_billion(exact.unsigned_abs())) {
        Some(value) => Ok(value),
        None => Err(Range),
    }
}

fn exact_product(a: i64, b: i64) -> i128
    ensures value { result ≡ a *ℤ b }
    ensures small { unsigned_abs result ≤ 2 ^ 126 }
{
    i128::from(a) * i128::from(b)
}

fn nearest_over_billion(magnitude: u128) -> u128
    requires { magnitude ≤ 2 ^ 126 }
    ensures value { result ≡ nearest magnitude billion }
    ensures small { result < 2 ^ 127 }
{
    (2 * magnitude + BILLION) / (2 * BILLION)
}

/// The exact sum of two numbers of billionths; `Range` where it is outside the signed 64-bit numbers.
pub fn add(a: i64, b: i64) -> Result<i64, Range>
    ensures { OkIff result (FitsSigned w64 (a +ℤ b)) (a +ℤ b) }
{
    a.checked_add(b).ok_or(Range)
}
