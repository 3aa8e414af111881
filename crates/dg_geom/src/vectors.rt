//! Numbers and vectors. Each result is in 64 bits, or refused.
ghost use Rattle.std.specs.Prelude.{◌≡◌, ◌+ℤ◌, ◌-ℤ◌, ◌≤◌, ◌^◌, ℤ, OkIff, IsTrue, unsigned_abs};
ghost use Rattle.dg_decimal.specs.Arithmetic.{product};
ghost use Rattle.dg_geom.specs.Fit.{fits3, fits4, IsNarrowed};
ghost use Rattle.dg_geom.specs.Vectors.{vector, sum, difference, scaled, cross_plus, cross_minus};

use dg_base::{V3, V4};
use dg_decimal::{Range, mul};

/// The product, rounded once.
pub(crate) fn product(a: i64, b: i64) -> Result<i64, Range>
    ensures { IsNarrowed result (product a b) }
{
    mul(a, b)
}

/// The number in 64 bits.
pub(crate) fn narrowed(number: i128) -> Result<i64, Range>
    ensures { IsNarrowed result number }
{
    match i64::try_from(number) {
        Ok(number) => Ok(number),
        Err(_) => Err(Range),
    }
}

/// The exact sum.
pub(crate) fn wide_sum(a: i64, b: i64) -> i128
    ensures value { result ≡ a +ℤ b }
    ensures small { unsigned_abs result ≤ 2 ^ 64 }
{
    i128::from(a) + i128::from(b)
}

/// The exact difference.
pub(crate) fn wide_difference(a: i64, b: i64) -> i128
    ensures value { result ≡ a -ℤ b }
    ensures small { unsigned_abs result ≤ 2 ^ 64 }
{
    i128::from(a) - i128::from(b)
}

/// The sum of two sums or differences.
pub(crate) fn added(a: i128, b: i128) -> Result<i64, Range>
    requires a { unsigned_abs a ≤ 2 ^ 64 }
    requires b { unsigned_abs b ≤ 2 ^ 64 }
    ensures { IsNarrowed result (a +ℤ b) }
{
    narrowed(a + b)
}

/// The difference of two sums or differences.
pub(crate) fn taken(a: i128, b: i128) -> Result<i64, Range>
    requires a { unsigned_abs a ≤ 2 ^ 64 }
    requires b { unsigned_abs b ≤ 2 ^ 64 }
    ensures { IsNarrowed result (a -ℤ b) }
{
    narrowed(a - b)
}

/// The vector of three numbers, where none is refused.
pub(crate) fn vector_of(
    x: Result<i64, Range>,
    y: Result<i64, Range>,
    z: Result<i64, Range>,
) -> Result<V3, Range>
    ensures { (v : V3) → IsNarrowed x v.x → IsNarrowed y v.y → IsNarrowed z v.z → OkIff result (IsTrue (fits3 v)) v }
{
    Ok(V3 {
        x: x?,
        y: y?,
        z: z?,
    })
}

/// The vector of four numbers, where none is refused.
pub(crate) fn vector4_of(
    x: Result<i64, Range>,
    y: Result<i64, Range>,
    z: Result<i64, Range>,
    w: Result<i64, Range>,
) -> Result<V4, Range>
    ensures { (v : V4) → IsNarrowed x v.x → IsNarrowed y v.y → IsNarrowed z v.z → IsNarrowed w v.w → OkIff result (IsTrue (fits4 v)) v }
{
    Ok(V4 {
        x: x?,
        y: y?,
        z: z?,
        w: w?,
    })
}

/// The sum, component by component.
pub(crate) fn sum(a: V3, b: V3) -> Result<V3, Range>
    ensures { OkIff result (IsTrue (fits3 (sum a b))) (sum a b) }
{
    vector_of(
        narrowed(wide_sum(a.x, b.x)),
        narrowed(wide_sum(a.y, b.y)),
        narrowed(wide_sum(a.z, b.z)),
    )
}

/// The difference, component by component.
pub(crate) fn difference(a: V3, b: V3) -> Result<V3, Range>
    ensures { OkIff result (IsTrue (fits3 (difference a b))) (difference a b) }
{
    vector_of(
        narrowed(wide_difference(a.x, b.x)),
        narrowed(wide_difference(a.y, b.y)),
        narrowed(wide_difference(a.z, b.z)),
    )
}

/// The product, component by component.
pub(crate) fn scaled(a: V3, b: V3) -> Result<V3, Range>
    ensures { OkIff result (IsTrue (fits3 (scaled a b))) (scaled a b) }
{
    vector_of(product(a.x, b.x), product(a.y, b.y), product(a.z, b.z))
}

/// The products of a cross product that are added.
pub(crate) fn cross_plus(a: V3, b: V3) -> Result<V3, Range>
    ensures { OkIff result (IsTrue (fits3 (cross_plus a b))) (cross_plus a b) }
{
    scaled(shifted(a), shifted(shifted(b)))
}

/// The products of a cross product that are taken away.
pub(crate) fn cross_minus(a: V3, b: V3) -> Result<V3, Range>
    ensures { OkIff result (IsTrue (fits3 (cross_minus a b))) (cross_minus a b) }
{
    scaled(shifted(shifted(a)), shifted(b))
}

// Each component in the place of the one before it.
fn shifted(a: V3) -> V3
    ensures { result ≡ vector a.y a.z a.x }
{
    V3 {
        x: a.y,
        y: a.z,
        z: a.x,
    }
}
