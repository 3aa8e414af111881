//! Rotations, as quaternions.
ghost use Rattle.std.specs.Prelude.{◌≡◌, ◌+ℤ◌, ◌-ℤ◌, OkIff, IsTrue};
ghost use Rattle.dg_geom.specs.Fit.{fits4, IsNarrowed};
ghost use Rattle.dg_geom.specs.Vectors.{equal_parts};
ghost use Rattle.dg_geom.specs.Rotations.{axis_of, twice_cross, fits_twice, turned_by, fits_turned_by, turned, fits_turned, combined, fits_combined, w_products};

use crate::vectors::{
    added, cross_minus, cross_plus, difference, product, scaled, sum, taken, vector_of, vector4_of,
    wide_difference, wide_sum,
};
use dg_base::{V3, V4};
use dg_decimal::Range;

/// The vector turned by the rotation.
pub(crate) fn turned(rotation: V4, vector: V3) -> Result<V3, Range>
    ensures { OkIff result (IsTrue (fits_turned rotation vector)) (turned rotation vector) }
{
    let twice = twice_cross(axis_of(rotation), vector)?;
    turned_by(rotation, vector, twice)
}

fn axis_of(rotation: V4) -> V3
    ensures { result ≡ axis_of rotation }
{
    V3 {
        x: rotation.x,
        y: rotation.y,
        z: rotation.z,
    }
}

fn twice_cross(a: V3, b: V3) -> Result<V3, Range>
    ensures { OkIff result (IsTrue (fits_twice a b)) (twice_cross a b) }
{
    let plus = cross_plus(a, b)?;
    let minus = cross_minus(a, b)?;
    let cross = difference(plus, minus)?;
    sum(cross, cross)
}

fn turned_by(rotation: V4, vector: V3, twice: V3) -> Result<V3, Range>
    ensures { OkIff result (IsTrue (fits_turned_by rotation vector twice)) (turned_by rotation vector twice) }
{
    let axis = axis_of(rotation);
    let along = scaled(equal_parts(rotation.w), twice)?;
    let plus = cross_plus(axis, twice)?;
    let minus = cross_minus(axis, twice)?;
    vector_of(
        moved(vector.x, along.x, plus.x, minus.x),
        moved(vector.y, along.y, plus.y, minus.y),
        moved(vector.z, along.z, plus.z, minus.z),
    )
}

fn equal_parts(number: i64) -> V3
    ensures { result ≡ equal_parts number }
{
    V3 {
        x: number,
        y: number,
        z: number,
    }
}

fn moved(from: i64, along: i64, plus: i64, minus: i64) -> Result<i64, Range>
    ensures { IsNarrowed result ((from +ℤ along) +ℤ (plus -ℤ minus)) }
{
    added(wide_sum(from, along), wide_difference(plus, minus))
}

/// The product of two rotations, the first one outside of the second.
pub(crate) fn combined(q: V4, p: V4) -> Result<V4, Range>
    ensures { OkIff result (IsTrue (fits_combined q p)) (combined q p) }
{
    let x = products(
        q,
        V4 {
            w: p.x,
            x: p.w,
            y: p.z,
            z: p.y,
        },
    )?;
    let y = products(
        q,
        V4 {
            w: p.y,
            x: p.z,
            y: p.w,
            z: p.x,
        },
    )?;
    let z = products(
        q,
        V4 {
            w: p.z,
            x: p.y,
            y: p.x,
            z: p.w,
        },
    )?;
    let w = products(q, p)?;
    vector4_of(
        added(wide_sum(x.w, x.x), wide_difference(x.y, x.z)),
        added(wide_difference(y.w, y.x), wide_sum(y.y, y.z)),
        taken(wide_sum(z.w, z.x), wide_difference(z.y, z.z)),
        taken(wide_difference(w.w, w.x), wide_sum(w.y, w.z)),
    )
}

fn products(a: V4, b: V4) -> Result<V4, Range>
    ensures { OkIff result (IsTrue (fits4 (w_products a b))) (w_products a b) }
{
    vector4_of(
        product(a.x, b.x),
        product(a.y, b.y),
        product(a.z, b.z),
        product(a.w, b.w),
    )
}
