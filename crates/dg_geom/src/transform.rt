//! Transforms.
ghost use Rattle.std.specs.Prelude.{OkIff, IsTrue};
ghost use Rattle.dg_geom.specs.Composition.{is_in_range, composed};

use crate::rotations::{combined, turned};
use crate::vectors::{scaled, sum};
use dg_base::{V3, V4};
use dg_decimal::Range;

/// Where a thing stands: moved, turned and scaled. All numbers are billionths; a scale of one and a
/// rotation with w one change nothing.
#[derive(Clone, Copy, PartialEq, Eq, Debug)]
pub struct Transform {
    pub position: V3,
    pub rotation: V4,
    pub scale: V3,
}

/// The place, seen from outside of `outer`, of what stands inside of it at `inner`: the inner position is
/// scaled, turned and moved by the outer transform, the rotations are combined, and the scales multiplied
/// component by component. Each product is rounded to a whole number of billionths, halves away from
/// zero, and sums are exact. `Range` exactly where a product, a component of a vector on the way, or one
/// of the result is outside the signed 64-bit numbers.
pub fn compose(outer: &Transform, inner: &Transform) -> Result<Transform, Range>
    ensures { OkIff result (IsTrue (is_in_range outer.now inner.now)) (composed outer.now inner.now) }
{
    let scaled_position = scaled(outer.scale, inner.position)?;
    let turned_position = turned(outer.rotation, scaled_position)?;
    let position = sum(outer.position, turned_position)?;
    let rotation = combined(outer.rotation, inner.rotation)?;
    let scale = scaled(outer.scale, inner.scale)?;
    Ok(Transform {
        position,
        rotation,
        scale,
    })
}
