//! How a place is read. A value of another shape reads as nothing moved, turned or scaled.
ghost use Rattle.std.specs.Prelude.{◌≡◌};
ghost use Rattle.std.specs.Option.{option_copied};
ghost use Rattle.dg_kinds_coll.specs.Places.{vec3_or, quat_in, place_of, place_in, place_at, equal3};

use dg_base::{ArgVal, Datum, V3, V4};
use dg_geom::Transform;
use dg_kinds_go::{field_in, value_at};
use dg_labels::labels::{POSITION, ROTATION, SCALE3};

/// The place that a record says in its fields.
pub fn place_in(from: Option<&Datum>) -> Transform
    ensures { result ≡ place_in (option_copied from.entry) }
{
    place_of(
        field_in(from, POSITION),
        field_in(from, ROTATION),
        field_in(from, SCALE3),
    )
}

/// The place that the arguments behind the id say.
pub(crate) fn place_at(args: &[ArgVal]) -> Transform
    ensures { result ≡ place_at args.now }
{
    place_of(value_at(args, 1), value_at(args, 2), value_at(args, 3))
}

fn place_of(position: Option<&Datum>, rotation: Option<&Datum>, scale: Option<&Datum>) -> Transform
    ensures { result ≡ place_of (option_copied position.entry) (option_copied rotation.entry) (option_copied scale.entry) }
{
    Transform {
        position: vec3_or(equal3(0), position),
        rotation: quat_in(rotation),
        scale: vec3_or(equal3(1_000_000_000), scale),
    }
}

fn vec3_or(other: V3, datum: Option<&Datum>) -> V3
    ensures { result ≡ vec3_or other (option_copied datum.entry) }
{
    match datum {
        Some(Datum::Vec3(vector)) => *vector,
        _ => other,
    }
}

fn quat_in(datum: Option<&Datum>) -> V4
    ensures { result ≡ quat_in (option_copied datum.entry) }
{
    match datum {
        Some(Datum::Quat(vector)) => *vector,
        _ => V4 {
            x: 0,
            y: 0,
            z: 0,
            w: 1_000_000_000,
        },
    }
}

fn equal3(number: i64) -> V3
    ensures { result ≡ equal3 number }
{
    V3 {
        x: number,
        y: number,
        z: number,
    }
}
