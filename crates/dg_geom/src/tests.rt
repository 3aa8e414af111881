//! Composed places, case by case: as they are computed with whole numbers without bounds by another
//! program, each product over a billion rounded once.
use crate::{Transform, compose};
use dg_base::{V3, V4};

/// One, in billionths.
const ONE: i64 = 1_000_000_000;

/// Position, rotation and scale.
type Numbers = [i64; 10];

/// An outer place, an inner one and what they compose to; none where that is out of range.
#[rattlefmt::skip]
static CASES: [(Numbers, Numbers, Option<Numbers>); 19] = [
    // A place at 10 along x, turned about z by a quarter, and one at 1 inside of it; and both at 5 along y.
    ([10_000_000_000, 0, 0, 0, 0, 707_106_770, 707_106_770, ONE, ONE, ONE], [ONE, 0, 0, 0, 0, 0, ONE, ONE, ONE, ONE], Some([10_000_000_032, 999_999_968, 0, 0, 0, 707_106_770, 707_106_770, ONE, ONE, ONE])),
    ([0, 5_000_000_000, 0, 0, 0, 0, ONE, ONE, ONE, ONE], [10_000_000_032, 999_999_968, 0, 0, 0, 707_106_770, 707_106_770, ONE, ONE, ONE], Some([10_000_000_032, 5_999_999_968, 0, 0, 0, 707_106_770, 707_106_770, ONE, ONE, ONE])),
    // A quarter turn about each axis.
    ([0, 0, 0, 707_106_781, 0, 0, 707_106_781, ONE, ONE, ONE], [ONE, 2_000_000_000, 3_000_000_000, 0, 0, 0, ONE, ONE, ONE, ONE], Some([ONE, -2_999_999_997, 2_000_000_001, 707_106_781, 0, 0, 707_106_781, ONE, ONE, ONE])),
    ([0, 0, 0, 0, 707_106_781, 0, 707_106_781, ONE, ONE, ONE], [ONE, 2_000_000_000, 3_000_000_000, 0, 0, 0, ONE, ONE, ONE, ONE], Some([2_999_999_999, 2_000_000_000, -999_999_997, 0, 707_106_781, 0, 707_106_781, ONE, ONE, ONE])),
    ([0, 0, 0, 0, 0, 707_106_781, 707_106_781, ONE, ONE, ONE], [ONE, 2_000_000_000, 3_000_000_000, 0, 0, 0, ONE, ONE, ONE, ONE], Some([-1_999_999_998, ONE, 3_000_000_000, 0, 0, 707_106_781, 707_106_781, ONE, ONE, ONE])),
    // Three places inside of one another, each turned about another axis.
    ([2_000_000_000, 0, 0, 0, 0, 707_106_781, 707_106_781, 2_000_000_000, 2_000_000_000, 2_000_000_000], [ONE, 0, 0, 707_106_781, 0, 0, 707_106_781, 3_000_000_000, 3_000_000_000, 3_000_000_000], Some([2_000_000_001, 1_999_999_999, 0, 500_000_000, 500_000_000, 500_000_000, 500_000_000, 6_000_000_000, 6_000_000_000, 6_000_000_000])),
    ([0, 0, ONE, 0, 707_106_781, 0, 707_106_781, 500_000_000, 500_000_000, 500_000_000], [2_000_000_001, 1_999_999_999, 0, 500_000_000, 500_000_000, 500_000_000, 500_000_000, 6_000_000_000, 6_000_000_000, 6_000_000_000], Some([0, ONE, -1, 707_106_782, 707_106_782, 0, 0, 3_000_000_000, 3_000_000_000, 3_000_000_000])),
    // Rotations that are no turns: the four products of each component, and all of them.
    ([0, 0, 0, ONE, 2_000_000_000, 3_000_000_000, 4_000_000_000, ONE, ONE, ONE], [0, 0, 0, 5_000_000_000, 6_000_000_000, 7_000_000_000, 8_000_000_000, ONE, ONE, ONE], Some([0, 0, 0, 24_000_000_000, 48_000_000_000, 48_000_000_000, -6_000_000_000, ONE, ONE, ONE])),
    ([7_000_000_000, -8_000_000_000, 9_000_000_000, 500_000_000, -333_333_334, 200_000_000, 142_857_142, 2_000_000_000, 3_000_000_000, -4_000_000_000], [ONE, 2_000_000_000, 5_000_000_000, 90_909_090, 76_923_076, -58_823_530, 52_631_578, 333_333_333, ONE, ONE], Some([3_957_460_306, -508_571_442, 4_092_063_503, 43_526_030, 41_038_735, 70_887_523, -530_017, 666_666_666, 3_000_000_000, -4_000_000_000])),
    // Halves are rounded away from zero.
    ([0, 0, 0, 0, 0, 0, ONE, 500_000_000, 500_000_000, 500_000_000], [1, -1, 3, 0, 0, 0, ONE, 1, -1, 3], Some([1, -1, 2, 0, 0, 0, ONE, 1, -1, 2])),
    // The largest numbers, and one past them.
    ([0, 0, 0, 0, 0, 0, ONE, ONE, ONE, ONE], [i64::MAX, i64::MIN, i64::MAX, 0, 0, 0, ONE, i64::MAX, i64::MIN, i64::MAX], Some([i64::MAX, i64::MIN, i64::MAX, 0, 0, 0, ONE, i64::MAX, i64::MIN, i64::MAX])),
    ([1, 0, 0, 0, 0, 0, ONE, ONE, ONE, ONE], [i64::MAX, 0, 0, 0, 0, 0, ONE, ONE, ONE, ONE], None),
    // Products that are out of range: in the position, the scale and the rotation.
    ([0, 0, 0, 0, 0, 0, ONE, 1_000_000_001, ONE, ONE], [i64::MAX, 0, 0, 0, 0, 0, ONE, ONE, ONE, ONE], None),
    ([0, 0, 0, 0, 0, 0, ONE, ONE, ONE, -1_000_000_000], [0, 0, 0, 0, 0, 0, ONE, ONE, ONE, i64::MIN], None),
    ([0, 0, 0, i64::MAX, 0, 0, 0, ONE, ONE, ONE], [0, 0, 0, 2_000_000_000, 0, 0, 0, ONE, ONE, ONE], None),
    // A rotation whose products are in range, but not their sum.
    ([0, 0, 0, 0, 0, i64::MAX, i64::MAX, ONE, ONE, ONE], [0, 0, 0, 0, 0, ONE, ONE, ONE, ONE, ONE], None),
    // A cross product whose double is out of range, and the largest that is not.
    ([0, 0, 0, 0, 0, ONE, 0, ONE, ONE, ONE], [4_611_686_018_427_387_904, 0, 0, 0, 0, 0, ONE, ONE, ONE, ONE], None),
    ([0, 0, 0, 0, 0, ONE, 0, ONE, ONE, ONE], [4_611_686_018_427_387_903, 0, 0, 0, 0, 0, ONE, ONE, ONE, ONE], Some([-4_611_686_018_427_387_903, 0, 0, 0, 0, ONE, 0, ONE, ONE, ONE])),
    // A sum that is past 64 bits on the way, and in them at its end.
    ([0, 0, 0, 0, ONE, ONE, 0, ONE, ONE, ONE], [3_000_000_000_000_000_000, 0, 0, 0, 0, 0, ONE, ONE, ONE, ONE], Some([-9_000_000_000_000_000_000, 0, 0, 0, ONE, ONE, 0, ONE, ONE, ONE])),
];

fn place(n: &Numbers) -> Transform {
    Transform {
        position: V3 {
            x: n[0],
            y: n[1],
            z: n[2],
        },
        rotation: V4 {
            x: n[3],
            y: n[4],
            z: n[5],
            w: n[6],
        },
        scale: V3 {
            x: n[7],
            y: n[8],
            z: n[9],
        },
    }
}

fn gives(outer: &Numbers, inner: &Numbers, expected: &Option<Numbers>) -> bool {
    match (compose(&place(outer), &place(inner)), expected) {
        (Ok(composed), Some(expected)) => composed == place(expected),
        (Err(_), None) => true,
        _ => false,
    }
}

#[test]
fn places_compose_as_computed_elsewhere(rt: HostRuntime) {
    for (outer, inner, expected) in &CASES {
        assert!(rt; gives(outer, inner, expected), "{outer:?} {inner:?}");
    }
}
