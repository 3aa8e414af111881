//! Worked cases: each function here has an empty body, and its contract states what the definitions give
//! on small transforms. The checker computes them.
ghost use Rattle.std.specs.Prelude.{◌≡◌, true, false, pos, negsuc, IsTrue, IsFalse};
ghost use Rattle.dg_geom.specs.Vectors.{vector};
ghost use Rattle.dg_geom.specs.Rotations.{turned, combined};
ghost use Rattle.dg_geom.specs.Composition.{composed, is_in_range};
ghost use Rattle.dg_geom.specs.Worked.{whole, below, quaternion, unturned, place, quarter, outer_place, along_x};

/// A quarter turn leads from x to y, and each product is rounded by itself.
pub fn turns()
    ensures quarter { composed outer_place (along_x (whole 1)) ≡ place (vector (pos 10000000032) (pos 999999968) (whole 0)) (quaternion (whole 0) (whole 0) quarter quarter) }
    ensures any { turned (quaternion (whole 1) (whole 2) (whole 3) (whole 4)) (vector (whole 1) (whole 2) (whole 5)) ≡ vector (whole 45) (whole 10) (below 15) }
{}

/// The product of two quaternions: that of their w, less that of their axes, stands in w.
pub fn combines()
    ensures four { combined (quaternion (whole 1) (whole 2) (whole 3) (whole 4)) (quaternion (whole 5) (whole 6) (whole 7) (whole 8)) ≡ quaternion (whole 24) (whole 48) (whole 48) (below 6) }
    ensures unturned { combined unturned (quaternion (whole 5) (whole 6) (whole 7) (whole 8)) ≡ quaternion (whole 5) (whole 6) (whole 7) (whole 8) }
{}

/// The largest number is in range, and one past it isn't. A sum may be past 64 bits on the way.
pub fn fits()
    ensures largest { IsTrue (is_in_range (along_x (pos 0)) (along_x (pos 9223372036854775807))) }
    ensures past { IsFalse (is_in_range (along_x (pos 1)) (along_x (pos 9223372036854775807))) }
    ensures on_the_way { IsTrue (is_in_range (place (vector (whole 0) (whole 0) (whole 0)) (quaternion (whole 0) (whole 1) (whole 1) (whole 0))) (along_x (whole 3000000000))) }
    ensures doubled { IsFalse (is_in_range (place (vector (whole 0) (whole 0) (whole 0)) (quaternion (whole 0) (whole 0) (whole 1) (whole 0))) (along_x (pos 4611686018427387904))) }
{}
