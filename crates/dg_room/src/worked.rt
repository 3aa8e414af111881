//! Worked cases: the function here has an empty body, and its contract states what the definitions give for the
//! desk's worked histories. The checker computes them.
ghost use Rattle.std.specs.Prelude.{◌≡◌, [], ◌∷◌, length};
ghost use Rattle.dg_desk.specs.Worked.{evicted_one, restarted};
ghost use Rattle.dg_room.specs.Made.{made_in, passed, sum_of};
ghost use Rattle.dg_room.specs.Worked.{made};

/// A follow, a publication and an eviction count once each, whatever their answers are.
pub fn counts_records()
    ensures evicted { made_in evicted_one ≡ made 2 1 1 }
    ensures restarted { made_in restarted ≡ made 1 1 0 }
    ensures all { length evicted_one ≡ 4 }
    ensures sum { sum_of (passed 0 (made 2 0 0) ∷ passed 1 (made 0 1 1) ∷ []) ≡ made_in evicted_one }
{}
