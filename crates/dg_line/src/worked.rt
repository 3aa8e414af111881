//! Worked cases: each function here has an empty body, and its contract states what the definitions give
//! on the revisions of `specs/Worked.antt`. The checker computes them.
ghost use Rattle.std.specs.Prelude.{◌≡◌, [], ◌∷◌};
ghost use Rattle.dg_base.specs.First.{value, total};
ghost use Rattle.dg_base.specs.Worked.{at};
ghost use Rattle.dg_line.specs.Counts.{raised};
ghost use Rattle.dg_line.specs.Revisions.{counter_at};
ghost use Rattle.dg_line.specs.Worked.{counted, begun, first_set, other_set};

/// Raised counters stand in endpoint order, each once: what wasn't counted yet begins with 1.
pub fn raises()
    ensures both { raised (counted (at 1 value) 3 ∷ counted (at 4 total) 1 ∷ []) (at 2 total ∷ at 4 total ∷ [])
        ≡ counted (at 1 value) 3 ∷ counted (at 2 total) 1 ∷ counted (at 4 total) 2 ∷ [] }
    ensures nothing { raised (counted (at 1 value) 3 ∷ []) [] ≡ counted (at 1 value) 3 ∷ [] }
{}

/// A change counts once for each endpoint that is dirty, and not for what is touched alone.
pub fn counts_what_is_dirty()
    ensures first { first_set.counters ≡ counted (at 1 value) 1 ∷ counted (at 2 total) 1 ∷ counted (at 3 total) 1 ∷ counted (at 4 total) 1 ∷ [] }
    ensures other { other_set.counters
        ≡ counted (at 1 value) 1 ∷ counted (at 2 total) 1 ∷ counted (at 3 total) 1 ∷ counted (at 4 total) 2 ∷ counted (at 5 value) 1 ∷ [] }
    ensures number { other_set.number ≡ 2 }
    ensures before { counter_at begun (at 4 total) ≡ 0 }
{}
