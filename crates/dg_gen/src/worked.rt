//! Worked cases: the function here has an empty body, and its contract states the first draws of a seed. The checker
//! computes them.
ghost use Rattle.std.specs.Prelude.{◌≡◌, [], ◌∷◌};
ghost use Rattle.dg_gen.specs.Draws.{draws, state_after};

/// The first eight draws of the seed 7, and the state after three of them and after all. A seed counts modulo 2^31.
pub fn draws_of_seven()
    ensures draws { draws 7 8 ≡ 64 ∷ 6 ∷ 68 ∷ 74 ∷ 31 ∷ 65 ∷ 34 ∷ 90 ∷ [] }
    ensures third { state_after 7 3 ≡ 712265938 }
    ensures eighth { state_after 7 8 ≡ 2083449087 }
    ensures modulo { draws 2147483655 3 ≡ 64 ∷ 6 ∷ 68 ∷ [] }
{}
