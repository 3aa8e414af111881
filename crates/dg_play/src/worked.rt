//! Worked cases: the function here has an empty body, and its contract states what the definitions give for
//! scripts of `specs/Worked.antt`. The checker computes them.
ghost use Rattle.std.specs.Prelude.{◌≡◌, [], ◌∷◌};
ghost use Rattle.dg_play.specs.Worked.{late, late_of_deleted, losing, serving, work_told};

/// Productions, kept entries, late entries and the entries of the cache at the end.
pub fn the_work_of_scripts()
    ensures late { work_told 4096 late ≡ 1 ∷ 0 ∷ 1 ∷ 0 ∷ [] }
    ensures late_of_deleted { work_told 4096 late_of_deleted ≡ 1 ∷ 0 ∷ 1 ∷ 0 ∷ [] }
    ensures serving { work_told 4096 serving ≡ 1 ∷ 1 ∷ 0 ∷ 1 ∷ [] }
    ensures losing { work_told 1 losing ≡ 4 ∷ 4 ∷ 0 ∷ 1 ∷ [] }
{}
