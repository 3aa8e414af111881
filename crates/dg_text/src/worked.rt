//! Worked cases: each function here has an empty body, and its contract states what a definition gives. The
//! checker computes them.
ghost use Rattle.std.specs.Prelude.{◌≡◌, [], ◌∷◌, true, false, None, Some, codes};
ghost use Rattle.dg_text.specs.LastMark.{split_at_last};
ghost use Rattle.dg_text.specs.Names.{is_name};
ghost use Rattle.dg_text.specs.Paths.{is_project_path};
ghost use Rattle.dg_text.specs.Quoted.{quoted};

/// Every escape, and a byte that needs none.
#[tactic(auto, unfolding(crate::specs::Quoted::escaped))]
pub fn quotes()
    ensures escapes { quoted (34 ∷ 92 ∷ 10 ∷ 13 ∷ 9 ∷ 0 ∷ 31 ∷ 127 ∷ 195 ∷ []) ≡ 34 ∷ 92 ∷ 34 ∷ 92 ∷ 92 ∷ 92 ∷ 110 ∷ 92 ∷ 114 ∷ 92 ∷ 116 ∷ 92 ∷ 48 ∷ 48 ∷ 48 ∷ 92 ∷ 48 ∷ 51 ∷ 55 ∷ 92 ∷ 49 ∷ 55 ∷ 55 ∷ 195 ∷ 34 ∷ [] }
    ensures empty { quoted [] ≡ codes "\"\"" }
{}

/// The last of two marks counts, and no mark is none.
pub fn splits()
    ensures last { split_at_last (codes ".:") (codes "a.b:c.d") ≡ Some (record { before = codes "a.b:c"; mark = 46; behind = codes "d" }) }
    ensures other { split_at_last (codes "@") (codes "a.b") ≡ None }
    ensures ends { split_at_last (codes "@") (codes "a@") ≡ Some (record { before = codes "a"; mark = 64; behind = [] }) }
{}

/// Paths with and without a slash in front, and with each part that stands nowhere.
pub fn paths()
    ensures path { is_project_path (codes "/a/b.go") ≡ true }
    ensures relative { is_project_path (codes "a/b.go") ≡ false }
    ensures ends { is_project_path (codes "/a/") ≡ false }
    ensures none { is_project_path (codes "/") ≡ false }
    ensures up { is_project_path (codes "/a/../b") ≡ false }
    ensures here { is_project_path (codes "/./b") ≡ false }
{}

/// Names, and a digit or a point where none stands.
pub fn names()
    ensures name { is_name (codes "_a9Z") ≡ true }
    ensures digit { is_name (codes "9a") ≡ false }
    ensures point { is_name (codes "a.b") ≡ false }
    ensures empty { is_name [] ≡ false }
{}
