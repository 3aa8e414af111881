//! Worked cases: each function here has an empty body, and its contract states what the definitions give for the
//! script of `specs/Worked.antt` and for values of `dg_build`'s. The checker computes them.
ghost use Rattle.std.specs.Prelude.{◌≡◌, [], ◌∷◌, codes};
ghost use Rattle.dg_build.specs.Worked.{one_content, parent_and_child};
ghost use Rattle.dg_sums.specs.Sums.{built_line};
ghost use Rattle.dg_sums.specs.Worked.{lines_of, mixed};

/// What isn't done isn't counted, each question is, and a build that is bad writes nothing.
pub fn counts_what_is_done()
    ensures { lines_of mixed ≡
        codes "files 3 nodes 7 arcs 4\n"
        ∷ codes "edits 2 undos 1 redos 1 asks 4\n"
        ∷ codes "good 1 bad 1 cycle 1\n"
        ∷ codes "built 0 sum 0\n"
        ∷ [] }
{}

/// A collection of two files, with an entry 1 along x and one at 0, and a game object of two files.
pub fn sums_what_is_built()
    ensures { built_line [] (parent_and_child ∷ one_content ∷ []) ≡ codes "built 4 sum 1\n" }
{}
