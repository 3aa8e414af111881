//! Worked cases: each function here has an empty body, and its contract states which task words say. The
//! checker computes them.
ghost use Rattle.std.specs.Prelude.{◌≡◌, [], ◌∷◌, true, false, codes, Ok};
ghost use Rattle.dg_words.specs.Paths.{usage};
ghost use Rattle.dg_words.specs.Tasks.{task_in};
ghost use Rattle.dg_words.specs.declared.task.Task.TheVariants.{Run, Check, Build, Gen, Format};

/// Options before and behind a place, with their value in the same word and in the next.
pub fn options()
    ensures plain { task_in (codes "run" ∷ codes "a" ∷ []) ≡ Ok (Run (codes "/a") 4 4096 false) }
    ensures spaced { task_in (codes "run" ∷ codes "a" ∷ codes "--workers" ∷ codes "0" ∷ codes "--stats" ∷ []) ≡ Ok (Run (codes "/a") 0 4096 true) }
    ensures joined { task_in (codes "build" ∷ codes "--workers=16" ∷ codes "/a.go" ∷ []) ≡ Ok (Build (codes "/a.go") 16) }
    ensures twice { task_in (codes "build" ∷ codes "--workers=1" ∷ codes "a" ∷ codes "--workers" ∷ codes "1" ∷ []) ≡ usage }
    ensures other { task_in (codes "format" ∷ codes "a.go" ∷ codes "--workers" ∷ codes "0" ∷ []) ≡ usage }
    ensures working { task_in (codes "run" ∷ codes "a" ∷ codes "--stats" ∷ []) ≡ usage }
    ensures shortened { task_in (codes "run" ∷ codes "a" ∷ codes "--work=1" ∷ []) ≡ usage }
{}

/// Words before a `--` and behind it.
pub fn ends()
    ensures alone { task_in (codes "check" ∷ codes "--" ∷ []) ≡ Ok Check }
    ensures behind { task_in (codes "format" ∷ codes "--" ∷ codes "-x.go" ∷ []) ≡ Ok (Format (codes "/-x.go")) }
    ensures before { task_in (codes "format" ∷ codes "-x.go" ∷ []) ≡ usage }
    ensures second { task_in (codes "check" ∷ codes "--" ∷ codes "--" ∷ []) ≡ usage }
    ensures waiting { task_in (codes "run" ∷ codes "--workers" ∷ codes "--" ∷ codes "a" ∷ []) ≡ usage }
{}

/// Numbers at the ends of their ranges.
pub fn ranges()
    ensures greatest { task_in (codes "gen" ∷ codes "18446744073709551615" ∷ codes "64" ∷ []) ≡ Ok (Gen 18446744073709551615 64 4 4096) }
    ensures greater { task_in (codes "gen" ∷ codes "18446744073709551616" ∷ codes "64" ∷ []) ≡ usage }
    ensures longest { task_in (codes "gen" ∷ codes "00000000000000000001" ∷ codes "1" ∷ []) ≡ Ok (Gen 1 1 4 4096) }
    ensures longer { task_in (codes "gen" ∷ codes "000000000000000000001" ∷ codes "1" ∷ []) ≡ usage }
    ensures size { task_in (codes "gen" ∷ codes "1" ∷ codes "65" ∷ []) ≡ usage }
{}
