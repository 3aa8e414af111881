//! Worked cases: each function here has an empty body, and its contract states what is listed and counted in
//! the graph of `specs/Worked.antt`. The checker computes them.
ghost use Rattle.std.specs.Prelude.{◌≡◌, ◌∷◌, []};
ghost use Rattle.dg_base.specs.Evaluation.{nothing_evaluated, productions};
ghost use Rattle.dg_base.specs.First.{first_tables, total, value};
ghost use Rattle.dg_base.specs.Worked.{at};
ghost use Rattle.dg_eval.specs.Results.{newly_listed};
ghost use Rattle.dg_eval.specs.Worked.{chained};

/// What is known isn't listed, and so not produced.
pub fn lists_what_is_new()
    ensures all { newly_listed first_tables chained [] nothing_evaluated (at 3 total) ≡ at 1 value ∷ at 2 total ∷ at 3 total ∷ [] }
    ensures known_below { newly_listed first_tables chained (at 2 total ∷ []) nothing_evaluated (at 3 total) ≡ at 3 total ∷ [] }
    ensures known { newly_listed first_tables chained (at 3 total ∷ []) nothing_evaluated (at 3 total) ≡ [] }
{}

/// A sum takes one production, and a number none.
pub fn counts_productions()
    ensures both { productions first_tables chained (newly_listed first_tables chained [] nothing_evaluated (at 3 total)) ≡ 2 }
    ensures first { productions first_tables chained (newly_listed first_tables chained [] nothing_evaluated (at 2 total)) ≡ 1 }
    ensures last { productions first_tables chained (newly_listed first_tables chained (at 2 total ∷ []) nothing_evaluated (at 3 total)) ≡ 1 }
{}
