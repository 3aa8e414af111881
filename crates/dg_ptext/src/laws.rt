//! What holds of the definitions that the contracts cite. Nothing here does anything when it runs.
ghost use Rattle.std.specs.Prelude.{◌≡◌, ℕ, [], List, Ok};
ghost use Rattle.dg_ptext.specs.declared.tree.Field.{Field};
ghost use Rattle.dg_ptext.specs.Printed.{printed};
ghost use Rattle.dg_ptext.specs.Reading.{reading};
ghost use Rattle.dg_ptext.specs.Same.{SameFields};

/// Of each tree that some text reads as, the printed text reads as the same tree, but for line numbers.
pub fn reads_again()
    ensures { (bytes : List ℕ) (tree : List Field) → reading bytes ≡ Ok tree
        → (again : List Field) × (reading (printed [] tree) ≡ Ok again) × SameFields tree again }
{}
