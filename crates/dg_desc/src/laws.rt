//! What holds of the definitions that the contracts cite. Nothing here does anything when it runs.
ghost use Rattle.std.specs.Prelude.{◌≡◌, ℕ, List, [], Ok};
ghost use Rattle.dg_ptext.specs.declared.tree.Field.{Field};
ghost use Rattle.dg_ptext.specs.Printed.{printed};
ghost use Rattle.dg_ptext.specs.Reading.{reading};
ghost use Rattle.dg_desc.specs.declared.descs.GoDesc.{GoDesc};
ghost use Rattle.dg_desc.specs.declared.descs.CollDesc.{CollDesc};
ghost use Rattle.dg_desc.specs.Descs.{go_reading, coll_reading};
ghost use Rattle.dg_desc.specs.Trees.{go_tree, coll_tree};
ghost use Rattle.dg_desc.specs.Canonical.{canonical_go, canonical_coll};
ghost use Rattle.dg_desc.specs.Formatted.{IsFormatted};

/// The tree that a game object is printed as, of each that some tree reads as, reads as its canonical form: the same
/// but for lines, where what equals its default counts as not given. That form is printed as the same tree again. And
/// of each that some text says, the printed text says one that is printed as the same text.
pub fn go_reads_again()
    ensures read { (tree : List Field) (desc : GoDesc) → go_reading tree ≡ Ok desc → go_reading (go_tree desc) ≡ Ok (canonical_go desc) }
    ensures printed { (desc : GoDesc) → go_tree (canonical_go desc) ≡ go_tree desc }
    ensures formatted { (bytes : List ℕ) (tree : List Field) (desc : GoDesc) → reading bytes ≡ Ok tree → go_reading tree ≡ Ok desc
        → IsFormatted go_reading go_tree (printed [] (go_tree desc)) }
{}

/// The same of collections.
pub fn coll_reads_again()
    ensures read { (tree : List Field) (desc : CollDesc) → coll_reading tree ≡ Ok desc → coll_reading (coll_tree desc) ≡ Ok (canonical_coll desc) }
    ensures printed { (desc : CollDesc) → coll_tree (canonical_coll desc) ≡ coll_tree desc }
    ensures formatted { (bytes : List ℕ) (tree : List Field) (desc : CollDesc) → reading bytes ≡ Ok tree → coll_reading tree ≡ Ok desc
        → IsFormatted coll_reading coll_tree (printed [] (coll_tree desc)) }
{}
