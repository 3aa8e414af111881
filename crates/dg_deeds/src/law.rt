//! Laws of the definitions.
ghost use Rattle.std.specs.Prelude.{◌≡◌, ◌≢◌, ℕ, List, Option, ◌++◌, map, take};
ghost use Rattle.std.specs.Option.{option_map};
ghost use Rattle.dg_files.specs.Tree.{Tree};
ghost use Rattle.dg_deeds.specs.Printed.{GotPrefix, text_of};
ghost use Rattle.dg_deeds.specs.Deeds.{IsBegun, lines_in, text_after, tree_after};
ghost use Rattle.dg_deeds.specs.declared.deed.Deed.{Deed};
ghost use Rattle.dg_deeds.specs.declared.deed.Deed.TheVariants.{Put};
ghost use Rattle.dg_deeds.specs.declared.deed.Stop.{Stop};
ghost use Rattle.dg_deeds.specs.declared.deed.Stop.TheVariants.{FileFault};

/// Deeds in two parts: the second part begins with what the first one leaves. They are begun where the first part is
/// begun, and where the second one is begun behind all of the first. It does nothing.
pub fn parts_go_together()
    ensures tree { (ds es : List Deed) (tree : Tree) → tree_after (ds ++ es) tree ≡ tree_after es (tree_after ds tree) }
    ensures text { (ds es : List Deed) (text : List ℕ) → text_after (ds ++ es) text ≡ text_after es (text_after ds text) }
    ensures first { (s : Stop) (ds es : List Deed) (tree tree_now : Option Tree) (text text_now : Option (List ℕ)) →
        IsBegun s ds tree tree_now text text_now → IsBegun s (ds ++ es) tree tree_now text text_now }
    ensures second { (s : Stop) (ds es : List Deed) (tree tree_now : Option Tree) (text text_now : Option (List ℕ)) →
        IsBegun s es (option_map (tree_after ds) tree) tree_now (option_map (text_after ds) text) text_now →
        IsBegun s (ds ++ es) tree tree_now text text_now }
{}

/// The sink gets the lines among the deeds, in their order, and where they are cut off a first part of them. It does nothing.
pub fn lines_come_in_order()
    ensures all { (ds : List Deed) (text : List ℕ) → text_after ds text ≡ text ++ text_of (lines_in ds) }
    ensures part { (s : Stop) (ds : List Deed) (tree tree_now : Option Tree) (text text_now : Option (List ℕ)) →
        IsBegun s ds tree tree_now text text_now → GotPrefix text text_now (text_of (lines_in ds)) }
{}

/// Where it wasn't the files that failed, no file is there in part: the tree is that behind the first deeds. It does nothing.
pub fn files_are_whole()
    ensures { (s : Stop) (ds : List Deed) (tree tree_now : Option Tree) (text text_now : Option (List ℕ)) → s ≢ FileFault →
        IsBegun s ds tree tree_now text text_now → (n : ℕ) × (tree_now ≡ option_map (tree_after (take n ds)) tree) }
{}

/// Lines alone leave the tree as it is, also where they are cut off. It does nothing.
pub fn lines_leave_the_tree()
    ensures lines { (lines : List (List ℕ)) → lines_in (map Put lines) ≡ lines }
    ensures all { (lines : List (List ℕ)) (tree : Tree) → tree_after (map Put lines) tree ≡ tree }
    ensures part { (s : Stop) (lines : List (List ℕ)) (tree tree_now : Option Tree) (text text_now : Option (List ℕ)) →
        IsBegun s (map Put lines) tree tree_now text text_now → tree_now ≡ tree }
{}

/// Lines alone are never cut off by a fault of the files. It does nothing.
pub fn lines_have_no_file_fault()
    ensures { (lines : List (List ℕ)) (tree tree_now : Option Tree) (text text_now : Option (List ℕ)) →
        ¬ IsBegun FileFault (map Put lines) tree tree_now text text_now }
{}
