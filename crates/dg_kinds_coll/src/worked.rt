//! Worked cases: each function here has an empty body, and its contract states what the definitions
//! give on small arguments. The checker computes them.
ghost use Rattle.std.specs.Prelude.{◌≡◌, [], ◌∷◌, Some, true, false, codes, pos, map};
ghost use Rattle.dg_base.specs.declared.answer.FaultCode.TheVariants as code;
ghost use Rattle.dg_base.specs.declared.datum.Datum.TheVariants as datum;
ghost use Rattle.dg_base.specs.declared.schema.ArgVal.TheVariants as arg_val;
ghost use Rattle.dg_base.specs.declared.schema.Made.TheVariants as made;
ghost use Rattle.dg_base.specs.Value.{good, made_good};
ghost use Rattle.dg_kinds_coll.specs.Entries.{entry_of};
ghost use Rattle.dg_kinds_coll.specs.Instances.{go_instance, coll_instance, sub_value};
ghost use Rattle.dg_kinds_coll.specs.Collections.{coll_flat, is_collection_path};
ghost use Rattle.dg_kinds_coll.specs.Worked.{one, text, place, at, sub_args};

/// An instance that another one names is a child, and ids have a slash before them.
pub fn flattens()
    ensures child { coll_flat (arg_val.Many (map good (at (pos 1) false (codes "a") (codes "b" ∷ []) ∷ at (pos 2) false (codes "b") [] ∷ [])) ∷ arg_val.Many [] ∷ []) ≡ made_good (datum.List (entry_of (codes "/") false (place (pos 1)) (Some (at (pos 1) false (codes "a") (codes "b" ∷ []))) ∷ entry_of (codes "/") true (place (pos 2)) (Some (at (pos 2) false (codes "b") [])) ∷ [])) }
    ensures equals { coll_flat (arg_val.Many (map good (at (pos 1) false (codes "a") [] ∷ [])) ∷ arg_val.Many (map good (at (pos 1) false (codes "a") [] ∷ [])) ∷ []) ≡ made.Fault code.DuplicateId }
{}

/// An entry moves with the collection around it, a child doesn't, and no number may go past 64 bits.
pub fn moves()
    ensures along { coll_instance (sub_args (codes "s") (pos 5) (at (pos 1) false (codes "/a") [] ∷ [])) ≡ made_good (sub_value (text (codes "s") ∷ []) (entry_of (codes "/s") false (place (pos 6)) (Some (at (pos 1) false (codes "/a") [])) ∷ [])) }
    ensures child { coll_instance (sub_args (codes "s") (pos 5) (at (pos 1) true (codes "/a") [] ∷ [])) ≡ made_good (sub_value (text (codes "s") ∷ []) (entry_of (codes "/s") true (place (pos 1)) (Some (at (pos 1) true (codes "/a") [])) ∷ [])) }
    ensures past { coll_instance (sub_args (codes "s") (pos 9223372036854775807) (at (pos 1) false (codes "/a") [] ∷ [])) ≡ made.Fault code.Range }
{}

/// Without a source there is nothing to stand anywhere.
pub fn needs_sources()
    ensures object { go_instance (text (codes "g") ∷ arg_val.Nil ∷ arg_val.Nil ∷ arg_val.Nil ∷ arg_val.Nil ∷ arg_val.Many [] ∷ []) ≡ made.Fault code.NoResource }
    ensures collection { coll_instance (text (codes "s") ∷ arg_val.Nil ∷ arg_val.Nil ∷ arg_val.Nil ∷ arg_val.Nil ∷ []) ≡ made.Fault code.NoResource }
{}

/// Which texts are paths of collections.
pub fn tells_paths()
    ensures path { is_collection_path (codes "/a/b.collection") ≡ true }
    ensures other_ending { is_collection_path (codes "/a/b.go") ≡ false }
    ensures up { is_collection_path (codes "/../b.collection") ≡ false }
{}
