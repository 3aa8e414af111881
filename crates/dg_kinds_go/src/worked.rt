//! Worked cases: each function here has an empty body, and its contract states what the definitions
//! give on small arguments. The checker computes them.
ghost use Rattle.std.specs.Prelude.{◌≡◌, [], ◌∷◌, Some, None, true, false, codes, pos};
ghost use Rattle.dg_base.specs.declared.answer.FaultCode.TheVariants as code;
ghost use Rattle.dg_base.specs.declared.datum.Datum.TheVariants as datum;
ghost use Rattle.dg_base.specs.declared.schema.ArgVal.TheVariants as arg_val;
ghost use Rattle.dg_base.specs.declared.schema.Made.TheVariants as made;
ghost use Rattle.dg_base.specs.Value.{made_good};
ghost use Rattle.dg_kinds_go.specs.Components.{is_type_name, replaced};
ghost use Rattle.dg_kinds_go.specs.Join.{glued};
ghost use Rattle.dg_kinds_go.specs.Objects.{has_equals, is_go_path};
ghost use Rattle.dg_kinds_go.specs.Sum.{sum_total};
ghost use Rattle.dg_kinds_go.specs.Worked.{one, number, other_number, hash};

/// The glue stands between two parts alone.
pub fn joins()
    ensures three { glued (codes "-") (codes "a" ∷ codes "b" ∷ codes "c" ∷ []) ≡ codes "a-b-c" }
    ensures single { glued (codes "-") (codes "a" ∷ []) ≡ codes "a" }
{}

/// A sum without a source for `extra`, and one that is one past the largest number.
pub fn sums()
    ensures empty { sum_total (arg_val.Many [] ∷ arg_val.Nil ∷ []) ≡ made_good (datum.Dec (pos 0)) }
    ensures past { sum_total (one (datum.Dec (pos 9223372036854775807)) ∷ one (datum.Dec (pos 1)) ∷ []) ≡ made.Fault code.Range }
{}

/// Own values stand in the declared properties' places, and an own value that isn't declared is
/// passed over. One of another type leaves no list.
pub fn replaces()
    ensures in_place { replaced (hash 1025 ∷ other_number 1030 ∷ []) (number 1030 ∷ hash 1024 ∷ []) ≡ Some (other_number 1030 ∷ hash 1024 ∷ []) }
    ensures other_type { replaced (hash 1030 ∷ []) (number 1030 ∷ []) ≡ None }
{}

/// Equal texts need not be neighbours.
pub fn finds_equals()
    ensures apart { has_equals (codes "x" ∷ codes "y" ∷ codes "x" ∷ []) ≡ true }
    ensures distinct { has_equals (codes "x" ∷ codes "y" ∷ codes "xy" ∷ []) ≡ false }
{}

/// Which texts are paths of game objects, and which are types of embedded components.
pub fn tells_names()
    ensures path { is_go_path (codes "/a/b.go") ≡ true }
    ensures other_ending { is_go_path (codes "/a/b.script") ≡ false }
    ensures up { is_go_path (codes "/a/../b.go") ≡ false }
    ensures name { is_type_name (codes "tile_set2") ≡ true }
    ensures capital { is_type_name (codes "tileSet") ≡ false }
{}
