//! Worked cases: each function here has an empty body, and its contract states what a transaction touches
//! in a graph of `specs/Worked.antt`, which endpoints outside have the rules that they had, and which rules
//! or values changed. The checker computes them.
ghost use Rattle.std.specs.Prelude.{◌≡◌, [], ◌∷◌};
ghost use Rattle.dg_base.specs.declared.rule.Rule.TheVariants as rule;
ghost use Rattle.dg_base.specs.Sound.{IsSound};
ghost use Rattle.dg_base.specs.Sources.{sources};
ghost use Rattle.dg_base.specs.Rule.{rule_of};
ghost use Rattle.dg_base.specs.Value.{value_at, good};
ghost use Rattle.dg_base.specs.Dirty.{dirty};
ghost use Rattle.dg_base.specs.First.{value, terms, total, owning_tables};
ghost use Rattle.dg_base.specs.Worked.{at, node_id, whole, sets, connects, deletes};
ghost use Rattle.dg_touch.specs.Worked.{two_levels, set_to_seven, with_source, marked_override, without_number, marks, Touches, AgreesAt};

/// The graph is sound, and the second override of the sum reads the second override of the number.
pub fn inherits_twice()
    ensures sound { IsSound owning_tables two_levels }
    ensures sources { sources two_levels (node_id 5) terms ≡ at 6 value ∷ [] }
{}

/// A value that is set on the original touches the property at each heir, also where the rule stays. Outside
/// of what is dirty values stay.
pub fn sets_the_original()
    ensures touched { Touches (sets 1 7) set_to_seven 9 (at 1 value ∷ at 4 value ∷ at 6 value ∷ []) }
    ensures changed { rule_of owning_tables set_to_seven (at 1 value) ≡ rule.Own (whole 7) }
    ensures agree { AgreesAt set_to_seven (at 2 total ∷ at 4 value ∷ at 5 total ∷ at 8 total ∷ []) }
    ensures dirty { dirty owning_tables set_to_seven (at 1 value ∷ at 4 value ∷ at 6 value ∷ [])
        ≡ at 1 value ∷ at 2 total ∷ at 3 total ∷ at 4 value ∷ at 5 total ∷ at 6 value ∷ [] }
    ensures inside { value_at owning_tables set_to_seven (at 5 total) ≡ good (whole 7) }
    ensures outside { value_at owning_tables set_to_seven (at 8 total) ≡ value_at owning_tables two_levels (at 8 total) }
{}

/// A connection into a cascading input touches the outputs that read it, at each heir, and the endpoints of
/// the nodes that it populates with.
pub fn connects_and_populates()
    ensures touched { Touches (connects 7 value 2 terms) with_source 11 (at 2 total ∷ at 3 total ∷ at 5 total ∷ at 9 value ∷ at 10 value ∷ []) }
    ensures changed { sources with_source (node_id 5) terms ≡ at 6 value ∷ at 10 value ∷ [] }
    ensures agree { AgreesAt with_source (at 4 value ∷ at 6 value ∷ at 7 value ∷ at 8 total ∷ []) }
{}

/// A mark touches the outputs of the node and of its heirs, and not those of its original.
pub fn marks_an_override()
    ensures touched { Touches (marks 3) marked_override 9 (at 3 total ∷ at 5 total ∷ []) }
    ensures changed { rule_of owning_tables marked_override (at 5 total) ≡ rule.Defective }
    ensures agree { AgreesAt marked_override (at 2 total ∷ at 4 value ∷ at 8 total ∷ []) }
{}

/// A deletion touches the endpoints of what goes, and the outputs that read one of them.
pub fn deletes_the_original()
    ensures touched { Touches (deletes 1) without_number 9 (at 1 value ∷ at 2 total ∷ at 3 total ∷ at 4 value ∷ at 5 total ∷ at 6 value ∷ []) }
    ensures changed { sources without_number (node_id 5) terms ≡ [] }
    ensures agree { AgreesAt without_number (at 7 value ∷ at 8 total ∷ []) }
{}
