//! Worked cases: each function here has an empty body, and its contract states what a definition gives. The
//! checker computes them.
ghost use Rattle.std.specs.Prelude.{◌≡◌, [], ◌∷◌, None, Some, codes, pos, true};
ghost use Rattle.dg_desc.specs.Faults.{fault_of};
ghost use Rattle.dg_desc.specs.Lookups.{one, evenly, vector_of, scale3_of, text_of};
ghost use Rattle.dg_desc.specs.Descs.{coll_inst_of};
ghost use Rattle.dg_desc.specs.Trees.{bare, quoted, scale3_tree, switch_tree};
ghost use Rattle.dg_desc.specs.Canonical.{differing_vector, differing_rotation, canonical_coll_inst};

use crate::known::{FieldName, Message};
use crate::refusal::DescCode;

/// A field of another form is met before what is missing behind it, and what is missing at its message's own line.
pub fn faults()
    ensures missing { fault_of Message.Ref 3 (quoted FieldName.Id (codes "p") ∷ []) ≡ Some (DescCode.Missing 3 FieldName.Component) }
    ensures form { fault_of Message.Ref 3 (record (bare FieldName.Properties (codes "1")) { line = 4 } ∷ []) ≡ Some (DescCode.Form 4 (Some FieldName.Properties)) }
    ensures closed { fault_of Message.Vector 3 (record (quoted FieldName.Id []) { line = 5 } ∷ []) ≡ Some (DescCode.Form 5 None) }
    ensures unknown { fault_of Message.CompProps 3 (quoted FieldName.Id [] ∷ bare FieldName.Data [] ∷ []) ≡ None }
{}

/// The last of two fields counts, an absent number is the default, and one scale stands for three.
#[tactic(auto, unfolding(dg_decimal::specs::Reading::number_in))]
pub fn counted()
    ensures last { text_of FieldName.Id (quoted FieldName.Id (codes "a") ∷ quoted FieldName.Id (codes "b") ∷ []) ≡ codes "b" }
    ensures absent { vector_of one (bare FieldName.Y (codes "-0") ∷ []) ≡ record { x = one; y = pos 0; z = one } }
    ensures evenly { scale3_of (bare FieldName.Scale (codes "3") ∷ []) ≡ Some (evenly (pos 3000000000)) }
{}

/// What is the default is left out.
pub fn printed()
    ensures scale { scale3_tree (Some (evenly one)) ≡ [] }
    ensures switch { switch_tree FieldName.ScaleAlongZ true ≡ bare FieldName.ScaleAlongZ (codes "1") ∷ [] }
{}

/// A scale that stands there and is the default counts as given. In the canonical form it doesn't, and nothing has a
/// line.
#[tactic(auto, unfolding(dg_decimal::specs::Reading::number_in))]
pub fn canonical()
    ensures evenly { differing_vector one (Some (evenly one)) ≡ None }
    ensures scaled { differing_vector one (Some (evenly (pos 0))) ≡ Some (evenly (pos 0)) }
    ensures turned { differing_rotation (Some (record { x = pos 0; y = pos 0; z = pos 0; w = pos 0 })) ≡ Some (record { x = pos 0; y = pos 0; z = pos 0; w = pos 0 }) }
    ensures given { (coll_inst_of 3 (quoted FieldName.Id (codes "c") ∷ bare FieldName.Scale (codes "1") ∷ [])).scale3 ≡ Some (evenly one) }
    ensures kept { canonical_coll_inst (coll_inst_of 3 (quoted FieldName.Id (codes "c") ∷ bare FieldName.Scale (codes "1") ∷ [])) ≡ coll_inst_of 0 (quoted FieldName.Id (codes "c") ∷ []) }
{}
