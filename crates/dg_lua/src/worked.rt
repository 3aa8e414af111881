//! Worked cases: each function here has an empty body, and its contract states what a definition gives. The
//! checker computes them.
ghost use Rattle.std.specs.Prelude.{◌≡◌, [], ◌∷◌, None, Some, codes};
ghost use Rattle.dg_lua.specs.Script.{declaration_in, declarations};

use dg_base::PType;

/// Of equal ids the first counts, also where the later one has another type.
#[tactic(auto, unfolding(dg_decimal::specs::Reading::number_in))]
pub fn repeated()
    ensures { declarations (codes "go.property(\"a\", vmath.vector3(1, 2, 3))\ngo.property(\"a\", 4)")
        ≡ record { id = codes "a"; ptype = PType.Vector3; text = codes "1, 2, 3" } ∷ [] }
{}

/// Lines that count, and lines that don't.
#[tactic(auto, unfolding(dg_decimal::specs::Reading::number_in))]
pub fn lines()
    ensures decimal { declaration_in (codes " go.property( 'b' , -1.50 ) -- slow") ≡ Some (record { id = codes "b"; ptype = PType.Number; text = codes "-1.50" }) }
    ensures address { declaration_in (codes "go.property(\"\",msg.url())") ≡ Some (record { id = []; ptype = PType.Url; text = [] }) }
    ensures quaternion { declaration_in (codes "go.property(\"q\", vmath.quat())") ≡ Some (record { id = codes "q"; ptype = PType.Quat; text = codes "0, 0, 0, 1" }) }
    ensures too_few { declaration_in (codes "go.property(\"v\", vmath.vector3(1, 2))") ≡ None }
    ensures no_decimal { declaration_in (codes "go.property(\"n\", 1-)") ≡ None }
    ensures blank { declaration_in (codes "go.property (\"n\", 1)") ≡ None }
{}
