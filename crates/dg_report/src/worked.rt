//! Worked cases: each function here has an empty body, and its contract states what is printed of a
//! value of `specs/Worked.antt`. The checker computes them.
ghost use Rattle.std.specs.Prelude.{◌≡◌, codes};
ghost use Rattle.dg_base.specs.declared.answer.Answer.TheVariants as answer;
ghost use Rattle.dg_report.specs.Text.{value_text, answer_text};
ghost use Rattle.dg_report.specs.Worked.{one_name, component, faults, property, some_values};

/// A record, an open property and a list.
#[tactic(auto, unfolding(dg_text::specs::Quoted::escaped, crate::specs::Parts::name_of))]
pub fn prints_values()
    ensures record_ { value_text one_name component ≡ codes "{id: \"c\", type: \"\", data: \"\", position: [0, 0, 0], rotation: [0, 0, 0, 1]}" }
    ensures property { value_text one_name property ≡ codes "speed vector3 \"1, 2, 3\"" }
    ensures list { value_text one_name some_values ≡ codes "(nil, false, -0.5, speed vector3 \"1, 2, 3\")" }
{}

/// Faults in their order, each with its endpoint.
#[tactic(auto, unfolding(crate::specs::Parts::name_of))]
pub fn prints_faults()
    ensures { answer_text faults one_name ≡ codes "fault 1.value Range, 20:speed BadName, 3.99 NoEndpoint, 4:1025 Defective" }
{}
