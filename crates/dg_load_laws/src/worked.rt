//! A worked case: what the checker computes of the load of a small project.
ghost use Rattle.std.specs.Prelude.{◌≡◌, ◌∷◌, []};
ghost use Rattle.dg_load.specs.Worked.{recursive_steps};
ghost use Rattle.dg_load_laws.specs.Laws.{makes_in};
ghost use Rattle.dg_load_laws.specs.Worked.{recursive_ids};

/// The load of a collection that names itself is accepted: its two making steps make the nodes 1 and 2.
pub fn recursive_is_accepted()
    ensures steps { makes_in recursive_steps ≡ 2 }
    ensures ids { recursive_ids ≡ 1 ∷ 2 ∷ [] }
{}
