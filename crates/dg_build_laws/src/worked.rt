//! Worked cases: each function here has an empty body, and its contract states what the definitions give for a graph of
//! `specs/Worked.antt`. The checker computes them.
ghost use Rattle.std.specs.Prelude.{◌≡◌, [], ◌∷◌, codes};
ghost use Rattle.dg_base.specs.declared.ids.Endpoint.{Endpoint};
ghost use Rattle.dg_base.specs.declared.answer.FaultCode.TheVariants as code;
ghost use Rattle.dg_base.specs.Sound.{IsSound};
ghost use Rattle.dg_base.specs.Value.{one_fault};
ghost use Rattle.dg_labels.specs.declared.labels.TheConstants.{COMPONENT};
ghost use Rattle.dg_kinds_coll.specs.Defold.{defold_tables};
ghost use Rattle.dg_build_laws.specs.Worked.{node_id, with_type, built, paths_of};

/// A game object with an embedded component is sound, and its build files have their paths.
pub fn builds_two_files()
    ensures sound { IsSound defold_tables (with_type (codes "t")) }
    ensures paths { paths_of (built (with_type (codes "t"))) ≡ codes "/a_component_0.tc" ∷ codes "/a.goc" ∷ [] }
{}

/// A type by which a path would leave the folder makes the component a fault, and so nothing is built.
pub fn refuses_ways_out()
    ensures sound { IsSound defold_tables (with_type (codes "/../t")) }
    ensures fault { built (with_type (codes "/../t")) ≡ one_fault (record { node = node_id 2; label = COMPONENT }) code.BadName }
{}
