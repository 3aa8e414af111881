//! Worked cases: each function here has an empty body, and its contract states what a definition gives. The checker
//! computes them.
ghost use Rattle.std.specs.Prelude.{◌≡◌, [], ◌∷◌, codes};
ghost use Rattle.dg_sources.specs.declared.bad.BadCode.TheVariants as bad;
ghost use Rattle.dg_load.specs.Loads.{loaded_in, names_in};
ghost use Rattle.dg_load.specs.Worked.{recursive, recursive_steps, layered, layered_steps};

/// A collection that names itself: the instance is defective, and its place is bad.
#[tactic(auto, unfolding(crate::specs::Loads::all_parts))]
pub fn recursive()
    ensures steps { (loaded_in recursive []).steps ≡ recursive_steps }
    ensures bad { (loaded_in recursive []).bad ≡ record { path = codes "/r.collection"; line = 2; code = bad.Recursive } ∷ [] }
{}

/// A property of a script, of a component with it, and of an instance of the game object: its name is interned once.
#[tactic(auto, unfolding(crate::specs::Loads::all_parts))]
pub fn layered()
    ensures steps { (loaded_in layered []).steps ≡ layered_steps }
    ensures names { names_in layered [] ≡ codes "speed" ∷ [] }
{}
