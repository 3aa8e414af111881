//! Laws of the definitions.
ghost use Rattle.std.specs.Prelude.{◌≡◌, ◌≢◌, ℕ, List, Some};
ghost use Rattle.dg_base.specs.declared.ids.NodeId.{NodeId};
ghost use Rattle.dg_bind.specs.Bindings.{Binding, bound_to, bind};

/// The latest binding of a name counts, and every other name stays as it was.
pub fn the_latest_binding_counts()
    ensures latest { (bs : List Binding) (name : List ℕ) (node : NodeId) → bound_to (bind bs name node) name ≡ Some node }
    ensures others { (bs : List Binding) (name : List ℕ) (node : NodeId) (other : List ℕ) → other ≢ name → bound_to (bind bs name node) other ≡ bound_to bs other }
{}
