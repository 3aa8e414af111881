//! The limits of a graph.
ghost use Rattle.std.specs.Prelude.{◌≡◌};
ghost use Rattle.dg_base.specs.Sound.{max_arcs, max_nodes};

/// The highest id of a node.
pub use dg_over::MAX_NODES;

/// The most arcs that a graph has.
pub const MAX_ARCS: usize = 1_048_576;

/// Both limits, the highest node id first. They are those of sound graphs.
pub fn most_nodes_and_arcs() -> (u32, usize)
    ensures nodes { result.0 ≡ max_nodes }
    ensures arcs { result.1 ≡ max_arcs }
{
    (MAX_NODES, MAX_ARCS)
}
