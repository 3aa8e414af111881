//! Nodes in id order.
ghost use Rattle.std.specs.Prelude.{◌≡◌};
ghost use Rattle.dg_base.specs.Order.{ordered_nodes};

use dg_base::NodeId;

/// Nodes in id order, each once.
pub(crate) fn in_order(mut nodes: Vec<NodeId>) -> Vec<NodeId>
    ensures { result.items ≡ ordered_nodes nodes.items }
{
    nodes.sort_unstable();
    nodes.dedup();
    nodes
}
