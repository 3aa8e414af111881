//! Override nodes for lists of nodes.
ghost use Rattle.std.specs.Prelude.{[]};
ghost use Rattle.dg_base.specs.Populate.{override_all, MayOverride};
ghost use Rattle.dg_over.specs.Makes.{progress_of, Makes};

use dg_base::{NodeId, Origin, Refusal, Schema, TxCode};
use dg_view::Graph;

/// The highest id of a node.
pub const MAX_NODES: u32 = 262_144;

/// Gives the nodes of a list override nodes in the override of a root, in order, from the id `next`
/// on, and answers the id after them. `TooManyNodes` where an id would be above the limit. After a
/// refusal the graph isn't used further.
pub fn override_all<S: Schema>(
    graph: &mut Graph<S>,
    root: NodeId,
    nodes: &[NodeId],
    next: u32,
) -> Result<u32, Refusal<TxCode>>
    requires { MayOverride S.tables (progress_of graph.old next []) root nodes.now }
    ensures { Makes (override_all root nodes.now) graph.old next graph.new result }
{
    let mut id = next;
    for node in nodes {
        if id > MAX_NODES {
            return Err(Refusal::Because(TxCode::TooManyNodes));
        }
        graph.put_node(
            NodeId(id),
            Origin::Over {
                root,
                original: *node,
            },
        )?;
        id += 1;
    }
    Ok(id)
}
