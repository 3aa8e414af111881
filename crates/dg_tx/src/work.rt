//! A transaction as far as it was done.
ghost use Rattle.std.specs.Prelude.{◌≡◌, IfOk, IsTrue};
ghost use Rattle.dg_base.specs.Graph.{has_node};
ghost use Rattle.dg_base.specs.Refusal.{Gives};
ghost use Rattle.dg_base.specs.Steps.{id_named, node_named};
ghost use Rattle.dg_tx.specs.Outcome.{progress, found, found_arc};

use dg_base::{ArcRec, Endpoint, Label, NodeId, NodeRef, Refusal, Schema, TxCode};
use dg_view::Graph;
use sqlite_items::at;

/// The graph, the next id, the nodes that the making steps made, and what the steps touched, in the
/// order in which they touched it.
#[derive(Drop)]
pub(crate) struct Work<S: Schema> {
    pub graph: Graph<S>,
    pub next: u32,
    pub made: Vec<NodeId>,
    pub touched: Vec<Endpoint>,
}

impl<S: Schema> Work<S> {
    /// The node of the graph that a reference stands for. `NoNode` where there is none.
    pub fn node(&self, reference: &NodeRef) -> Result<NodeId, Refusal<TxCode>>
        ensures found { Gives (λ n. n) result (found (node_named (progress self.now) reference.now)) }
        ensures there { IfOk result (λ n. IsTrue (has_node self.now.graph n)) }
    {
        match self.id_named(reference) {
            Some(node) if self.has_node(node) => Ok(node),
            _ => Err(Refusal::Because(TxCode::NoNode)),
        }
    }

    /// The arc between the nodes that two references stand for. `NoNode` where one of them stands for
    /// none.
    pub fn arc(
        &self,
        src: &NodeRef,
        label: Label,
        node: &NodeRef,
        input: Label,
    ) -> Result<ArcRec, Refusal<TxCode>>
        ensures found { Gives (λ a. a) result (found_arc (node_named (progress self.now) src.now) label (node_named (progress self.now) node.now) input) }
        ensures src_there { IfOk result (λ a. IsTrue (has_node self.now.graph a.src.node)) }
        ensures there { IfOk result (λ a. IsTrue (has_node self.now.graph a.node)) }
    {
        let from = self.node(src)?;
        let node = self.node(node)?;
        let src = Endpoint { node: from, label };
        Ok(ArcRec { src, node, input })
    }

    // The id that a reference stands for. As deep a recursion as the reference.
    fn id_named(&self, reference: &NodeRef) -> Option<NodeId>
        ensures { result ≡ id_named (progress self.now) reference.now }
    {
        match reference {
            NodeRef::Id(node) => Some(*node),
            NodeRef::New(number) => at(&self.made, *number as usize).copied(),
            NodeRef::In { root, original } => {
                let root = self.id_named(root.get())?;
                let original = self.id_named(original.get())?;
                self.graph.override_in(root, original)
            }
        }
    }

    fn has_node(&self, node: NodeId) -> bool
        ensures { result ≡ has_node self.now.graph node }
    {
        self.graph.origin(node).is_some()
    }
}
