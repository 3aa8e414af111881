//! Nodes in the order in which they were first met.
ghost use Rattle.std.specs.Prelude.{◌≡◌, [], fold, not, IfOk, OnOk};
ghost use Rattle.dg_base.specs.Order.{is_node_among};
ghost use Rattle.dg_over.specs.Met.{meet};

use dg_base::NodeId;
use indexmap::IndexSet;
use std::alloc::{AllocError, Global};
use std::marker::Model;

/// Nodes in the order in which they were first met, each once. Whether one was met is looked up in
/// constant time on average. Contracts see the list.
#[derive(Drop)]
pub(crate) struct Met {
    nodes: IndexSet<NodeId>,
}

impl Model for Met {
    ghost use Rattle.std.specs.Prelude.{List};
    ghost use Rattle.dg_base.specs.declared.ids.NodeId.{NodeId};

    ghost Value = { List NodeId };

    ghost view = { λ m. m.nodes.keys };
}

impl Met {
    pub(crate) fn new(alloc: Global) -> Met
        ensures { result ≡ [] }
    {
        Met {
            nodes: IndexSet::new(alloc),
        }
    }

    // Says whether the node is new.
    pub(crate) fn put(&mut self, node: NodeId) -> Result<bool, AllocError>
        ensures ok { OnOk result (self.new ≡ meet self.old node) }
        ensures added { IfOk result (λ added. added ≡ not (is_node_among self.old node)) }
    {
        Ok(self.nodes.insert(node)?)
    }

    pub(crate) fn put_all(&mut self, nodes: &[NodeId]) -> Result<(), AllocError>
        ensures { OnOk result (self.new ≡ fold meet self.old nodes.now) }
    {
        for node in nodes {
            self.put(*node)?;
        }
        Ok(())
    }

    pub(crate) fn as_slice(&self) -> &[NodeId]
        ensures { result.now ≡ self.now }
    {
        self.nodes.as_slice()
    }
}
