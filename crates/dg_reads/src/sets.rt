//! Sets of nodes and of endpoints, in which one is found in logarithmic time.
ghost use Rattle.std.specs.Prelude.{◌≡◌, List, Bool, false, IfOk, OnOk};
ghost use Rattle.dg_base.specs.Order.{is_end_among, is_node_among, ordered, ordered_nodes, put_end};

use dg_base::{Endpoint, NodeId};
use std::alloc::{AllocError, Global};
use std::collections::BTreeSet;
use std::marker::Model;

/// A set of nodes. Contracts see the nodes, in id order.
#[derive(Drop)]
pub(crate) struct NodeSet {
    set: BTreeSet<NodeId>,
}

impl Model for NodeSet {
    ghost use Rattle.std.specs.Prelude.{List};
    ghost use Rattle.dg_base.specs.declared.ids.NodeId.{NodeId};

    ghost Value = { List NodeId };

    ghost view = { λ s. s.set.keys };
}

impl NodeSet {
    pub(crate) fn of(alloc: Global, nodes: &[NodeId]) -> Result<NodeSet, AllocError>
        ensures { IfOk result (λ s. s ≡ ordered_nodes nodes.now) }
    {
        let mut set = BTreeSet::new(alloc);
        for node in nodes {
            set.insert(*node)?;
        }
        Ok(NodeSet { set })
    }

    pub(crate) fn has(&self, node: NodeId) -> bool
        ensures { result ≡ is_node_among self.now node }
    {
        self.set.contains(&node)
    }
}

/// A set of endpoints. Contracts see the endpoints, in their order.
#[derive(Drop)]
pub(crate) struct EndSet {
    set: BTreeSet<Endpoint>,
}

impl Model for EndSet {
    ghost use Rattle.std.specs.Prelude.{List};
    ghost use Rattle.dg_base.specs.declared.ids.Endpoint.{Endpoint};

    ghost Value = { List Endpoint };

    ghost view = { λ s. s.set.keys };
}

impl EndSet {
    pub(crate) fn of(alloc: Global, ends: &[Endpoint]) -> Result<EndSet, AllocError>
        ensures { IfOk result (λ s. s ≡ ordered ends.now) }
    {
        let mut all = EndSet {
            set: BTreeSet::new(alloc),
        };
        for end in ends {
            all.put(*end)?;
        }
        Ok(all)
    }

    pub(crate) fn has(&self, end: Endpoint) -> bool
        ensures { result ≡ is_end_among self.now end }
    {
        self.set.contains(&end)
    }

    // Says whether the endpoint is new.
    pub(crate) fn put(&mut self, end: Endpoint) -> Result<bool, AllocError>
        ensures ok { OnOk result (self.new ≡ put_end end self.old) }
        ensures added { IfOk result (λ added. added ≡ false → self.new ≡ self.old) }
    {
        Ok(self.set.insert(end)?)
    }

    pub(crate) fn to_vec(&self, alloc: Global) -> Result<Vec<Endpoint>, AllocError>
        ensures { IfOk result (λ v. v.items ≡ self.now) }
    {
        let mut ends = Vec::new(alloc);
        for end in &self.set {
            ends.push(*end)?;
        }
        Ok(ends)
    }
}
