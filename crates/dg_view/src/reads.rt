//! The reads of a graph.
ghost use Rattle.std.specs.Prelude.{◌≡◌, length, IfOk};
ghost use Rattle.std.specs.Option.{option_copied};
ghost use Rattle.dg_base.specs.Changes.{is_arc};
ghost use Rattle.dg_base.specs.Chain.{heirs, kind_of};
ghost use Rattle.dg_base.specs.Dirty.{dirty};
ghost use Rattle.dg_base.specs.Graph.{origin_at, own_value, override_in, explicit_sources};
ghost use Rattle.dg_base.specs.Owned.{overs};
ghost use Rattle.dg_base.specs.Rule.{endpoints_at, ends_of, rule_of};
ghost use Rattle.dg_base.specs.Sources.{sources};
ghost use Rattle.dg_base.specs.Value.{value_at};
ghost use Rattle.dg_base.specs.Touched.{is_open_arg, outputs, outputs_reading, readers_of_input, readers_of_nodes};

use crate::Graph;
use dg_base::{ArcRec, Datum, Endpoint, Held, Kind, Label, NodeId, Origin, Rule, Schema, Steps};
use std::alloc::AllocError;
use std::sync::ledger::Ledger;

impl<S: Schema> Graph<S> {
    /// How many nodes there are.
    pub fn node_count(&self) -> usize
        ensures { result ≡ length self.now.nodes }
    {
        self.lists.node_count()
    }

    /// How many arcs there are.
    pub fn arc_count(&self) -> usize
        ensures { result ≡ length self.now.arcs }
    {
        self.lists.arc_count()
    }

    /// Where a node comes from, where there is such a node.
    pub fn origin(&self, node: NodeId) -> Option<Origin>
        ensures { result ≡ origin_at self.now node }
    {
        self.lists.origin(node)
    }

    /// The kind of a node, which is that of the plain node at the end of its chain.
    pub fn kind(&self, node: NodeId) -> Option<Kind>
        ensures { result ≡ kind_of self.now node }
    {
        self.lists.kind(node)
    }

    /// The own value of a node at a label.
    pub fn property(&self, node: NodeId, label: Label) -> Option<&Datum>
        ensures { option_copied result ≡ own_value self.now node label }
    {
        self.lists.property(node, label)
    }

    /// The override node of an original in the override that begins at a root.
    pub fn override_in(&self, root: NodeId, original: NodeId) -> Option<NodeId>
        ensures { result ≡ override_in self.now root original }
    {
        self.lists.override_in(root, original)
    }

    /// The override nodes whose original is this node, in id order.
    pub fn overs(&self, node: NodeId) -> Result<Vec<NodeId>, AllocError>
        ensures { IfOk result (λ v. v.items ≡ overs self.now node) }
    {
        self.lists.overs(node)
    }

    /// The nodes whose chain holds this one, in id order.
    pub fn heirs(&self, node: NodeId) -> Result<Vec<NodeId>, AllocError>
        ensures { IfOk result (λ v. v.items ≡ heirs self.now node) }
    {
        self.lists.heirs(node)
    }

    /// Whether there is such an arc.
    pub fn has_arc(&self, arc: ArcRec) -> bool
        ensures { result ≡ is_arc self.now arc }
    {
        self.lists.has_arc(arc)
    }

    /// The sources of the explicit arcs into an input, in the order in which they were connected.
    pub fn explicit_sources(&self, node: NodeId, input: Label) -> Result<Vec<Endpoint>, AllocError>
        ensures { IfOk result (λ v. v.items ≡ explicit_sources self.now node input) }
    {
        self.lists.explicit_sources(node, input)
    }

    /// The sources of an input, inherited ones included.
    pub fn sources(&self, node: NodeId, input: Label) -> Result<Vec<Endpoint>, AllocError>
        ensures { IfOk result (λ v. v.items ≡ sources self.now node input) }
    {
        self.lists.sources(node, input)
    }

    /// How the value of an endpoint is found.
    pub fn rule(&self, at: Endpoint) -> Result<Rule, AllocError>
        ensures { IfOk result (λ r. r ≡ rule_of S.tables self.now at) }
    {
        self.lists.rule(at)
    }

    /// The endpoints of a node, in label order.
    pub fn endpoints_at(&self, node: NodeId) -> Result<Vec<Endpoint>, AllocError>
        ensures { IfOk result (λ v. v.items ≡ endpoints_at S.tables self.now node) }
    {
        self.lists.endpoints_at(node)
    }

    /// The outputs of a node.
    pub fn outputs_at(&self, node: NodeId) -> Result<Vec<Endpoint>, AllocError>
        ensures { IfOk result (λ v. v.items ≡ ends_of node (outputs S.tables (kind_of self.now node))) }
    {
        self.lists.outputs_at(node)
    }

    /// The outputs of a node that read an input.
    pub fn readers_of_input(&self, node: NodeId, input: Label) -> Result<Vec<Endpoint>, AllocError>
        ensures { IfOk result (λ v. v.items ≡ readers_of_input S.tables self.now input node) }
    {
        self.lists.readers_of_input(node, input)
    }

    /// The outputs of a node that read its open values.
    pub fn open_readers(&self, node: NodeId) -> Result<Vec<Endpoint>, AllocError>
        ensures { IfOk result (λ v. v.items ≡ outputs_reading S.tables self.now is_open_arg node) }
    {
        self.lists.open_readers(node)
    }

    /// Each output that reads an input with a source on one of these nodes.
    pub fn readers_of_nodes(&self, nodes: &[NodeId]) -> Result<Vec<Endpoint>, AllocError>
        ensures { IfOk result (λ v. v.items ≡ readers_of_nodes S.tables self.now nodes.now) }
    {
        self.lists.readers_of_nodes(nodes)
    }

    /// The least list, in endpoint order, that holds these endpoints and every endpoint with a
    /// dependency in it.
    pub fn dirty(&self, touched: &[Endpoint]) -> Result<Vec<Endpoint>, AllocError>
        ensures { IfOk result (λ v. v.items ≡ dirty S.tables self.now touched.now) }
    {
        self.lists.dirty(touched)
    }

    /// The value of an endpoint by plain evaluation, by a table of the values of all endpoints. The
    /// slow partner of every other evaluator.
    pub fn plain_value<L: Ledger>(
        &self,
        at: Endpoint,
        steps: &mut Steps<L>,
    ) -> Result<Held, AllocError>
        ensures { IfOk result (λ v. v ≡ value_at S.tables self.now at) }
    {
        self.lists.plain_value(at, steps)
    }
}
