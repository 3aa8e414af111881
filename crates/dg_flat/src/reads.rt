//! The reads that `dg_reads` makes of the lists.
ghost use Rattle.std.specs.Prelude.{◌≡◌, IfOk};
ghost use Rattle.dg_base.specs.Chain.{heirs, kind_of};
ghost use Rattle.dg_base.specs.Dirty.{dirty};
ghost use Rattle.dg_base.specs.Rule.{dependencies, endpoints, endpoints_at, ends_of, rule_of};
ghost use Rattle.dg_base.specs.Sources.{sources};
ghost use Rattle.dg_base.specs.Touched.{is_open_arg, outputs, outputs_reading, readers_of_input, readers_of_nodes};
ghost use Rattle.dg_base.specs.Value.{value_at};

use crate::Graph;
use dg_base::{Endpoint, Held, Kind, Label, NodeId, Rule, Schema, Steps};
use std::alloc::AllocError;
use std::sync::ledger::Ledger;

impl<S: Schema> Graph<S> {
    /// The kind of a node, which is that of the plain node at the end of its chain.
    pub fn kind(&self, node: NodeId) -> Option<Kind>
        ensures { result ≡ kind_of self.now node }
    {
        dg_reads::kind(self, node)
    }

    /// The nodes whose chain holds this one, in id order. In time linear in the lengths of all
    /// chains.
    pub fn heirs(&self, node: NodeId) -> Result<Vec<NodeId>, AllocError>
        ensures { IfOk result (λ v. v.items ≡ heirs self.now node) }
    {
        dg_reads::heirs(self, node)
    }

    /// The sources of an input, inherited ones included. In time linear in the arcs for each node of
    /// the chain up to one that has explicit sources, and linear in the nodes for each inherited
    /// source.
    pub fn sources(&self, node: NodeId, input: Label) -> Result<Vec<Endpoint>, AllocError>
        ensures { IfOk result (λ v. v.items ≡ sources self.now node input) }
    {
        dg_reads::sources(self, node, input)
    }

    /// How the value of an endpoint is found. In time linear in the chain of its node and its values
    /// there, and at an output also in the time that `sources` takes for each of its inputs.
    pub fn rule(&self, at: Endpoint) -> Result<Rule, AllocError>
        ensures { IfOk result (λ r. r ≡ rule_of S.tables self.now at) }
    {
        dg_reads::rule(self, at)
    }

    /// The endpoints that the rule of an endpoint names, in order.
    pub fn dependencies(&self, at: Endpoint) -> Result<Vec<Endpoint>, AllocError>
        ensures { IfOk result (λ v. v.items ≡ dependencies S.tables self.now at) }
    {
        dg_reads::dependencies(self, at)
    }

    /// The endpoints of a node: the properties and outputs of its kind in label order, then the
    /// open labels that have a value on some node of its chain, in label order.
    pub fn endpoints_at(&self, node: NodeId) -> Result<Vec<Endpoint>, AllocError>
        ensures { IfOk result (λ v. v.items ≡ endpoints_at S.tables self.now node) }
    {
        dg_reads::endpoints_at(self, node)
    }

    /// The endpoints of all nodes, in id order.
    pub fn endpoints(&self) -> Result<Vec<Endpoint>, AllocError>
        ensures { IfOk result (λ v. v.items ≡ endpoints S.tables self.now) }
    {
        dg_reads::endpoints(self)
    }

    /// The outputs of a node, in label order.
    pub fn outputs_at(&self, node: NodeId) -> Result<Vec<Endpoint>, AllocError>
        ensures { IfOk result (λ v. v.items ≡ ends_of node (outputs S.tables (kind_of self.now node))) }
    {
        dg_reads::outputs_at(self, node)
    }

    /// The outputs of a node that read an input of it, in label order.
    pub fn readers_of_input(&self, node: NodeId, input: Label) -> Result<Vec<Endpoint>, AllocError>
        ensures { IfOk result (λ v. v.items ≡ readers_of_input S.tables self.now input node) }
    {
        dg_reads::readers_of_input(self, node, input)
    }

    /// The outputs of a node that read its open values, in label order.
    pub fn open_readers(&self, node: NodeId) -> Result<Vec<Endpoint>, AllocError>
        ensures { IfOk result (λ v. v.items ≡ outputs_reading S.tables self.now is_open_arg node) }
    {
        dg_reads::open_readers(self, node)
    }

    /// The outputs that read an input with a source on one of these nodes, inherited sources
    /// included, in endpoint order.
    pub fn readers_of_nodes(&self, nodes: &[NodeId]) -> Result<Vec<Endpoint>, AllocError>
        ensures { IfOk result (λ v. v.items ≡ readers_of_nodes S.tables self.now nodes.now) }
    {
        dg_reads::readers_of_nodes(self, nodes)
    }

    /// These endpoints, and every endpoint of the graph that depends on one of them, at first hand or
    /// through others, in endpoint order, each once.
    pub fn dirty(&self, touched: &[Endpoint]) -> Result<Vec<Endpoint>, AllocError>
        ensures { IfOk result (λ v. v.items ≡ dirty S.tables self.now touched.now) }
    {
        dg_reads::dirty(self, touched)
    }

    /// The value of an endpoint, by a table of the values of all endpoints.
    pub fn plain_value<L: Ledger>(
        &self,
        at: Endpoint,
        steps: &mut Steps<L>,
    ) -> Result<Held, AllocError>
        ensures { IfOk result (λ v. v ≡ value_at S.tables self.now at) }
    {
        dg_reads::plain_value(self, at, steps)
    }
}
