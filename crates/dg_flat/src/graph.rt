//! The graph, and what is read of its lists themselves.
ghost use Rattle.std.specs.Prelude.{◌≡◌, ◌&&◌, IfOk, length, slice_get};
ghost use Rattle.std.specs.List.{list_any};
ghost use Rattle.std.specs.Option.{option_copied};
ghost use Rattle.dg_base.specs.Changes.{is_arc};
ghost use Rattle.dg_base.specs.Graph.{empty, explicit_sources, id_of, node_at, origin_at, override_in, own_value};
ghost use Rattle.dg_base.specs.Owned.{overs};
ghost use Rattle.dg_base.specs.Same.{same_node, same_label};
ghost use Rattle.dg_base.specs.Sound.{IsSound};
ghost use Rattle.dg_reads.specs.NodeReads.{mark_at, own_open};

use crate::arcs::{is_one_into, is_one_of, sources_among};
use crate::nodes::{node_in, open_among, override_among, overs_among};
use dg_base::{ArcRec, Datum, Endpoint, Fields, Label, Node, NodeId, Origin, Schema};
use dg_fields::value_in;
use dg_reads::CoreReads;
use sqlite_items::at;
use std::alloc::{AllocError, Global};
use std::marker::{Model, PhantomData};

/// A project graph as two plain lists. It is sound at every moment.
#[derive(Drop)]
pub struct Graph<S: Schema> {
    pub(crate) alloc: Global,
    pub(crate) nodes: Vec<Node>,
    pub(crate) arcs: Vec<ArcRec>,
    pub(crate) of: PhantomData<S>,
}

impl<S: Schema> Model for Graph<S> {
    ghost use Rattle.dg_base.specs.Graph.{Graph as Lists};
    ghost use Rattle.dg_base.specs.Sound.{IsSound};
    ghost use Rattle.dg_flat.specs.Code.{graph_code};

    ghost Value = { Lists };

    ghost coded = { graph_code };

    ghost view = { λ s. record { nodes = s.nodes.items; arcs = s.arcs.items } };

    ghost invariant = { λ s. IsSound S.tables (record { nodes = s.nodes.items; arcs = s.arcs.items }) };
}

impl<S: Schema> Graph<S> {
    /// A graph without nodes. It takes no memory yet.
    pub fn new(alloc: Global) -> Graph<S>
        ensures { result ≡ empty }
    {
        Graph {
            alloc,
            nodes: Vec::new(alloc),
            arcs: Vec::new(alloc),
            of: PhantomData,
        }
    }

    /// That the graph is sound, for proofs. It does nothing.
    pub fn is_sound(&self)
        ensures { IsSound S.tables self.now }
    {
        let _nodes = self.nodes.len();
    }

    /// How many nodes there are.
    pub fn node_count(&self) -> usize
        ensures { result ≡ length self.now.nodes }
    {
        self.nodes.len()
    }

    /// How many arcs there are.
    pub fn arc_count(&self) -> usize
        ensures { result ≡ length self.now.arcs }
    {
        self.arcs.len()
    }

    /// Where a node comes from, where there is such a node. In time logarithmic in the nodes.
    pub fn origin(&self, node: NodeId) -> Option<Origin>
        ensures { result ≡ origin_at self.now node }
    {
        Some(self.node(node)?.origin)
    }

    /// The own value of a node at a label. In time logarithmic in the nodes and linear in the node's
    /// own values.
    pub fn property(&self, node: NodeId, label: Label) -> Option<&Datum>
        ensures { option_copied result ≡ own_value self.now node label }
    {
        value_in(self.node(node)?.own.as_slice(), label)
    }

    /// The override node of an original in the override that begins at a root. In time linear in the
    /// nodes.
    pub fn override_in(&self, root: NodeId, original: NodeId) -> Option<NodeId>
        ensures { result ≡ override_in self.now root original }
    {
        override_among(&self.nodes, root, original)
    }

    /// The override nodes whose original is this node, in id order. In time linear in the nodes.
    pub fn overs(&self, node: NodeId) -> Result<Vec<NodeId>, AllocError>
        ensures { IfOk result (λ v. v.items ≡ overs self.now node) }
    {
        overs_among(self.alloc, &self.nodes, node)
    }

    /// Whether there is such an arc. In time linear in the arcs.
    pub fn has_arc(&self, arc: ArcRec) -> bool
        ensures { result ≡ is_arc self.now arc }
    {
        is_one_of(&self.arcs, arc)
    }

    /// The sources of the explicit arcs into an input, in the order in which they were connected. In
    /// time linear in the arcs.
    pub fn explicit_sources(&self, node: NodeId, input: Label) -> Result<Vec<Endpoint>, AllocError>
        ensures { IfOk result (λ v. v.items ≡ explicit_sources self.now node input) }
    {
        sources_among(self.alloc, &self.arcs, node, input)
    }

    // The node with an id.
    fn node(&self, node: NodeId) -> Option<&Node>
        ensures { option_copied result ≡ node_at self.now node }
    {
        node_in(&self.nodes, node)
    }
}

impl<S: Schema> CoreReads<S> for Graph<S> {
    ghost graph = { λ s. s };

    fn alloc(&self) -> Global {
        self.alloc
    }

    fn is_sound(&self) {
        Graph::is_sound(self);
    }

    fn id_at(&self, place: usize) -> Option<NodeId> {
        Some(at(&self.nodes, place)?.id)
    }

    fn origin(&self, node: NodeId) -> Option<Origin> {
        Graph::origin(self, node)
    }

    fn is_marked(&self, node: NodeId) -> bool {
        match self.node(node) {
            Some(found) => found.defective,
            None => false,
        }
    }

    fn property(&self, node: NodeId, label: Label) -> Option<&Datum> {
        Graph::property(self, node, label)
    }

    fn own_open(&self, node: NodeId) -> Result<Fields, AllocError> {
        match self.node(node) {
            Some(found) => open_among(self.alloc, found.own.as_slice()),
            None => Ok(Fields::new(self.alloc)),
        }
    }

    fn override_in(&self, root: NodeId, original: NodeId) -> Option<NodeId> {
        Graph::override_in(self, root, original)
    }

    fn has_arc_into(&self, node: NodeId, input: Label) -> bool {
        is_one_into(&self.arcs, node, input)
    }

    fn explicit_sources(&self, node: NodeId, input: Label) -> Result<Vec<Endpoint>, AllocError> {
        Graph::explicit_sources(self, node, input)
    }
}
