//! The reads that each form of a graph gives by itself.
ghost use Rattle.std.specs.Prelude.{◌≡◌, ◌&&◌, slice_get, IfOk};
ghost use Rattle.std.specs.List.{list_any};
ghost use Rattle.std.specs.Option.{option_copied};
ghost use Rattle.dg_base.specs.Graph.{Graph, explicit_sources, id_of, origin_at, override_in, own_value};
ghost use Rattle.dg_base.specs.Same.{same_node, same_label};
ghost use Rattle.dg_base.specs.Sound.{IsLinked, IsSound};
ghost use Rattle.dg_reads.specs.NodeReads.{mark_at, own_open};

use dg_base::{Datum, Endpoint, Fields, Label, NodeId, Origin, Schema};
use std::alloc::{AllocError, Global};

/// A project graph of kinds of a schema, by what the reads here need to know of it. The costs are
/// those to aim at, where n is the number of nodes.
pub trait CoreReads<S: Schema> {
    ghost graph: { Self → Graph };

    /// Where the memory of answers comes from. In constant time.
    fn alloc(&self) -> Global;

    /// That the graph is sound, for proofs. It does nothing.
    fn is_sound(&self)
        ensures { IsSound S.tables (graph self.now) };

    /// The id at a place in id order, counted from 0, where there are more nodes than that. In time
    /// logarithmic in n.
    fn id_at(&self, place: usize) -> Option<NodeId>
        ensures { result ≡ id_of (slice_get (graph self.now).nodes place) };

    /// Where a node comes from, where there is such a node. In time logarithmic in n.
    fn origin(&self, node: NodeId) -> Option<Origin>
        ensures { result ≡ origin_at (graph self.now) node };

    /// Whether a node is marked defective; a node that isn't there is not. In time logarithmic in n.
    fn is_marked(&self, node: NodeId) -> bool
        ensures { result ≡ mark_at (graph self.now) node };

    /// The own value of a node at a label. In time logarithmic in n and linear in its own values.
    fn property(&self, node: NodeId, label: Label) -> Option<&Datum>
        ensures { option_copied result ≡ own_value (graph self.now) node label };

    /// A node's own values at open labels, in label order, made anew. In time logarithmic in n and
    /// linear in the bytes of its own values.
    fn own_open(&self, node: NodeId) -> Result<Fields, AllocError>
        ensures { IfOk result (λ fs. fs ≡ own_open (graph self.now) node) };

    /// The override node of an original in the override that begins at a root. In time linear in n at
    /// most.
    fn override_in(&self, root: NodeId, original: NodeId) -> Option<NodeId>
        ensures { result ≡ override_in (graph self.now) root original };

    /// Whether there is an explicit arc into an input. In time linear in the arcs at most.
    fn has_arc_into(&self, node: NodeId, input: Label) -> bool
        ensures { result ≡ list_any (λ a. same_node a.node node && same_label a.input input) (graph self.now).arcs };

    /// The sources of the explicit arcs into an input, in the order in which they were connected. In
    /// time linear in the arcs at most.
    fn explicit_sources(&self, node: NodeId, input: Label) -> Result<Vec<Endpoint>, AllocError>
        ensures { IfOk result (λ v. v.items ≡ explicit_sources (graph self.now) node input) };
}

// That the originals and the ends of the arcs are there.
pub(crate) fn is_linked<S: Schema, G: CoreReads<S>>(graph: &G)
    ensures { IsLinked (G.graph graph.now) }
{
    graph.is_sound();
}
