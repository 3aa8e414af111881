//! Changes of a graph, for the layers that transactions are made of. Each asks that the graph which
//! it gives is sound. Where memory is refused the graph isn't used further: the caller drops its share.
//! Where the lists are shared, the first change copies them, in time linear in the graph.
ghost use Rattle.std.specs.Prelude.{◌≡◌, IsTrue, IfOk, OnOk};
ghost use Rattle.dg_base.specs.Changes.{is_arc, new_node, with_node, with_value, without_value, with_mark, with_arc, without_arc, without_arcs_into, without_nodes};
ghost use Rattle.dg_base.specs.Graph.{has_node};
ghost use Rattle.dg_base.specs.Sound.{IsSound};

use crate::Graph;
use dg_base::{ArcRec, Datum, Label, NodeId, Origin, Schema};
use std::alloc::AllocError;
use std::sync::Arc;

impl<S: Schema> Graph<S> {
    /// Adds a node without values, behind all others.
    pub fn put_node(&mut self, node: NodeId, origin: Origin) -> Result<(), AllocError>
        requires { IsSound S.tables (with_node self.old (new_node node origin)) }
        ensures { OnOk result (self.new ≡ with_node self.old (new_node node origin)) }
    {
        let lists = Arc::make_mut(&mut self.lists)?;
        lists.put_node(node, origin)
    }

    /// Removes nodes, and every arc that touches one of them.
    pub fn drop_nodes(&mut self, nodes: &[NodeId]) -> Result<(), AllocError>
        requires { IsSound S.tables (without_nodes self.old nodes.now) }
        ensures { OnOk result (self.new ≡ without_nodes self.old nodes.now) }
    {
        let lists = Arc::make_mut(&mut self.lists)?;
        lists.drop_nodes(nodes)
    }

    /// Gives a node a value of its own at a label, in place of one that it has there.
    pub fn set_value(&mut self, node: NodeId, label: Label, value: Datum) -> Result<(), AllocError>
        requires there { IsTrue (has_node self.old node) }
        requires sound { IsSound S.tables (with_value self.old node label value) }
        ensures { OnOk result (self.new ≡ with_value self.old node label value) }
    {
        let lists = Arc::make_mut(&mut self.lists)?;
        lists.set_value(node, label, value)
    }

    /// Takes away a node's own value at a label, if it has one.
    pub fn clear_value(&mut self, node: NodeId, label: Label) -> Result<(), AllocError>
        requires there { IsTrue (has_node self.old node) }
        requires sound { IsSound S.tables (without_value self.old node label) }
        ensures { OnOk result (self.new ≡ without_value self.old node label) }
    {
        let lists = Arc::make_mut(&mut self.lists)?;
        lists.clear_value(node, label)
    }

    /// Marks a node defective, or takes the mark away.
    pub fn set_mark(&mut self, node: NodeId, defective: bool) -> Result<(), AllocError>
        requires there { IsTrue (has_node self.old node) }
        requires sound { IsSound S.tables (with_mark self.old node defective) }
        ensures { OnOk result (self.new ≡ with_mark self.old node defective) }
    {
        let lists = Arc::make_mut(&mut self.lists)?;
        lists.set_mark(node, defective)
    }

    /// Adds an arc as the last one.
    pub fn add_arc(&mut self, arc: ArcRec) -> Result<(), AllocError>
        requires { IsSound S.tables (with_arc self.old arc) }
        ensures { OnOk result (self.new ≡ with_arc self.old arc) }
    {
        let lists = Arc::make_mut(&mut self.lists)?;
        lists.add_arc(arc)
    }

    /// Removes an arc, and answers whether it was there.
    pub fn remove_arc(&mut self, arc: ArcRec) -> Result<bool, AllocError>
        requires { IsSound S.tables (without_arc self.old arc) }
        ensures graph { OnOk result (self.new ≡ without_arc self.old arc) }
        ensures there { IfOk result (λ there. there ≡ is_arc self.old arc) }
    {
        let lists = Arc::make_mut(&mut self.lists)?;
        lists.remove_arc(arc)
    }

    /// Removes the explicit arcs into an input.
    pub fn remove_arcs_into(&mut self, node: NodeId, input: Label) -> Result<(), AllocError>
        requires { IsSound S.tables (without_arcs_into self.old node input) }
        ensures { OnOk result (self.new ≡ without_arcs_into self.old node input) }
    {
        let lists = Arc::make_mut(&mut self.lists)?;
        lists.remove_arcs_into(node, input)
    }
}
