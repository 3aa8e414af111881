//! Changes of a graph. Each asks that the graph which it gives is sound. Where memory is refused the
//! graph isn't used further.
ghost use Rattle.std.specs.Prelude.{◌≡◌, ◌&&◌, filter, not, IsTrue, IfOk, OnOk};
ghost use Rattle.dg_base.specs.Changes.{is_arc, new_node, stays, with_node, with_value, without_value, with_mark, with_arc, without_arc, without_arcs_into, without_nodes};
ghost use Rattle.dg_base.specs.Graph.{has_node};
ghost use Rattle.dg_base.specs.Order.{is_node_among};
ghost use Rattle.dg_base.specs.Same.{same_node, same_label, same_arc};
ghost use Rattle.dg_base.specs.Sound.{IsSound};

use crate::Graph;
use crate::arcs::{is_one_of, is_same};
use crate::nodes::place_in;
use dg_base::{ArcRec, Datum, Fields, Label, Node, NodeId, Origin, Schema};
use dg_fields::{clear, put};
use std::alloc::AllocError;

impl<S: Schema> Graph<S> {
    /// Adds a node without values, behind all others. In constant time, spread over the calls.
    pub fn put_node(&mut self, node: NodeId, origin: Origin) -> Result<(), AllocError>
        requires { IsSound S.tables (with_node self.old (new_node node origin)) }
        ensures { OnOk result (self.new ≡ with_node self.old (new_node node origin)) }
    {
        let own = Fields::new(self.alloc);
        self.nodes.push(Node {
            id: node,
            origin,
            defective: false,
            own,
        })?;
        Ok(())
    }

    /// Gives a node a value of its own at a label, in place of one that it has there. In time
    /// linear in the node's own values.
    pub fn set_value(&mut self, node: NodeId, label: Label, value: Datum) -> Result<(), AllocError>
        requires there { IsTrue (has_node self.old node) }
        requires sound { IsSound S.tables (with_value self.old node label value) }
        ensures { OnOk result (self.new ≡ with_value self.old node label value) }
    {
        let alloc = self.alloc;
        let place = place_in(&self.nodes, node);
        let found = &mut self.nodes[place];
        put(alloc, &mut found.own, label, value)
    }

    /// Takes away a node's own value at a label, if it has one. In time linear in the node's own
    /// values.
    pub fn clear_value(&mut self, node: NodeId, label: Label) -> Result<(), AllocError>
        requires there { IsTrue (has_node self.old node) }
        requires sound { IsSound S.tables (without_value self.old node label) }
        ensures { OnOk result (self.new ≡ without_value self.old node label) }
    {
        let place = place_in(&self.nodes, node);
        let found = &mut self.nodes[place];
        clear(&mut found.own, label);
        Ok(())
    }

    /// Marks a node defective, or takes the mark away. In time logarithmic in the nodes.
    pub fn set_mark(&mut self, node: NodeId, defective: bool) -> Result<(), AllocError>
        requires there { IsTrue (has_node self.old node) }
        requires sound { IsSound S.tables (with_mark self.old node defective) }
        ensures { OnOk result (self.new ≡ with_mark self.old node defective) }
    {
        let place = place_in(&self.nodes, node);
        self.nodes[place].defective = defective;
        Ok(())
    }

    /// Adds an arc as the last one. In constant time, spread over the calls.
    pub fn add_arc(&mut self, arc: ArcRec) -> Result<(), AllocError>
        requires { IsSound S.tables (with_arc self.old arc) }
        ensures { OnOk result (self.new ≡ with_arc self.old arc) }
    {
        self.arcs.push(arc)?;
        Ok(())
    }

    /// Removes an arc, and answers whether it was there. In time linear in the arcs.
    pub fn remove_arc(&mut self, arc: ArcRec) -> Result<bool, AllocError>
        requires { IsSound S.tables (without_arc self.old arc) }
        ensures graph { OnOk result (self.new ≡ without_arc self.old arc) }
        ensures there { IfOk result (λ there. there ≡ is_arc self.old arc) }
    {
        let there = is_one_of(&self.arcs, arc);
        keep_others(&mut self.arcs, arc);
        Ok(there)
    }

    /// Removes the explicit arcs into an input. In time linear in the arcs.
    pub fn remove_arcs_into(&mut self, node: NodeId, input: Label) -> Result<(), AllocError>
        requires { IsSound S.tables (without_arcs_into self.old node input) }
        ensures { OnOk result (self.new ≡ without_arcs_into self.old node input) }
    {
        keep_elsewhere(&mut self.arcs, node, input);
        Ok(())
    }

    /// Removes nodes, and every arc that touches one of them. In time linear in the nodes and arcs,
    /// for each removed node.
    pub fn drop_nodes(&mut self, nodes: &[NodeId]) -> Result<(), AllocError>
        requires { IsSound S.tables (without_nodes self.old nodes.now) }
        ensures { OnOk result (self.new ≡ without_nodes self.old nodes.now) }
    {
        keep_nodes(&mut self.nodes, nodes);
        keep_arcs(&mut self.arcs, nodes);
        Ok(())
    }
}

fn keep_others(arcs: &mut Vec<ArcRec>, arc: ArcRec)
    ensures { arcs.new.items ≡ filter (λ b. not (same_arc arc b)) arcs.old.items }
{
    arcs.retain(|known| differs(arc, *known));
}

fn keep_elsewhere(arcs: &mut Vec<ArcRec>, node: NodeId, input: Label)
    ensures { arcs.new.items ≡ filter (λ a. not (same_node a.node node && same_label a.input input)) arcs.old.items }
{
    arcs.retain(|known| is_elsewhere(*known, node, input));
}

fn keep_nodes(nodes: &mut Vec<Node>, gone: &[NodeId])
    ensures { nodes.new.items ≡ filter (λ x. not (is_node_among gone.now x.id)) nodes.old.items }
{
    nodes.retain(|known| is_left(gone, known.id));
}

fn keep_arcs(arcs: &mut Vec<ArcRec>, gone: &[NodeId])
    ensures { arcs.new.items ≡ filter (stays gone.now) arcs.old.items }
{
    arcs.retain(|known| stays(gone, *known));
}

fn is_among(nodes: &[NodeId], node: NodeId) -> bool
    ensures { result ≡ is_node_among nodes.now node }
{
    nodes.iter().any(|known| node.0 == known.0)
}

fn differs(a: ArcRec, b: ArcRec) -> bool
    ensures { result ≡ not (same_arc a b) }
{
    !is_same(a, b)
}

fn is_elsewhere(arc: ArcRec, node: NodeId, input: Label) -> bool
    ensures { result ≡ not (same_node arc.node node && same_label arc.input input) }
{
    !(arc.node.0 == node.0 && arc.input.0 == input.0)
}

fn is_left(gone: &[NodeId], node: NodeId) -> bool
    ensures { result ≡ not (is_node_among gone.now node) }
{
    !is_among(gone, node)
}

fn stays(gone: &[NodeId], arc: ArcRec) -> bool
    ensures { result ≡ stays gone.now arc }
{
    is_left(gone, arc.src.node) && is_left(gone, arc.node)
}
