//! Copies of whole graphs.
ghost use Rattle.std.specs.Prelude.{◌≡◌, IfOk};

use crate::Graph;
use dg_base::{ArcRec, Node, Schema};
use dg_fields::copied;
use std::alloc::{AllocError, Global};
use std::marker::PhantomData;

impl<S: Schema> Graph<S> {
    /// An equal graph that shares nothing with this one. In time linear in the graph and the bytes
    /// of its own values.
    pub fn copy(&self) -> Result<Graph<S>, AllocError>
        ensures { IfOk result (λ g. g ≡ self.now) }
    {
        let nodes = nodes_of(self.alloc, &self.nodes)?;
        let arcs = arcs_of(self.alloc, &self.arcs)?;
        Ok(Graph {
            alloc: self.alloc,
            nodes,
            arcs,
            of: PhantomData,
        })
    }
}

impl<S: Schema> Clone for Graph<S> {
    ghost is_clone = { λ a b. b ≡ a };

    fn clone(&self) -> Result<Graph<S>, AllocError> {
        self.copy()
    }
}

fn nodes_of(alloc: Global, nodes: &[Node]) -> Result<Vec<Node>, AllocError>
    ensures { IfOk result (λ v. v.items ≡ nodes.now) }
{
    let mut all = Vec::new(alloc);
    for node in nodes {
        let own = copied(alloc, node.own.as_slice())?;
        all.push(Node {
            id: node.id,
            origin: node.origin,
            defective: node.defective,
            own,
        })?;
    }
    Ok(all)
}

fn arcs_of(alloc: Global, arcs: &[ArcRec]) -> Result<Vec<ArcRec>, AllocError>
    ensures { IfOk result (λ v. v.items ≡ arcs.now) }
{
    arcs.iter().map(|arc| *arc).collect(alloc)
}
