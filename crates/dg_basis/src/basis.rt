//! The nodes: a map by id, and two indexes of the override nodes.
ghost use Rattle.std.specs.Prelude.{◌≡◌, [], length, slice_get, option_map, Some, IsTrue, IfOk, OnOk, OnErr};
ghost use Rattle.std.specs.Option.{option_copied};
ghost use Rattle.dg_base.specs.Graph.{has_node, id_of, node_at};
ghost use Rattle.dg_basis.specs.NodeLists.{node_of, nodes_alone, put_node, without_node};

use crate::NodeRec;
use crate::keys::{over_key, place_key, put_key, take_key};
use dg_base::{NodeId, Origin};
use dg_pmap::PMap;
use std::alloc::{AllocError, Global};
use std::marker::Model;

/// Nodes by id. Contracts see the list of nodes in id order.
///
/// Override nodes stand in two indexes beside the map: under root, original and id, and under original
/// and id. Both follow the map at every moment.
#[derive(Drop)]
pub struct Basis {
    pub(crate) alloc: Global,
    nodes: PMap<NodeId, NodeRec>,
    pub(crate) places: PMap<((NodeId, NodeId), NodeId), ()>,
    pub(crate) overs: PMap<(NodeId, NodeId), ()>,
}

impl Model for Basis {
    ghost use Rattle.std.specs.Prelude.{List, map};
    ghost use Rattle.dg_base.specs.declared.graph.Node.{Node};
    ghost use Rattle.dg_basis.specs.NodeLists.{node_of, nodes_code};
    ghost use Rattle.dg_basis.specs.Keys.{AreKept};

    ghost Value = { List Node };

    ghost coded = { nodes_code };

    ghost view = { λ b. map node_of b.nodes };

    ghost invariant = { λ b. AreKept b.nodes b.places b.overs };
}

impl Basis {
    /// No nodes. It takes no memory.
    pub fn new(alloc: Global) -> Basis
        ensures { result ≡ [] }
    {
        Basis {
            alloc,
            nodes: PMap::new(alloc),
            places: PMap::new(alloc),
            overs: PMap::new(alloc),
        }
    }

    /// How many nodes there are, in constant time.
    pub fn len(&self) -> usize
        ensures { result ≡ length self.now }
    {
        self.nodes.len()
    }

    /// The id of the node at a place in id order. In time logarithmic in the nodes.
    pub fn id_at(&self, place: usize) -> Option<NodeId>
        ensures { result ≡ id_of (slice_get self.now place) }
    {
        match self.nodes.at(place) {
            Some((node, _)) => Some(*node),
            None => None,
        }
    }

    /// What is known of the node with an id, where there is one. In time logarithmic in the nodes.
    pub fn node(&self, node: NodeId) -> Option<&NodeRec>
        ensures { option_map (λ r. node_of (node, r)) (option_copied result) ≡ node_at (nodes_alone self.now) node }
    {
        self.nodes.get(&node)
    }

    /// Puts a node, in place of the one with its id where there is one. In time logarithmic in the
    /// nodes, and a node whose origin stays changes no index. Where there is no memory the nodes are as
    /// before.
    pub fn put(&mut self, node: NodeId, node_rec: NodeRec) -> Result<(), AllocError>
        ensures ok { OnOk result (self.new ≡ put_node (node_of (node, node_rec)) self.old) }
        ensures err { OnErr result (self.new ≡ self.old) }
    {
        let origin = node_rec.origin;
        let before = origin_of(self.nodes.get(&node));
        if is_same(before, origin) {
            self.nodes.insert(node, node_rec)?;
            return Ok(());
        }
        let mut places = self.places.share()?;
        take_key(&mut places, place_key(node, before))?;
        put_key(&mut places, place_key(node, Some(origin)))?;
        let mut overs = self.overs.share()?;
        take_key(&mut overs, over_key(node, before))?;
        put_key(&mut overs, over_key(node, Some(origin)))?;
        self.nodes.insert(node, node_rec)?;
        self.places = places;
        self.overs = overs;
        Ok(())
    }

    /// Takes a node out, and says whether it was there. In time logarithmic in the nodes. Nothing is
    /// touched where it isn't there; where there is no memory the nodes are as before.
    pub fn take_out(&mut self, node: NodeId) -> Result<bool, AllocError>
        ensures ok { OnOk result (self.new ≡ without_node node self.old) }
        ensures there { IfOk result (λ there. there ≡ has_node (nodes_alone self.old) node) }
        ensures err { OnErr result (self.new ≡ self.old) }
    {
        let before = origin_of(self.nodes.get(&node));
        let mut places = self.places.share()?;
        take_key(&mut places, place_key(node, before))?;
        let mut overs = self.overs.share()?;
        take_key(&mut overs, over_key(node, before))?;
        let there = self.nodes.remove(&node)?;
        self.places = places;
        self.overs = overs;
        Ok(there)
    }

    /// Equal nodes that share all that these hold, in constant time. No change of the one shows in the
    /// other. It is refused where the count of shares is full.
    pub fn share(&self) -> Result<Basis, AllocError>
        ensures { IfOk result (λ again. again ≡ self.now) }
    {
        Ok(Basis {
            alloc: self.alloc,
            nodes: self.nodes.share()?,
            places: self.places.share()?,
            overs: self.overs.share()?,
        })
    }
}

fn origin_of(found: Option<&NodeRec>) -> Option<Origin>
    ensures { result ≡ option_map (λ r. r.origin) (option_copied found.entry) }
{
    match found {
        Some(node_rec) => Some(node_rec.origin),
        None => None,
    }
}

fn is_same(before: Option<Origin>, origin: Origin) -> bool
    ensures { IsTrue result → before ≡ Some origin }
{
    match before {
        Some(known) => known == origin,
        None => false,
    }
}
