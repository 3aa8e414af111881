//! Override nodes, read from the indexes.
ghost use Rattle.std.specs.Prelude.{◌≡◌, ◌++◌, drop, option_map, IfOk, OnOk};
ghost use Rattle.std.specs.List.{list_all};
ghost use Rattle.dg_base.specs.Graph.{override_in};
ghost use Rattle.dg_base.specs.Owned.{overs};
ghost use Rattle.dg_basis.specs.NodeLists.{nodes_alone};
ghost use Rattle.dg_basis.specs.Keys.{is_over_one, overs_after, place_at};

use crate::Basis;
use dg_base::NodeId;
use dg_pmap::PMap;
use std::alloc::{AllocError, Global};

impl Basis {
    /// The override node of an original in the override that begins at a root: the first in id order,
    /// where there is one. In time logarithmic in the override nodes.
    pub fn override_in(&self, root: NodeId, original: NodeId) -> Option<NodeId>
        ensures { result ≡ override_in (nodes_alone self.now) root original }
    {
        place_at(
            self.places.first_from(&((root, original), NodeId(0))),
            root,
            original,
        )
    }

    /// The override nodes whose original is this node, in id order. The first is found in time
    /// logarithmic in the override nodes, and so is each chunk of those that follow; the others are not
    /// read.
    pub fn overs(&self, node: NodeId) -> Result<Vec<NodeId>, AllocError>
        ensures { IfOk result (λ v. v.items ≡ overs (nodes_alone self.now) node) }
    {
        let start = self.overs.position(&(node, NodeId(0)));
        let overs = overs_from(self.alloc, &self.overs, start, node)?;
        Ok(overs)
    }
}

// The id in a key, where the key is one of this root and original.
fn place_at(
    found: Option<(&((NodeId, NodeId), NodeId), &())>,
    root: NodeId,
    original: NodeId,
) -> Option<NodeId>
    ensures { result ≡ place_at root original (option_map (λ p. (p.0.now, p.1.now)) found.entry) }
{
    let (key, _) = found?;
    let (over, node) = *key;
    if over.0 == root && over.1 == original {
        Some(node)
    } else {
        None
    }
}

fn overs_from(
    alloc: Global,
    overs: &PMap<(NodeId, NodeId), ()>,
    start: usize,
    node: NodeId,
) -> Result<Vec<NodeId>, AllocError>
    ensures { IfOk result (λ v. v.items ≡ overs_after node (drop start overs.now)) }
{
    let mut found = Vec::new(alloc);
    let mut place = start;
    while place < overs.len() {
        let run = overs.run_at(place);
        if !add_overs(&mut found, run, node)? {
            return Ok(found);
        }
        place += run.len();
    }
    Ok(found)
}

// Those of one chunk. Says whether all of it is of this original.
fn add_overs(
    found: &mut Vec<NodeId>,
    run: &[((NodeId, NodeId), ())],
    node: NodeId,
) -> Result<bool, AllocError>
    ensures ok { OnOk result (found.new.items ≡ found.old.items ++ overs_after node run.now) }
    ensures more { IfOk result (λ more. more ≡ list_all (is_over_one node) run.now) }
{
    for entry in run {
        let (original, over) = entry.0;
        if original != node {
            return Ok(false);
        }
        found.push(over)?;
    }
    Ok(true)
}
