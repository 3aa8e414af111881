//! Nodes.
use crate::{Fields, Kind, NodeId};

/// Where a node comes from: it has a kind of its own, or it is an override node, which inherits
/// from its original and belongs to the override that begins at `root`.
#[derive(Clone, Copy, PartialEq, Eq, Debug)]
pub enum Origin {
    Plain(Kind),
    Over { root: NodeId, original: NodeId },
}

/// A node: its id, its origin, the mark "defective", and its own values in label order.
#[derive(Debug, Drop)]
pub struct Node {
    pub id: NodeId,
    pub origin: Origin,
    pub defective: bool,
    pub own: Fields,
}
