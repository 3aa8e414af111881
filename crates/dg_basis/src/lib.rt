//! Persistent nodes: each found by its id, and override nodes also by what they override, without going
//! over all of them.
//!
//! [`Basis`] and [`NodeRec`], what is known of one node, are what the layer above uses. Contracts see
//! the list of nodes in id order, as a graph has it. Old states stay readable: a share is had in
//! constant time, and no change of the one shows in the other.
//!
//! `specs/NodeLists` says what the list is after a change; `specs/Keys` how it is kept: a map by id,
//! and two indexes of the override nodes that are kept equal to it.
#![tactic(auto)]

// What is known of one node.
mod node_rec;
// The nodes and their changes.
mod basis;
// The indexes of the override nodes.
mod keys;
mod overs;
// Tests and callers.
#[cfg(test)]
mod tests;
#[cfg(test)]
mod uses;

pub use basis::Basis;
pub use node_rec::NodeRec;
