//! Persistent arcs: one list in the order in which they were connected, found by their targets and by
//! their sources without going over the whole list.
//!
//! [`Arcs`] is what the layer above uses. Contracts see the list. Old states stay readable: a share is
//! had in constant time, and no change of the one shows in the other.
//!
//! `specs/ArcLists` says what the list is after a change, in the words of a graph's arcs; `specs/Kept`
//! how it is kept: each arc under a number, and the numbers found by target, by source and by arc.
#![tactic(auto)]

// The arcs and their changes.
mod arcs;
// What is read of one node.
mod reads;
// Tests and callers.
#[cfg(test)]
mod tests;
#[cfg(test)]
mod uses;

pub use arcs::Arcs;
