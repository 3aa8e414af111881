//! The project graph as the layers above see it. Contracts see two lists, the nodes in id order and
//! the arcs in the order in which they were connected, and name nothing else of it.
//!
//! Today a graph is a cover over the plain lists of `dg_flat`: a share shares them whole, and the
//! first change after it copies them. Want of memory is std's `AllocError`.
#![tactic(auto)]

mod changes;
mod graph;
mod reads;

pub use graph::Graph;
