//! The project graph as two plain lists, one of nodes and one of arcs: the plain partner that every
//! faster form of the graph is measured against. Contracts see a graph as these lists, and it is
//! sound at every moment.
//!
//! `graph` has what is read of the lists themselves, with `nodes` and `arcs`; `reads` the reads of
//! `dg_reads` that follow. The changes: `changes` and `copies`. Want of memory is std's `AllocError`.
#![tactic(auto)]

mod arcs;
mod changes;
mod copies;
mod graph;
mod nodes;
mod reads;
#[cfg(test)]
mod tests;

pub use graph::Graph;
