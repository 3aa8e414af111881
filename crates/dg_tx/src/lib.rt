//! Transactions: a list of steps makes one graph of another, or the first step that can't be done
//! refuses them all.
//!
//! The layer above calls [`apply`], which answers the new graph, the next id, the nodes that the steps
//! made and the endpoints that they touched, or a `Refusal` with the step that is refused. The graph that
//! is given stays as it is, whatever is answered.
//!
//! In reading order: `limits` of a graph, `work` a transaction as far as it was done, `roles` what a label
//! is to a node, `touched` what a step touches, `nodes`, `values` and `arcs` the steps, and `transaction` all
//! steps one after the other.
#![tactic(auto)]

mod arcs;
mod limits;
mod nodes;
mod roles;
#[cfg(test)]
mod tests;
mod touched;
mod transaction;
mod values;
mod work;

pub use limits::{MAX_ARCS, MAX_NODES, most_nodes_and_arcs};
pub use transaction::{Applied, apply};
