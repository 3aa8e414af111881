//! What belongs together: the cascade tree of a node, what goes when a node is deleted, and the
//! override nodes that are made when something is connected below an original.
//!
//! In reading order: `met` nodes in the order in which they were first met, `ordered` nodes in id order,
//! `owned` what a node owns, `walk` its cascade tree and what is deleted with it, `lacking` which nodes
//! have no override node yet, `overriding` override nodes for a list of nodes, and `populating` those for
//! what is connected. A walk keeps the nodes that it has to visit on a stack of its own and those that it
//! met in a hash set in the order of insertion, so it is linear in what it meets and the reads of the
//! graph. Want of memory is std's `AllocError`, or `Refusal::NoMemory` where the limit of nodes can refuse
//! too.
#![tactic(auto)]

mod lacking;
mod met;
mod ordered;
mod overriding;
mod owned;
mod populating;
mod walk;

pub use overriding::{MAX_NODES, override_all};
pub use populating::populate;
pub use walk::{cascade_tree, doomed};
