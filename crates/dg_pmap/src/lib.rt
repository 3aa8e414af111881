//! A persistent ordered map: old states stay readable while the map changes, and a share of one is had
//! in constant time.
//!
//! The pairs stand in key order in chunks, and a balanced tree of forks leads to them. A change touches
//! one way from the root: in place where no share holds a node of it, on a copy where one does. A call
//! that finds no memory leaves the map as before, and no share ever changes.
//!
//! A layer above uses [`PMap`], and [`Share`] for the types of its values: every `Copy` type has it, and
//! [`Kept`] gives it to any other.
#![tactic(auto)]

mod edit;
mod entries;
mod grow;
mod join;
mod map;
mod order;
mod root;
mod search;
mod share;
mod take;
#[cfg(test)]
mod tests;
mod tree;

pub use map::PMap;
pub use share::{Kept, Share};
