//! The kinds of nodes that make up collections, GoInstance, CollInstance and Collection, and the whole
//! schema of a project.
//!
//! [`Defold`] is the schema, which the engine is generic over. Its table is [`COLL_KINDS`] and behind it
//! that of game objects: in `specs/`, `Kinds` reads both, and `Defold` has the schema's tables, which are
//! look-ups in them. What the outputs give is defined on argument values: `Instances` has the instances,
//! `Collections` the collection, and `Entries` what one entry of it is; `Places` says how transforms are
//! read. [`worked`] states what they give on small arguments. Want of memory is std's `AllocError`.
#![tactic(auto)]

// How places are read, and how entries are written.
mod entries;
mod places;
// What the outputs give, a file for each subject.
mod collections;
mod instances;
mod named;
// Each label with what it is to its kind.
mod table;
// The schema over that table and those outputs.
mod defold;
// Cases.
#[cfg(test)]
mod tests;
pub mod worked;

pub use defold::{Defold, defold_made};
pub use entries::flag_in;
pub use places::place_in;
pub use table::{COLL_KINDS, UNSCALED};
