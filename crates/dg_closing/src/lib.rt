//! The end of a play with workers: what they left out is done by whoever owns the desk again.
//!
//! [`complete`] goes through what was asked, in order. An ask is done where a worker's answer is of its number, revision
//! and endpoint, and the desk's history has its publication, of which all that it found known was published before. Any
//! other ask is evaluated on the desk, and published. In `specs/`, `Spots` says what a history published, and `Closing`
//! what the completion leaves of the desk.
#![tactic(auto)]

// What the history tells.
mod spots;
mod telling;
mod unrefused;
// What the workers keep.
mod keeping;
// One ask on the desk, and all of them.
mod asking;
mod completing;
#[cfg(test)]
mod tests;

pub use completing::{Completed, complete};
