//! A persistent set of pairs of endpoints: where each endpoint leads, and all that some endpoints lead
//! to, at first hand or through others.
//!
//! [`Succ`] holds pairs (from, to). Contracts see the list of its pairs in order, by where they begin and
//! then by where they end. Old states stay readable: a share of a set is had in constant time, and no
//! change of the one shows in the other.
//!
//! `specs/Pairs` says what one pair more or less makes of the list, and `specs/Closure` which list of
//! endpoints is the least that holds some of them and follows the pairs. [`laws`] states that there is
//! only one, and that what is dirty in a graph is such a list.
#![tactic(auto)]

// The set.
mod succ;
// What follows from some endpoints.
mod closure;
pub mod laws;
// Tests and callers.
#[cfg(test)]
mod tests;
#[cfg(test)]
mod uses;

pub use succ::Succ;
