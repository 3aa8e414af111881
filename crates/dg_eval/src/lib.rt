//! The evaluator: the value of an endpoint at a ticket's revision, over a snapshot of a cache.
//!
//! A [`Context`] has a ticket and a snapshot, and keeps what it has finished and which entries of the
//! snapshot it used. Each evaluation goes on where the last one ended: what is finished or known isn't
//! computed again. What it lists and which entries it hits is exactly the walk of the definitions, its
//! productions are counted exactly, and a context that evaluated one endpoint gives an `Offer` of it.
//!
//! A walk goes depth first along dependencies, with a stack of its own, so no nesting of a graph is too
//! deep for it. An endpoint that depends on one that is open lies on a way from there back to it: that one
//! is a cycle, wherever the walk began, so its value is known at once.
#![tactic(auto)]

// What is kept.
mod end_set;
mod results;
// What is asked of an endpoint.
mod cached;
mod looking;
mod producing;
// The walk.
mod context;
mod evaluating;
mod frame;

pub use context::Context;

// Worked cases, tests, and callers.
#[cfg(test)]
mod tests;
#[cfg(test)]
mod uses;
pub mod worked;
