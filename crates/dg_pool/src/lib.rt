//! A closable queue of jobs, for threads. Whoever has a [`PoolPass`] of a [`Pool`] puts jobs and takes them;
//! a taker waits as long as the pool is open and empty. [`Pool::close_out`] gives the jobs that are left, once
//! all passes are back: none was lost and none was taken twice.
//!
//! A pass counts what was done with it, and contracts see it as these counts, a `Tally` of
//! `specs/Tallies.antt`. Jobs are counted where they meet a test, which a name stands for ([`Test`]). As the
//! test is any, each job was put as often as it was taken or is left. Which pool a pass is of is known by its
//! type: both are generic over the names of the pool's ledgers ([`PoolName`]).
#![tactic(auto)]

// The queue alone.
mod queue;
mod refusal;
// Which pool it is, and which jobs count.
mod checks;
mod names;
// What counts, across threads.
mod books;
mod pass;
mod shares;
// Both under one lock.
mod counted;
mod pool;
// Who looks on.
mod gate;
// Worked cases, tests and callers.
#[cfg(test)]
mod tests;
#[cfg(test)]
mod uses;
pub mod worked;

pub use checks::{Check, Every, Test};
pub use gate::{Gate, OpenGate};
pub use names::{Act, Acts, Blanks, Closes, PoolName, Puts, Refusals, Stops, Takes};
pub use pass::PoolPass;
pub use pool::Pool;
pub use refusal::PutRefusal;
