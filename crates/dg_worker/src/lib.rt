//! What a worker does. A [`Job`] is an ask with its number and its revision's ticket. A worker takes jobs from a pool until
//! it is closed and empty. It evaluates each at its own revision, with what the cache under the room's lock knows of
//! it and without holding the lock, publishes what it found, and keeps the answer. A [`Task`] is all that a worker needs, and
//! its run gives its answers and its passes back.
#![tactic(auto)]

// What is to be done, and where.
mod job;
// One ask.
mod solving;
// All of a worker.
mod task;
#[cfg(test)]
mod uses;

pub use job::{Job, JobMark, JobPool, JobRoom};
pub use task::{Back, Badge, JobBack, JobTask, Task};
