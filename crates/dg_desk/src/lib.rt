//! The desk: a shared cache that stays coherent while the revision goes on. A [`Desk`] is at one revision. It
//! follows links to the next ones, takes offers of what was evaluated at this revision or an earlier one, and
//! keeps of them what didn't change since.
//!
//! Contracts see a desk as the revision of its opening, its entries, most recent first, and the records of what was
//! done. `specs/Machine.antt` says what each act does, and `specs/Coherent.antt` what holds at each time: each
//! entry is the value of its endpoint at the desk's revision. [`worked`] has two histories.
#![tactic(auto)]

// What is done at a desk, and how it answers.
mod answers;
mod event;
// What acts do to the cache, and the records of acts.
mod acts;
mod records;
// The desk.
mod desk;
// Worked cases, tests, and callers.
#[cfg(test)]
mod tests;
#[cfg(test)]
mod uses;
pub mod worked;

pub use desk::Desk;
pub use event::{DeskEvent, EventOf, Followed, PASSES, PublishEnd, Published, What};
