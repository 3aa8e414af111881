//! What is asked for, and what is answered.
//!
//! An ask is an endpoint and the revision at which its value is asked for. [`Asking`] has them to be evaluated,
//! [`Solved`] is one that was evaluated, with its number, and [`Answered`] is its answer, which knows of no line. In
//! `specs/`, `Asks` has what contracts see of them, and `Told` what the records of a desk tell of asks, of what was
//! kept and came late, of follows and evictions, and of what was done whole.
#![tactic(auto)]

// What is asked for.
mod asking;
// What is answered.
mod answered;
mod solved;
// What the records of a desk tell.
mod told;

pub use answered::Answered;
pub use asking::Asking;
pub use solved::Solved;
pub use told::{kept_told, late_told};
