//! The summary of a project that was made and played: four lines in place of those of its script.
//!
//! [`sum_lines`] says what was loaded, how many commands were done and how they were answered, and what the builds come
//! to. In `specs/`, `Counts` says what is counted, `Builds` what the builds write and sum up, and `Sums` the lines;
//! `Worked` has a script of which the checker computes them.
#![tactic(auto)]

// How many commands were done, and what was answered.
mod counts;
// What builds write, and where what they hold stands.
mod builds;
// The lines.
mod sums;
// Worked cases.
pub mod worked;

pub use sums::sum_lines;
