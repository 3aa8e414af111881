//! The words of the command line. [`read_words`] answers the [`Task`] that they say, or [`Usage`] where they are
//! not in the grammar; it is refused besides only for want of memory.
//!
//! The first word names the task and is read here. The words behind it are read by `clap`, with one literal
//! command for each task; words that begin with one minus are refused before that, since `clap` takes some of
//! them. The contract speaks of the grammar alone: that a parse by each command gives what the grammar says is
//! proved, word by word.
//!
//! In reading order: `task` is what words say, `paths` and `numbers` what single words are, `commands` the
//! command of each task, `texts` what a task's words give, and `reading` the whole. `specs/` has the grammar:
//! `Paths`, `Numbers`, `Grammar`, `Texts`, `Tasks`. [`laws`] says of every task that its numbers are in their ranges.
#![tactic(auto)]

mod commands;
pub mod laws;
mod numbers;
mod paths;
mod reading;
mod task;
#[cfg(test)]
mod tests;
mod texts;
pub mod worked;

pub use reading::read_words;
pub use task::{Task, Usage};
