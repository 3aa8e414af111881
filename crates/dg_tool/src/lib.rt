//! The whole tool, as calls that a program makes.
//!
//! A program calls [`run_tool`] with the words of its command line, the files, a sink and a gate, and ends with the status
//! that it answers; [`run_alone`] does the same on one thread. What a run does is one record, `specs/Out`, over the play
//! of scripts, in which there is no worker and no cache; `specs/Statement` says what a run leaves.
//!
//! In reading order: `status` how a run ends and `halt` what ends it before a line is put; `size` counts a script's
//! lines, `project` loads the project, and `input` reads a script; `format` formats a file; `text` has the printed texts,
//! `piece` a line with what is written before it, `page` the lines that fit, and `lines` is the last pass, which makes all
//! lines; `start` is what the words come to before a command is played, `due` all that is known before the first deed,
//! which `output` finds out, and `doing` does it; `ended` is what a run leaves, `run` is a run on one thread, `crew` a play
//! beside workers, and `tool` a run with workers where the words say so.
//! [`worked`] states cases that the checker computes.
#![tactic(auto)]

#[cfg(test)]
mod cache_tests;
#[cfg(test)]
mod cases;
mod crew;
mod doing;
mod due;
mod ended;
mod format;
mod halt;
mod input;
mod lines;
mod output;
mod page;
mod piece;
mod project;
#[cfg(test)]
mod project_tests;
#[cfg(test)]
mod projects;
mod run;
mod size;
mod start;
mod status;
#[cfg(test)]
mod tests;
mod text;
mod tool;
pub mod worked;

pub use ended::{Ended, ToolDesk};
pub use run::run_alone;
pub use status::Status;
pub use tool::run_tool;
