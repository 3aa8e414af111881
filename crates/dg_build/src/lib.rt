//! Build files: what is written for a value of an output `build`.
//!
//! [`targets`] gives the files in order, each with its path and its bytes: the contents of embedded components,
//! the texts of a collection's objects, each different one once, and the text of the value itself. In `specs/`,
//! `Targets` says which they are: `Firsts` has first appearances, `Paths` the paths, `Contents` what is built, and
//! `Lines`, `Objects` and `Entries` the texts; `Worked` has values of which the checker computes the files.
//! Texts are quoted by `dg_text`, and decimals, labels and type words are those of `dg_report`.
#![tactic(auto)]

// A build file.
mod target;
// Where the files stand.
mod paths;
// What is built, and what of it is different.
mod contents;
mod texts;
// What stands in the files.
mod entries;
mod lines;
mod objects;
// The files in order.
mod files;
// What the outputs say of themselves.
mod laws;
#[cfg(test)]
mod tests;
pub mod worked;

pub use files::targets;
pub use laws::builds_say_their_paths;
pub use target::{Target, Targets};
