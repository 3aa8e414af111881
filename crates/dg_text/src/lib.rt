//! Facts of texts that several crates speak of, each said in one place: what stands between quotes, names,
//! bytes that are UTF-8, the last mark of a text, and project paths.
//!
//! `specs/` has a module of definitions for each, over the bytes of a text: `Quoted`, `Names`, `Decoded`,
//! `LastMark` and `Paths`. Texts are compared by std's `bytes_eq`.
#![tactic(auto)]

mod decoded;
mod last_mark;
mod names;
mod paths;
mod quotes;
#[cfg(test)]
mod tests;
pub mod worked;

pub use decoded::text_of;
pub use last_mark::split_at_last;
pub use names::is_name;
pub use paths::{ends_in, is_project_path};
pub use quotes::{put_quoted, quoted};
