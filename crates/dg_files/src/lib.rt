//! The outside: files that are listed, read and written by their paths, and a sink that takes bytes.
//!
//! A layer above is generic over the traits `Files` and `Sink`, whose clauses are all that is assumed
//! of the outside: what an answer says of the tree or of the bytes written, where these are told,
//! and that each failure raises a count. `specs/Tree.antt` says what a tree is, what its paths
//! have, what is listed and what a write leaves.
//!
//! `MemFiles` and `MemSink` keep everything in memory, tell it, and fail at the calls that they are
//! given. `DirFiles` over a folder and `StdSink` over standard output are the edge to the system:
//! they tell nothing of their content and count their failures.
//!
//! A refusal is `dg_base::Refusal<Failed>`. In reading order: `files` and `sink` are the traits, `refusal`
//! why they give no answer, `fault_count` and `calls` what counts, `entries`, `listed`, `memory_files` and
//! `memory_sink` what is in memory, `folder` and `output` the edge, `law` what a write leaves.
#![tactic(auto)]

mod calls;
mod entries;
mod fault_count;
mod files;
mod folder;
mod law;
mod listed;
mod memory_files;
mod memory_sink;
mod output;
mod refusal;
mod sink;

pub use entries::are_distinct;
pub use files::{Bytes, Files, Got, Listing, MOST_LISTED, Paths};
pub use folder::DirFiles;
pub use law::writes_are_read_back;
pub use listed::is_listed;
pub use memory_files::MemFiles;
pub use memory_sink::MemSink;
pub use output::StdSink;
pub use refusal::Failed;
pub use sink::Sink;

#[cfg(test)]
mod tests;
