//! What the files of a project say: its paths in order, and the reading of each script, game object and collection.
//! The layer above calls [`read_sources`] with the files, and gets [`Sources`], or learns which limit the project passes.
//!
//! In reading order: `bad` is why a text isn't read and where, `limits` how large a project may be, `source` the files
//! with what they say, `sorting` and `places` put paths and bad places in order, `reading` reads one text of each sort,
//! and `project` all files. `specs/` says the same: what a stable sort gives (`Sorting`), what a text of each sort says
//! (`Readings`), and what a tree of files says (`Project`).
#![tactic(auto)]

mod bad;
mod limits;
mod places;
mod project;
mod reading;
mod sorting;
mod source;
#[cfg(test)]
mod tests;

pub use bad::{BadCode, BadPlace, Unread};
pub use limits::{Large, LoadEnd, MAX_FILE, MAX_FILES, MAX_TOTAL};
pub use places::BadPlaces;
pub use project::read_sources;
pub use reading::{read_collection, read_object};
pub use source::{CollSource, GoSource, Reads, ScriptSource, Sources};
