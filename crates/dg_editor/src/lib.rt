//! An editor of a project graph: edits, undo and redo.
//!
//! An [`Editor`] has a line of revisions and the changes that can be undone and done again. Each accepted
//! call adds a revision and answers the link to it, so whoever keeps something that was computed from the
//! revision before knows what of it still holds. A revision is never changed and never taken back: its
//! ticket shows the same graph for good. `specs/Machine` says what each call does.
#![tactic(auto)]

// Why a call is refused, and what an editor remembers of one that wasn't.
mod cause;
mod change;
// How revisions follow one another.
mod advance;
// The editor.
mod editor;
#[cfg(test)]
mod tests;

pub use cause::EditCause;
pub use editor::{Commit, Editor};
