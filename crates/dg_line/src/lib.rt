//! Revisions of a project graph, the lines that hold them, and the links between them.
//!
//! A [`Revision`] is a graph with its number, the next id and the [`Counters`] of its endpoints. A
//! [`Line`] holds revisions and gives a [`Ticket`] for each: of one line and one index, two tickets hold
//! the same. A [`Link`] is the step from a revision to the next one: outside of what is dirty rules,
//! values and counters stay. [`follow`] makes it for each edit, undo and redo.
//!
//! What a layer is generic over decides what it knows. The one that writes is generic over the schema `S`
//! and a line `N: Line<Revision<S>>`; the ones that read and that threads share are generic over the
//! [`Mark`] `M` of the tickets alone, which has the schema's tables and how contracts see a revision. Where
//! both meet, `M.tables ≡ S.tables` and `(r : Seen) → M.seen r ≡ r` are asked for, and each line has them.
#![tactic(auto)]

// What a revision is.
mod counters;
mod revision;
// What holds one.
mod ticket;
// Where it stands.
mod line;
mod own_line;
mod rows;
mod shared_line;
mod shown;
// How one follows another.
mod link;
// Worked cases, tests, and callers of each kind.
#[cfg(test)]
mod tests;
#[cfg(test)]
mod uses;
pub mod worked;

pub use counters::{Counted, Counters};
pub use line::Line;
pub use link::{Link, follow};
pub use own_line::{OwnLine, Unmarked};
pub use revision::Revision;
pub use rows::{LineName, Rows};
pub use shared_line::SharedLine;
pub use shown::Shown;
pub use ticket::{Mark, Ticket};
