//! One lock round a desk, and the line beside it, for threads. Whoever has a [`Pass`] of a [`Room`] publishes,
//! evicts and takes snapshots; the pass with number 0 follows links. Each call has the lock once, and does what
//! the desk's call of its name does. [`Room::close`] gives the desk, once all passes are back.
//!
//! Whenever the lock is free the desk is coherent: its type keeps that. A pass counts what was done with it, and
//! contracts see it as its number and these counts, a `Seen` of `specs/Made.antt`. The closed desk's history has
//! exactly as many follows, publications and evictions as the passes made, and nothing else. Which room a pass is
//! of is known by its type: both are generic over the names of the room's ledgers ([`RoomName`]).
#![tactic(auto)]

// Which room it is.
mod names;
// What counts, across threads.
mod books;
mod pass;
mod shares;
// The desk with its books, and both under one lock.
mod locked;
mod room;
mod short;
// Worked cases, tests and callers.
#[cfg(test)]
mod tests;
#[cfg(test)]
mod uses;
pub mod worked;

pub use locked::Locked;
pub use names::{Act, Acts, Blanks, Evictions, Follows, Publications, RoomName};
pub use pass::Pass;
pub use room::Room;
pub use short::Short;
