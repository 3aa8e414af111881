//! The play of a script on one thread.
//!
//! [`Alone`] is a session over a world: each command is an event of it, and what is asked is evaluated at once, with
//! what the cache knows, and published. [`play_alone`] plays a start whole in such a session. At its end the desk, the answers
//! and the counts are those of the play alone (`IsDeskOf` and `IsWorkOf` of the crate of sessions).
#![tactic(auto)]

// What is done in the world.
mod answering;
mod evicting;
mod moving;
mod outcome;
mod pinning;
mod types;
// The session, and the play of a start.
mod alone;
mod solo;
#[cfg(test)]
mod tests;

pub use alone::Alone;
pub use solo::{Solo, play_alone};
pub use types::{AloneDesk, AloneEditor, AloneLine, AloneMark, AloneTicket, AloneWorld};
