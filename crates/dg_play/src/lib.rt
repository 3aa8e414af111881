//! The play of a script: its commands one after another, each with what it prints.
//!
//! A [`Session`] is what commands are played in: an editor, pins, and somebody who answers. [`play_commands`] plays the
//! commands from a [`State`]: a session, the names of its live pins, the names of nodes, and the interned names. Each
//! command gives a [`Reply`]: a text that is known at once, or the answer that was asked for. An [`Opener`] is a way
//! to open the editor of a start; a play of it begins with a [`Begin`] and ends with an [`Ending`], with all answers and
//! the desk.
//!
//! In `specs/`, `Play` says what each command leaves and prints, without a cache; `Work` what the cache comes to and how
//! much is evaluated, by the play alone; `Sessions` what each call of a session leaves; `Seen` leads from the records
//! here to those of the definitions; and `Desk` says what the records of a desk tell at the end, on one thread and with
//! workers.
#![tactic(auto)]

// What commands are played in, and what a play begins and ends with.
mod begin;
mod ending;
mod opener;
mod session;
// What a script has at a moment, and what a command prints.
mod pins;
mod reply;
mod state;
// The commands, sort by sort.
mod asking;
mod evicting;
mod moving;
mod pinning;
mod transaction;
// The play.
mod play;
// Worked cases.
pub mod worked;

pub use begin::Begin;
pub use ending::{Ending, WorkDone};
pub use opener::Opener;
pub use pins::Pin;
pub use play::play_commands;
pub use reply::{Line, Reply};
pub use session::Session;
pub use state::State;
