//! The commands of a script beside workers.
//!
//! [`play_all`] plays the commands on the caller's thread, in the session that owns the editor, while a worker for each
//! [`Badge`](dg_worker::Badge) evaluates what is asked. When the commands are played, the pool is closed, and the workers
//! give back what they did. [`seated`] says who gets which pass.
#![tactic(auto)]

// The commands.
mod playing;
// The workers beside them.
mod scope;
// Who gets which pass.
mod seats;

pub use playing::Played;
pub use scope::play_all;
pub use seats::{Seats, seated};
