//! The side of a script that is played with workers. A [`Caller`] is the session that its commands are played in: it owns
//! the editor, the cache under the room's lock follows each of its steps, and each ask is put into the pool for a worker,
//! under its number in the order of the script. What stands for an answer is an [`Awaited`].
#![tactic(auto)]

// What stands for an answer.
mod awaited;
// What is done in the room and with the pool.
mod doing;
// The revision that is asked.
mod pinned;
// The session.
mod caller;

pub use awaited::Awaited;
pub use caller::{Caller, CallerEditor, Calls};
