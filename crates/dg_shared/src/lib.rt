//! The play of a script beside workers, whole.
//!
//! [`play_shared`] plays a start: the commands on this thread, in the session that owns the editor, and what they ask for
//! on as many threads as there are workers. When the commands are played, the workers give their answers and passes
//! back, the room is closed with all passes, and what is missing is completed on the desk. Then each line takes its
//! answer. The lines and the names are those of the play on one thread; of the desk it promises what `IsSharedDeskOf` says,
//! and nothing of the counts of the work.
#![tactic(auto)]

// The commands beside the workers, in an open room.
mod playing;
// The passes at the end, and the desk.
mod closing;
// The answers of the lines.
mod filling;
// The play of a start.
mod shared;

pub use shared::{Shared, SharedDesk, SharedEditor, play_shared};
