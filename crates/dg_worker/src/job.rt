//! What is to be done, and where.
use dg_asks::Asking;
use dg_kinds_coll::Defold;
use dg_line::{Mark, Revision, SharedLine, Shown};
use dg_pool::{Every, Pool};
use dg_room::{Locked, Room};

/// The mark of the tickets of a script's revisions, on a line that threads share.
pub type JobMark<J> = Shown<Revision<Defold>, J>;

/// The cache of a script under its lock, with the line of its revisions.
pub type JobRoom<J, K, R> = Room<Locked<JobMark<J>, K>, SharedLine<Revision<Defold>, J, R>>;

/// The jobs that wait for a worker.
pub type JobPool<J, N> = Pool<Job<JobMark<J>>, N, Every, Every>;

/// An ask, and its number in the order of the script.
#[derive(Drop)]
pub struct Job<M: Mark> {
    pub ask: u32,
    pub asking: Asking<M>,
}
