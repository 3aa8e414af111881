//! What is done in the room and with the pool.
ghost use Rattle.std.specs.Prelude.{◌≡◌, ◌≤◌, ◌+◌, OnOk};
ghost use Rattle.dg_room.specs.Made.{passed, with_eviction, with_follow};

use dg_cache::{EvictEnd, Evicted};
use dg_desk::Followed;
use dg_line::{LineName, Link};
use dg_pool::{PoolName, PoolPass};
use dg_room::{Pass, RoomName};
use dg_worker::{Job, JobMark, JobPool, JobRoom};
use std::alloc::AllocError;
use std::sync::Wait;

/// The cache follows a link. Where it wanted memory the play ends.
pub(crate) fn follow<J: LineName, K: RoomName, R: Wait + Drop>(
    rt: &R,
    room: &JobRoom<J, K, R>,
    pass: &mut Pass<K>,
    link: Link<JobMark<J>>,
) -> Result<(), AllocError>
    requires number { pass.old.number ≡ 0 }
    requires follows { pass.old.made.follows ≤ link.from.revision.number }
    ensures pass { pass.new ≡ passed 0 (with_follow pass.old.made) }
    ensures step { link.to.revision.number ≡ link.from.revision.number + 1 }
{
    link.is_link();
    match room.follow(rt, pass, link) {
        Followed::Cleared => Err(AllocError),
        Followed::Kept | Followed::Restarted { .. } => Ok(()),
    }
}

/// Entries leave the cache. Where memory was wanted the play ends.
pub(crate) fn evict<J: LineName, K: RoomName, R: Wait + Drop>(
    rt: &R,
    room: &JobRoom<J, K, R>,
    pass: &mut Pass<K>,
    most: u32,
) -> Result<(), AllocError>
    ensures { OnOk result (pass.new ≡ passed pass.old.number (with_eviction pass.old.made)) }
{
    let Evicted { gone: _, end } = room.evict(rt, pass, most);
    match end {
        EvictEnd::All => Ok(()),
        EvictEnd::NoMemory => Err(AllocError),
    }
}

/// A job waits for a worker. One that isn't put, for want of memory, has no answer yet.
pub(crate) fn put<J: LineName, N: PoolName, R: Wait>(
    rt: &R,
    pool: &JobPool<J, N>,
    pass: &mut PoolPass<N>,
    job: Job<JobMark<J>>,
) {
    let _ = pool.put(rt, pass, job);
}
