//! The passes at the end, and the desk.
ghost use Rattle.std.specs.Prelude.{◌≡◌, IfOk};
ghost use Rattle.dg_asks.specs.Told.{as_seen, evictions_told, follows_told};
ghost use Rattle.dg_desk.specs.Desks.{IsDesk};
ghost use Rattle.dg_kinds_coll.specs.Defold.{defold_tables};
ghost use Rattle.dg_room.specs.Made.{sum_of};

use dg_asks::Solved;
use dg_desk::Desk;
use dg_line::LineName;
use dg_pool::PoolName;
use dg_room::{Pass, RoomName};
use dg_worker::{Back, Badge, JobBack, JobMark, JobRoom};
use std::alloc::{AllocError, Global};
use std::sync::Wait;

/// All passes that came back, and what the workers answered.
#[derive(Drop)]
pub(crate) struct Gathered<P, S> {
    pub(crate) passes: Vec<P>,
    pub(crate) solved: Vec<S>,
}

/// The first pass, and what the workers gave back. Only the first one followed or evicted.
pub(crate) fn gather<J: LineName, K: RoomName, N: PoolName>(
    alloc: Global,
    pass: Pass<K>,
    backs: Vec<JobBack<J, K, N>>,
) -> Result<Gathered<Pass<K>, Solved<JobMark<J>>>, AllocError>
    ensures follows { IfOk result (λ g. (sum_of g.passes.items).follows ≡ pass.made.follows) }
    ensures evictions { IfOk result (λ g. (sum_of g.passes.items).evictions ≡ pass.made.evictions) }
{
    let mut passes = Vec::new(alloc);
    passes.push(pass)?;
    let mut solved = Vec::new(alloc);
    for back in backs {
        let Back {
            solved: mut some,
            badge,
        } = back;
        let Badge { room, pool: _ } = badge;
        solved.append(&mut some)?;
        passes.push(room)?;
    }
    Ok(Gathered { passes, solved })
}

/// The desk of a room, once all passes are back. Where one is lost for want of memory, so is the desk.
pub(crate) fn desk_of<J: LineName, K: RoomName, R: Wait + Drop>(
    room: JobRoom<J, K, R>,
    passes: Vec<Pass<K>>,
) -> Result<Desk<JobMark<J>>, AllocError>
    ensures desk { IfOk result (λ d. IsDesk as_seen defold_tables d) }
    ensures follows { IfOk result (λ d. follows_told d.history ≡ (sum_of passes.items).follows) }
    ensures evictions { IfOk result (λ d. evictions_told d.history ≡ (sum_of passes.items).evictions) }
{
    match room.close(passes) {
        Ok(desk) => Ok(desk),
        Err(_) => Err(AllocError),
    }
}
