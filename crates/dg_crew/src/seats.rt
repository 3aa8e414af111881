//! Who gets which pass.
ghost use Rattle.std.specs.Prelude.{◌≡◌, ◌<◌, length};
ghost use Rattle.dg_room.specs.Made.{AreFresh, none_made, passed};

use dg_pool::{PoolName, PoolPass};
use dg_room::{Pass, RoomName};
use dg_worker::Badge;
use std::alloc::{AllocError, Global};

/// The passes of whoever plays the commands, and those of each worker.
#[derive(Drop)]
pub struct Seats<K: RoomName, N: PoolName> {
    pub pass: Pass<K>,
    pub jobs: PoolPass<N>,
    pub badges: Vec<Badge<K, N>>,
    ghost first: { pass ≡ passed 0 none_made },
}

/// Gives the first pass to whoever plays the commands, and each other one to a worker.
pub fn seated<K: RoomName, N: PoolName>(
    alloc: Global,
    passes: Vec<Pass<K>>,
    jobs: Vec<PoolPass<N>>,
) -> Result<Seats<K, N>, AllocError>
    requires { AreFresh (length passes.items) passes.items }
{
    let mut passes = passes;
    let mut jobs = jobs;
    let mut badges = Vec::new(alloc);
    while passes.len() > 1 {
        let Some(room) = passes.pop() else {
            return Err(AllocError);
        };
        let Some(pool) = jobs.pop() else {
            return Err(AllocError);
        };
        badges.push(Badge { room, pool })?;
    }
    let Some(pass) = passes.pop() else {
        return Err(AllocError);
    };
    let Some(own) = jobs.pop() else {
        return Err(AllocError);
    };
    Ok(Seats {
        pass,
        jobs: own,
        badges,
    })
}
