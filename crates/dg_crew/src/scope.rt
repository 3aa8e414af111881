//! The workers beside the commands.
ghost use Rattle.std.specs.Prelude.{◌≡◌, IfOk};
ghost use Rattle.dg_play.specs.States.{IsPlayed};
ghost use Rattle.dg_crew.specs.Plays.{IsPlayOf, is_ready, shows};

use crate::playing::{Played, play_jobs};
use dg_beside::{Ran, Worker, beside};
use dg_caller::{Awaited, Caller};
use dg_line::LineName;
use dg_play::State;
use dg_pool::{Gate, PoolName};
use dg_room::RoomName;
use dg_script::Command;
use dg_worker::{Badge, JobBack, JobPool, JobRoom, JobTask, Task};
use std::alloc::{AllocError, Global};
use std::sync::Wait;
use std::thread::Threads;

// A worker for each badge.
fn tasks<'a, J: LineName, K: RoomName, N: PoolName, G: Gate, R: Wait + Drop>(
    rt: &'a R,
    alloc: Global,
    room: &'a JobRoom<J, K, R>,
    pool: &'a JobPool<J, N>,
    gate: &'a G,
    badges: Vec<Badge<K, N>>,
) -> Result<Vec<JobTask<'a, J, K, N, G, R>>, AllocError> {
    let mut all = Vec::new(alloc);
    for badge in badges {
        all.push(Task {
            rt,
            alloc,
            room,
            pool,
            gate,
            badge,
        })?;
    }
    Ok(all)
}

// Plays the commands on this thread, beside any workers.
fn play_beside<
    'a,
    W: Worker + Send + Drop,
    J: LineName,
    K: RoomName,
    N: PoolName,
    R: Threads + Wait + Drop,
>(
    rt: &R,
    alloc: Global,
    workers: Vec<W>,
    state: State<Caller<'a, J, K, N, R>>,
    commands: &[Command],
) -> Ran<Played<Awaited, Caller<'a, J, K, N, R>>, W::Back>
where
    W::Back: Send,
    requires { IsPlayed is_ready shows state }
    ensures { IfOk result.own.lines (λ ls. IsPlayOf commands.now state.entry ls.items result.own.state) }
{
    beside(
        rt,
        alloc,
        workers,
        move || -> Played<Awaited, Caller<J, K, N, R>>
            requires { IsPlayed is_ready shows state }
            ensures { IfOk result.lines (λ ls. IsPlayOf commands.entry.now state.entry ls.items result.state) }
        { play_jobs(alloc, commands, state) },
    )
}

/// Plays the commands on this thread, beside a worker for each badge.
pub fn play_all<
    'a,
    J: LineName + Send + Sync,
    K: RoomName + Send + Sync,
    N: PoolName + Send + Sync,
    G: Gate + Sync,
    R: Threads + Wait + Drop + Send + Sync,
>(
    rt: &'a R,
    alloc: Global,
    room: &'a JobRoom<J, K, R>,
    pool: &'a JobPool<J, N>,
    gate: &'a G,
    badges: Vec<Badge<K, N>>,
    state: State<Caller<'a, J, K, N, R>>,
    commands: &'a [Command],
) -> Result<Ran<Played<Awaited, Caller<'a, J, K, N, R>>, JobBack<J, K, N>>, AllocError>
    requires { IsPlayed is_ready shows state }
    ensures { IfOk result (λ r. IfOk r.own.lines (λ ls. IsPlayOf commands.now state.entry ls.items r.own.state)) }
{
    let workers = tasks(rt, alloc, room, pool, gate, badges)?;
    Ok(play_beside(rt, alloc, workers, state, commands))
}
