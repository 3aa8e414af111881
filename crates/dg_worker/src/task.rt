//! All of a worker.
ghost use Rattle.std.specs.Prelude.{◌≡◌, IfOk};
ghost use Rattle.dg_worker.specs.Workers.{IsSolved};

use crate::job::{Job, JobMark, JobPool, JobRoom};
use crate::solving::solve;
use dg_asks::Solved;
use dg_beside::Worker;
use dg_line::LineName;
use dg_pool::{Gate, PoolName, PoolPass};
use dg_room::{Pass, RoomName};
use std::alloc::{AllocError, Global};
use std::sync::Wait;

/// What a worker publishes and takes with. Nothing is followed or evicted with it.
#[derive(Drop)]
pub struct Badge<K: RoomName, N: PoolName> {
    pub room: Pass<K>,
    pub pool: PoolPass<N>,
    ghost follows: { room.made.follows ≡ 0 },
    ghost evictions: { room.made.evictions ≡ 0 },
}

/// What a worker gives back: the asks that it evaluated, and what it worked with.
#[derive(Drop)]
pub struct Back<S, B> {
    pub solved: Vec<S>,
    pub badge: B,
}

/// A worker that hasn't begun.
#[derive(Drop)]
pub struct Task<'a, P, Q, G, R, B> {
    pub rt: &'a R,
    pub alloc: Global,
    pub room: &'a P,
    pub pool: &'a Q,
    pub gate: &'a G,
    pub badge: B,
}

/// A worker on a script's room and pool.
pub type JobTask<'a, J, K, N, G, R> = Task<'a, JobRoom<J, K, R>, JobPool<J, N>, G, R, Badge<K, N>>;

/// What such a worker gives back.
pub type JobBack<J, K, N> = Back<Solved<JobMark<J>>, Badge<K, N>>;

impl<'a, J: LineName, K: RoomName, N: PoolName, G: Gate, R: Wait + Drop> Worker
    for JobTask<'a, J, K, N, G, R> {
    type Back = JobBack<J, K, N>;

    fn run(self) -> JobBack<J, K, N> {
        work(self)
    }
}

// The next job, once there is one.
fn take_by<J: LineName, K: RoomName, N: PoolName, R: Wait>(
    rt: &R,
    pool: &JobPool<J, N>,
    badge: &mut Badge<K, N>,
) -> Option<Job<JobMark<J>>> {
    pool.take(rt, &mut badge.pool)
}

// Evaluates an ask, and publishes what was found.
fn solve_by<J: LineName, K: RoomName, N: PoolName, R: Wait + Drop>(
    rt: &R,
    alloc: Global,
    room: &JobRoom<J, K, R>,
    badge: &mut Badge<K, N>,
    job: Job<JobMark<J>>,
) -> Result<Solved<JobMark<J>>, AllocError>
    ensures { IfOk result (IsSolved job) }
{
    solve(rt, alloc, room, &mut badge.room, job)
}

// Works until the pool is closed and empty, or until there is no memory for one more answer; a job is taken only
// where there is. A job that can't be evaluated for want of memory has no answer.
fn work<'a, J: LineName, K: RoomName, N: PoolName, G: Gate, R: Wait + Drop>(
    task: JobTask<'a, J, K, N, G, R>,
) -> JobBack<J, K, N> {
    let Task {
        rt,
        alloc,
        room,
        pool,
        gate,
        badge,
    } = task;
    let mut badge = badge;
    let mut solved = Vec::new(alloc);
    for _ in rt.forever() {
        if solved.reserve(1).is_err() {
            break;
        }
        let Some(job) = take_by(rt, pool, &mut badge) else {
            break;
        };
        let ask = job.ask;
        gate.begin(ask);
        if let Ok(answer) = solve_by(rt, alloc, room, &mut badge, job) {
            solved.push_reserved(answer);
        }
        gate.done(ask);
    }
    Back { solved, badge }
}
