//! Callers: threads share a pool and hand passes on, and a caller asks after one job.
ghost use Rattle.std.specs.Prelude.{◌≡◌, ◌==◌, ℕ, IfOk, IfSome};
ghost use Rattle.std.specs.List.{count_by};
ghost use Rattle.dg_pool.specs.Names.{AreNamed};

use crate::{Blanks, Check, Every, Gate, OpenGate, Pool, PoolName, PoolPass, PutRefusal, Test};
use std::alloc::{AllocError, Global};
use std::marker::Brand;
use std::sync::Wait;
use std::thread::{Threads, join};

fn is_shared<X: Send + Sync>(_shared: &X) {}

fn is_sent<X: Send>(_sent: &X) {}

pub(crate) fn shares_pool<
    J: Drop + Send,
    N: PoolName + Send + Sync,
    T: Test<J> + Send + Sync,
    C: Check<J> + Drop + Send,
>(pool: &Pool<J, N, T, C>) {
    is_shared(pool);
}

pub(crate) fn shares_any<J: Drop + Send, N: PoolName + Send + Sync>(
    pool: &Pool<J, N, Every, Every>,
) {
    is_shared(pool);
}

pub(crate) fn takes_any<J: Drop, N: PoolName, R: Wait>(
    rt: &R,
    pool: &Pool<J, N, Every, Every>,
    pass: &mut PoolPass<N>,
) -> Option<J> {
    pool.take(rt, pass)
}

pub(crate) fn sends_pass<N: PoolName + Send>(pass: &PoolPass<N>) {
    is_sent(pass);
}

// Is it this job?
#[derive(Drop)]
pub(crate) struct Is {
    pub(crate) job: u32,
}

impl Check<u32> for Is {
    ghost says = { λ c j. j == c.job };

    fn meets(&self, job: &u32) -> bool {
        *job == self.job
    }
}

// Puts a job, and gives what is left: the job.
pub(crate) fn left_of<N: PoolName, T: Test<u32>, R: Wait>(
    rt: &R,
    alloc: Global,
    job: u32,
    blanks: Blanks,
) -> Result<Option<Vec<u32>>, AllocError>
    requires named { AreNamed N.names blanks }
    requires passes { N.names.passes ≡ 1 }
    requires test { (j : ℕ) → (j == job) ≡ T.meets j }
    ensures { IfOk result (λ r. IfSome r (λ left. count_by T.meets left.items ≡ 1)) }
{
    let (pool, mut passes) = Pool::<u32, N, T, Is>::open(alloc, 1, Is { job }, blanks)?;
    match pool.put(rt, &mut passes[0], job) {
        Ok(()) => Ok(Some(pool.close_out(passes))),
        Err(_) => Ok(None),
    }
}

pub(crate) fn left_alone<R: Wait>(
    rt: &R,
    alloc: Global,
    job: u32,
) -> Result<Option<Vec<u32>>, AllocError>
    ensures { IfOk result (λ r. IfSome r (λ left. count_by (λ j. j == job) left.items ≡ 1)) }
{
    left_of::<Brand, Brand, R>(rt, alloc, job, Blanks::new(1))
}

// Puts the numbers below this one, and closes.
fn put_all<N: PoolName, R: Wait>(
    rt: &R,
    pool: &Pool<u32, N, Every, Every>,
    mut pass: PoolPass<N>,
    count: u32,
) -> PoolPass<N> {
    for job in 0..count {
        let _ = pool.put(rt, &mut pass, job);
    }
    pool.close(rt, &mut pass);
    pass
}

// What a worker found: how many jobs, and their sum.
#[derive(Drop)]
struct Worked<N: PoolName> {
    jobs: u32,
    sum: u64,
    pass: PoolPass<N>,
}

// Takes jobs until the pool is closed and empty.
fn take_all<N: PoolName, G: Gate, R: Wait>(
    rt: &R,
    pool: &Pool<u32, N, Every, Every>,
    mut pass: PoolPass<N>,
    gate: &G,
) -> Worked<N> {
    let mut jobs: u32 = 0;
    let mut sum: u64 = 0;
    for _ in rt.forever() {
        let Some(job) = pool.take(rt, &mut pass) else {
            break;
        };
        gate.begin(job);
        jobs = jobs.saturating_add(1);
        sum = sum.saturating_add(u64::from(job));
        gate.done(job);
    }
    Worked { jobs, sum, pass }
}

// One thread puts, the other takes: how many jobs it took, their sum, and how many are left.
fn exchanged<N: PoolName + Send + Sync, R: Threads + Wait + Sync>(
    rt: &R,
    alloc: Global,
    count: u32,
    blanks: Blanks,
) -> Result<Option<(u32, u64, usize)>, AllocError>
    requires named { AreNamed N.names blanks }
    requires passes { N.names.passes ≡ 2 }
{
    let (pool, mut passes) = Pool::<u32, N, Every, Every>::open(alloc, 2, Every, blanks)?;
    let Some(second) = passes.pop() else {
        return Ok(None);
    };
    let Some(first) = passes.pop() else {
        return Ok(None);
    };
    let shared = &pool;
    let (pass, worked) = join(
        rt,
        move || put_all(rt, shared, first, count),
        move || take_all(rt, shared, second, &OpenGate),
    );
    passes.push(pass)?;
    passes.push(worked.pass)?;
    Ok(Some((worked.jobs, worked.sum, pool.close_out(passes).len())))
}

pub(crate) fn exchanged_alone<R: Threads + Wait + Sync>(
    rt: &R,
    alloc: Global,
    count: u32,
) -> Result<Option<(u32, u64, usize)>, AllocError> {
    exchanged::<Brand, R>(rt, alloc, count, Blanks::new(2))
}

fn put_back(end: Result<(), PutRefusal<u32>>) -> Option<u32> {
    match end {
        Err(PutRefusal::Closed(job)) => Some(job),
        _ => None,
    }
}

// Puts jobs, closes, puts one more, and takes: whether the one more comes back, and the takes and what is left
// are as expected.
fn plays<N: PoolName, R: Wait>(
    rt: &R,
    alloc: Global,
    jobs: &[u32],
    taken: &[Option<u32>],
    left: &[u32],
    blanks: Blanks,
) -> Result<bool, AllocError>
    requires named { AreNamed N.names blanks }
    requires passes { N.names.passes ≡ 1 }
{
    let (pool, mut passes) = Pool::<u32, N, Every, Every>::open(alloc, 1, Every, blanks)?;
    let Some(mut pass) = passes.pop() else {
        return Ok(false);
    };
    let mut fits = true;
    for job in jobs {
        fits = pool.put(rt, &mut pass, *job).is_ok() && fits;
    }
    pool.close(rt, &mut pass);
    fits = put_back(pool.put(rt, &mut pass, 6)) == Some(6) && fits;
    for expected in taken {
        fits = pool.take(rt, &mut pass) == *expected && fits;
    }
    passes.push(pass)?;
    Ok(pool.close_out(passes).as_slice() == left && fits)
}

pub(crate) fn plays_alone<R: Wait>(
    rt: &R,
    alloc: Global,
    jobs: &[u32],
    taken: &[Option<u32>],
    left: &[u32],
) -> Result<bool, AllocError> {
    plays::<Brand, R>(rt, alloc, jobs, taken, left, Blanks::new(1))
}
