//! Callers: threads get tasks, and give back what they did.
use crate::{Badge, Job, JobBack, JobMark, JobPool, JobTask};
use dg_line::LineName;
use dg_pool::{Gate, PoolName};
use dg_room::RoomName;
use std::sync::Wait;

fn is_sent<X: Send>(_sent: &X) {}

fn is_shared<X: Send + Sync>(_shared: &X) {}

pub(crate) fn sends_job<J: LineName + Send + Sync>(job: &Job<JobMark<J>>) {
    is_sent(job);
}

pub(crate) fn shares_pool<J: LineName + Send + Sync, N: PoolName + Send + Sync>(
    pool: &JobPool<J, N>,
) {
    is_shared(pool);
}

pub(crate) fn sends_task<
    'a,
    J: LineName + Send + Sync,
    K: RoomName + Send + Sync,
    N: PoolName + Send + Sync,
    G: Gate + Sync,
    R: Wait + Drop + Send + Sync,
>(task: &JobTask<'a, J, K, N, G, R>) {
    is_sent(task);
}

pub(crate) fn sends_badge<K: RoomName + Send + Sync, N: PoolName + Send + Sync>(
    badge: &Badge<K, N>,
) {
    is_sent(badge);
}

pub(crate) fn sends_back<
    J: LineName + Send + Sync,
    K: RoomName + Send + Sync,
    N: PoolName + Send + Sync,
>(back: &JobBack<J, K, N>) {
    is_sent(back);
}
