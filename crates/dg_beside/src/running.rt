//! Workers in threads, beside what the caller does.
ghost use Rattle.std.specs.Prelude.{◌≡◌};

use std::alloc::Global;
use std::sync::Wait;
use std::thread;
use std::thread::Threads;

/// What is done by a thread of its own.
pub trait Worker {
    /// What it gives back.
    type Back: Drop;

    /// Does it.
    fn run(self) -> Self::Back;
}

/// What the caller did, and what the workers gave back.
#[derive(Drop)]
pub struct Ran<P, B> {
    pub own: P,
    pub backs: Vec<B>,
}

/// Starts a thread for each worker, and does the caller's own work on this one. Then it waits for the threads. A worker
/// that can't be started runs here, after the caller's own work. Where there is no memory for what it gives back, that is
/// lost; where there is none to start it, it is let go, and so are those that are still to be started.
pub fn beside<W: Worker + Send + Drop, P, F: FnOnce() -> P, R: Threads + Wait>(
    rt: &R,
    alloc: Global,
    workers: Vec<W>,
    own: F,
) -> Ran<P, W::Back>
where
    W::Back: Send,
    requires { F.IsAlwaysCallable own }
    ensures { F.post own result.own }
{
    thread::scope(
        thread::scope_env(),
        rt,
        move |scope| -> Ran<P, W::Back>
            requires { F.IsAlwaysCallable own }
            ensures { F.post own result.own }
        {
            let mut workers = workers;
            let mut started = Vec::new(alloc);
            let mut waiting = Vec::new(alloc);
            while let Some(worker) = workers.pop() {
                if started.reserve(1).is_err() || waiting.reserve(1).is_err() {
                    break;
                }
                match scope.spawn(move || worker.run()) {
                    Ok(handle) => started.push_reserved(handle),
                    Err(failed) => waiting.push_reserved(failed.value),
                }
            }
            let own = own();
            let mut backs = Vec::new(alloc);
            while let Some(handle) = started.pop() {
                let _ = backs.push(handle.join(rt));
            }
            while let Some(job) = waiting.pop() {
                let _ = backs.push(job());
            }
            Ran { own, backs }
        },
    )
}
