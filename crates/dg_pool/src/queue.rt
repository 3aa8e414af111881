//! A closable queue, for one thread.
ghost use Rattle.std.specs.Prelude.{◌≡◌, false};
ghost use Rattle.dg_pool.specs.Queues.{PutGives, TakeGives, closed_now, must_wait, open_queue};

use crate::refusal::PutRefusal;
use std::alloc::Global;
use std::collections::VecDeque;
use std::marker::Model;

/// A closable queue. Contracts see its jobs, the next one first, and whether it is closed.
#[derive(Drop)]
pub(crate) struct Queue<J: Drop> {
    jobs: VecDeque<J>,
    closed: bool,
}

impl<J: Drop> Model for Queue<J> {
    ghost use Rattle.dg_pool.specs.Queues.{Closable, closable_code};

    ghost Value = { Closable J };

    ghost coded = { closable_code J.code };

    ghost view = { λ q. record { jobs = q.jobs.items; closed = q.closed } };
}

impl<J: Drop> Queue<J> {
    /// Open and empty. It takes no memory.
    pub(crate) fn new(alloc: Global) -> Queue<J>
        ensures { result ≡ open_queue }
    {
        Queue {
            jobs: VecDeque::new(alloc),
            closed: false,
        }
    }

    /// Puts a job to the end, in amortized constant time. A closed queue takes none.
    pub(crate) fn put(&mut self, job: J) -> Result<(), PutRefusal<J>>
        ensures { PutGives job self.old self.new result }
    {
        if self.closed {
            return Err(PutRefusal::Closed(job));
        }
        match self.jobs.push_back(job) {
            Ok(()) => Ok(()),
            Err(failed) => Err(PutRefusal::NoMemory(failed.value)),
        }
    }

    /// Whether there is nothing to take yet.
    pub(crate) fn must_wait(&self) -> bool
        ensures { result ≡ must_wait self.now }
    {
        !self.closed && self.jobs.is_empty()
    }

    /// Takes the next job. A closed and empty queue gives none.
    pub(crate) fn take(&mut self) -> Option<J>
        requires { must_wait self.old ≡ false }
        ensures { TakeGives self.old self.new result }
    {
        self.jobs.pop_front()
    }

    /// Closes the queue, if it isn't closed yet. Its jobs stay.
    pub(crate) fn close(&mut self)
        ensures { self.new ≡ closed_now self.old }
    {
        self.closed = true;
    }

    /// The jobs that are left, the next one first. It takes no memory.
    pub(crate) fn into_jobs(self) -> Vec<J>
        ensures { result.items ≡ self.jobs }
    {
        self.jobs.into_vec()
    }
}
