//! A closable queue with its books.
ghost use Rattle.std.specs.Prelude.{◌≡◌, ◌+◌, ◌<◌, [], true, false, length};
ghost use Rattle.std.specs.List.{count_by};
ghost use Rattle.dg_pool.specs.Queues.{PutGives, TakeGives, closed_now, must_wait, open_queue};
ghost use Rattle.dg_pool.specs.Tallies.{AddsUp, PutTells, TakeTells, no_acts, one_if, portion, sum_of, with_close};

use crate::books::Books;
use crate::checks::{Check, Test};
use crate::names::PoolName;
use crate::pass::{PoolPass, merge_all};
use crate::queue::Queue;
use crate::refusal::PutRefusal;
use crate::shares::Shares;
use std::alloc::Global;
use std::marker::PhantomData;

/// What lies under a pool's lock: the queue, and what was done on all passes together.
#[derive(Drop)]
pub(crate) struct Counted<J: Drop, N: PoolName, T: Test<J>, C: Check<J> + Drop> {
    queue: Queue<J>,
    books: Books<N>,
    // The shares that no pass has. They have no part.
    rest: Shares<N>,
    check: C,
    of: PhantomData<T>,
    ghost nothing: { rest ≡ portion 0 no_acts },
    ghost checked: { (j : J) → C.says check j ≡ T.meets j },
    ghost counted: { books.puts ≡ books.takes + count_by T.meets queue.jobs },
    ghost refused: { queue.closed ≡ false → books.refusals ≡ 0 },
    ghost stopped: { queue.closed ≡ false → books.stops ≡ 0 },
    ghost emptied: { 0 < books.stops → queue.jobs ≡ [] },
    ghost closed: { queue.closed ≡ true → 0 < books.closes },
}

impl<J: Drop, N: PoolName, T: Test<J>, C: Check<J> + Drop> Counted<J, N, T, C> {
    /// An open and empty queue, with new books.
    pub(crate) fn new(
        alloc: Global,
        check: C,
        books: Books<N>,
        rest: Shares<N>,
    ) -> Counted<J, N, T, C>
        requires check { (j : J) → C.says check j ≡ T.meets j }
        requires books { books ≡ no_acts }
        requires rest { rest ≡ portion 0 no_acts }
        ensures { result.queue ≡ open_queue }
    {
        Counted {
            queue: Queue::new(alloc),
            books,
            rest,
            check,
            of: PhantomData,
        }
    }

    // How much a job counts.
    fn count(check: &C, job: &J) -> u64
        requires { (j : J) → C.says check.now j ≡ T.meets j }
        ensures { result ≡ one_if (T.meets job.now) }
    {
        u64::from(check.meets(job))
    }

    /// Puts a job to the end. A closed queue takes none.
    pub(crate) fn put(&mut self, pass: &mut PoolPass<N>, job: J) -> Result<(), PutRefusal<J>>
        ensures queue { PutGives job self.old.queue self.new.queue result }
        ensures pass { PutTells job (T.meets job) pass.old pass.new result }
    {
        let count = Self::count(&self.check, &job);
        match self.queue.put(job) {
            Ok(()) => {
                self.books.put(&mut pass.shares, count);
                Ok(())
            }
            Err(PutRefusal::Closed(job)) => {
                self.books.refuse(&mut pass.shares);
                Err(PutRefusal::Closed(job))
            }
            Err(PutRefusal::NoMemory(job)) => Err(PutRefusal::NoMemory(job)),
        }
    }

    /// Whether there is nothing to take yet.
    pub(crate) fn must_wait(&self) -> bool
        ensures { result ≡ must_wait self.now.queue }
    {
        self.queue.must_wait()
    }

    /// Takes the next job. A closed and empty queue gives none.
    pub(crate) fn take(&mut self, pass: &mut PoolPass<N>) -> Option<J>
        requires { must_wait self.old.queue ≡ false }
        ensures queue { TakeGives self.old.queue self.new.queue result }
        ensures pass { TakeTells T.meets pass.old pass.new result }
    {
        match self.queue.take() {
            Some(job) => {
                let count = Self::count(&self.check, &job);
                self.books.take(&mut pass.shares, count);
                Some(job)
            }
            None => {
                self.books.stop(&mut pass.shares);
                None
            }
        }
    }

    /// Closes the queue, if it isn't closed yet.
    pub(crate) fn close(&mut self, pass: &mut PoolPass<N>)
        ensures queue { self.new.queue ≡ closed_now self.old.queue }
        ensures pass { pass.new ≡ with_close pass.old }
    {
        self.books.close(&mut pass.shares);
        self.queue.close();
    }

    /// The jobs that are left, and what all passes say of them.
    pub(crate) fn finish(self, passes: Vec<PoolPass<N>>) -> Vec<J>
        requires { length passes.items ≡ N.names.passes }
        ensures jobs { result.items ≡ self.queue.jobs }
        ensures adds_up { AddsUp T.meets (sum_of passes.items) result.items }
    {
        let Counted {
            queue,
            mut books,
            rest,
            check: _,
            of: _,
        } = self;
        let mut all = merge_all(rest, passes);
        books.audit(&mut all);
        queue.into_jobs()
    }
}
