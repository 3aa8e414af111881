//! The queue under a lock, for threads.
ghost use Rattle.std.specs.Prelude.{◌≡◌, All, IfOk, length};
ghost use Rattle.dg_pool.specs.Names.{AreNamed};
ghost use Rattle.dg_pool.specs.Tallies.{AddsUp, PutTells, TakeTells, no_acts, sum_of, with_close};

use crate::books::Books;
use crate::checks::{Check, Test};
use crate::counted::Counted;
use crate::names::{Blanks, PoolName};
use crate::pass::{PoolPass, split_all};
use crate::refusal::PutRefusal;
use std::alloc::{AllocError, Global};
use std::sync::{Condvar, Mutex, Wait};

/// A closable queue of jobs, under one lock. A call sees it as it is when it has the lock; nothing is claimed
/// about which call comes first, or about how long one waits.
#[derive(Drop)]
pub struct Pool<J: Drop, N: PoolName, T: Test<J>, C: Check<J> + Drop> {
    state: Mutex<Counted<J, N, T, C>>,
    moved: Condvar,
}

impl<J: Drop, N: PoolName, T: Test<J>, C: Check<J> + Drop> Pool<J, N, T, C> {
    /// An open and empty pool, and its passes, with which nothing was done yet. The check is the test that the
    /// name stands for. It takes memory for the list of passes alone.
    pub fn open(
        alloc: Global,
        passes: u32,
        check: C,
        blanks: Blanks,
    ) -> Result<(Pool<J, N, T, C>, Vec<PoolPass<N>>), AllocError>
        requires check { (j : J) → C.says check j ≡ T.meets j }
        requires named { AreNamed N.names blanks }
        requires passes { N.names.passes ≡ passes }
        ensures count { IfOk result (λ r. length r.1.items ≡ passes) }
        ensures fresh { IfOk result (λ r. All (λ p. p ≡ no_acts) r.1.items) }
    {
        let (books, mut shares) = Books::open(blanks);
        let all = split_all(alloc, &mut shares, passes)?;
        let state = Counted::new(alloc, check, books, shares);
        Ok((
            Pool {
                state: Mutex::new(state),
                moved: Condvar::new(),
            },
            all,
        ))
    }

    /// Puts a job to the end, and wakes one that waits for it. A job that isn't put comes back: where the pool
    /// is closed, which counts as a refusal, and where there is no memory. Amortized constant time under the
    /// lock.
    pub fn put<R: Wait>(&self, rt: &R, pass: &mut PoolPass<N>, job: J) -> Result<(), PutRefusal<J>>
        ensures { PutTells job (T.meets job) pass.old pass.new result }
    {
        let end = self.state.lock(rt).put(pass, job);
        self.moved.notify_one();
        end
    }

    /// Takes the next job, and waits for one as long as the pool is open and empty. None comes only where it
    /// is closed and empty, which counts as a stop. It takes no memory. Constant time under the lock.
    pub fn take<R: Wait>(&self, rt: &R, pass: &mut PoolPass<N>) -> Option<J>
        ensures { TakeTells T.meets pass.old pass.new result }
    {
        let mut state = self
            .moved
            .wait_while(rt, self.state.lock(rt), |state| state.must_wait());
        state.take(pass)
    }

    /// Closes the pool, and wakes all that wait. Its jobs can still be taken. Closing again counts again.
    pub fn close<R: Wait>(&self, rt: &R, pass: &mut PoolPass<N>)
        ensures { pass.new ≡ with_close pass.old }
    {
        self.state.lock(rt).close(pass);
        self.moved.notify_all();
    }

    /// The jobs that are left, the next one first, once all passes are back, and what these say of them. It
    /// takes no memory.
    pub fn close_out(self, passes: Vec<PoolPass<N>>) -> Vec<J>
        requires { length passes.items ≡ N.names.passes }
        ensures { AddsUp T.meets (sum_of passes.items) result.items }
    {
        let Pool { state, moved: _ } = self;
        state.into_inner().finish(passes)
    }
}
