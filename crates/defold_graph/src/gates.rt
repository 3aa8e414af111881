//! Gates that order and delay what workers do.
use dg_pool::Gate;
use std::sync::atomic::{AtomicBool, Ordering};
use std::thread;

const MOST_TURNS: u32 = 10_000_000;

/// Holds ask 0 until ask 1 is done. It gives up after so many turns, and notes it.
#[derive(Drop)]
pub(crate) struct SecondFirst {
    is_done: AtomicBool,
    gave_up: AtomicBool,
}

impl SecondFirst {
    pub(crate) fn new() -> SecondFirst {
        SecondFirst {
            is_done: AtomicBool::new(false),
            gave_up: AtomicBool::new(false),
        }
    }

    pub(crate) fn gave_up(&self) -> bool {
        self.gave_up.load(Ordering::SeqCst)
    }
}

impl Gate for SecondFirst {
    fn begin(&self, ask: u32) {
        if ask != 0 {
            return;
        }
        for _ in 0..MOST_TURNS {
            if self.is_done.load(Ordering::SeqCst) {
                return;
            }
            thread::yield_now();
        }
        self.gave_up.store(true, Ordering::SeqCst);
    }

    fn done(&self, ask: u32) {
        if ask == 1 {
            self.is_done.store(true, Ordering::SeqCst);
        }
    }
}

/// Delays each ask, before it is begun and after it is done, by some turns that look random.
#[derive(Drop)]
pub(crate) struct Delays {
    pub(crate) seed: u64,
}

impl Delays {
    fn wait(&self, number: u64) {
        let drawn = (self.seed ^ number)
            .wrapping_mul(6364136223846793005)
            .wrapping_add(1442695040888963407)
            .wrapping_mul(6364136223846793005);
        for _ in 0..drawn >> 57 {
            thread::yield_now();
        }
    }
}

impl Gate for Delays {
    fn begin(&self, ask: u32) {
        self.wait(2 * u64::from(ask));
    }

    fn done(&self, ask: u32) {
        self.wait(2 * u64::from(ask) + 1);
    }
}
