use crate::{Ran, Worker, beside};
use std::alloc::Global;
use std::sync::Wait;
use std::thread::Threads;

#[derive(Drop)]
struct Adds {
    from: u32,
    to: u32,
}

impl Worker for Adds {
    type Back = u64;

    fn run(self) -> u64 {
        let mut sum: u64 = 0;
        for number in self.from..self.to {
            sum = sum.saturating_add(u64::from(number));
        }
        sum
    }
}

fn sums<R: Threads + Wait>(rt: &R, alloc: Global, count: u32) -> u64 {
    let mut workers = Vec::new(alloc);
    for number in 0..count {
        let _ = workers.push(Adds {
            from: 0,
            to: number,
        });
    }
    let Ran { own, backs } = beside(rt, alloc, workers, move || u64::from(count));
    let mut all = own;
    for back in backs {
        all = all.saturating_add(back);
    }
    all
}

#[test]
fn each_worker_gives_back(rt: HostRuntime) {
    assert!(rt; sums(&rt, rt.alloc(), 0) == 0);
    assert!(rt; sums(&rt, rt.alloc(), 1) == 1);
    assert!(rt; sums(&rt, rt.alloc(), 4) == 4 + 1 + 3);
}
