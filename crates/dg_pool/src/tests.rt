use crate::uses::{exchanged_alone, left_alone, plays_alone};
use std::test::Fail;

// What is put before the pool is closed, what is taken afterwards, and what is left.
const PLAYS: [(&[u32], &[Option<u32>], &[u32]); 3] = [
    (&[5], &[Some(5), None], &[]),
    (&[], &[None, None], &[]),
    (&[3, 1, 2, 1], &[Some(3), Some(1)], &[2, 1]),
];

// A closed pool gives back what is put, and what it has in the order in which it came.
#[test]
fn closed_pools_are_emptied(rt: HostRuntime) -> Result<(), Fail> {
    for (jobs, taken, left) in PLAYS {
        assert!(rt; plays_alone(&rt, rt.alloc(), jobs, taken, left)?);
    }
    Ok(())
}

// A job that nobody takes is left.
#[test]
fn what_is_put_is_left(rt: HostRuntime) -> Result<(), Fail> {
    let left = left_alone(&rt, rt.alloc(), 7)?;
    assert!(rt; left.is_some_and(|left| left.as_slice() == [7].as_slice()));
    Ok(())
}

// All that one thread puts another takes.
#[test]
fn a_thousand_jobs_cross(rt: HostRuntime) -> Result<(), Fail> {
    assert!(rt; exchanged_alone(&rt, rt.alloc(), 1_000)? == Some((1_000, 499_500, 0)));
    Ok(())
}
