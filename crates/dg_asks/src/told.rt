//! What the records of a desk tell.
ghost use Rattle.std.specs.Prelude.{◌≡◌, ◌+◌, IfOk};
ghost use Rattle.dg_asks.specs.Told.{kept_in, kept_told, late_in, late_told};

use dg_desk::{EventOf, What};
use dg_line::Mark;
use std::alloc::AllocError;

/// How many entries were kept of all that was published. Linear in the records. It is refused where the count has
/// more than 64 bits.
pub fn kept_told<M: Mark>(history: &[EventOf<M>]) -> Result<u64, AllocError>
    ensures { IfOk result (λ n. n ≡ kept_told history.now) }
{
    let mut all = 0;
    for event in history.iter() {
        all = sum_of(all, kept_in(event))?;
    }
    Ok(all)
}

/// How many entries of all that was published came late. Linear in the records. It is refused where the count has
/// more than 64 bits.
pub fn late_told<M: Mark>(history: &[EventOf<M>]) -> Result<u64, AllocError>
    ensures { IfOk result (λ n. n ≡ late_told history.now) }
{
    let mut all = 0;
    for event in history.iter() {
        all = sum_of(all, late_in(event))?;
    }
    Ok(all)
}

fn kept_in<M: Mark>(event: &EventOf<M>) -> usize
    ensures { result ≡ kept_in event.now.what }
{
    match &event.what {
        What::Publish(_, answer) => answer.kept,
        What::Follow(_, _) | What::Evict(_, _) | What::Settle(_) => 0,
    }
}

fn late_in<M: Mark>(event: &EventOf<M>) -> usize
    ensures { result ≡ late_in event.now.what }
{
    match &event.what {
        What::Publish(_, answer) => answer.late,
        What::Follow(_, _) | What::Evict(_, _) | What::Settle(_) => 0,
    }
}

fn sum_of(all: u64, more: usize) -> Result<u64, AllocError>
    ensures { IfOk result (λ n. n ≡ all + more) }
{
    match all.checked_add(more as u64) {
        Some(sum) => Ok(sum),
        None => Err(AllocError),
    }
}
