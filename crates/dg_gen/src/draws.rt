//! The numbers that are drawn from a seed.
ghost use Rattle.std.specs.Prelude.{◌≡◌, IfOk};
ghost use Rattle.dg_gen.specs.Draws.{next, draws, draw_at};

use std::alloc::{AllocError, Global};

/// The first draws from a seed, in order: numbers below 100.
#[tactic(auto, using(crate::proofs::Numbers::state_more, crate::proofs::Numbers::draws_more))]
pub(crate) fn draws(alloc: Global, seed: u64, count: usize) -> Result<Vec<u32>, AllocError>
    ensures { IfOk result (λ v. v.items ≡ draws seed count) }
{
    let mut all = Vec::with_capacity(alloc, count)?;
    let mut state = (seed % 2_147_483_648) as u32;
    for _ in 0..count {
        state = next(state);
        all.push(state / 65_536 % 100)?;
    }
    Ok(all)
}

fn next(state: u32) -> u32
    ensures { result ≡ next state }
{
    ((u64::from(state) * 1_103_515_245 + 12_345) % 2_147_483_648) as u32
}

/// The draw at a place.
pub(crate) fn draw_at(draws: &[u32], place: usize) -> u32
    ensures { result ≡ draw_at draws.now place }
{
    draws.get(place).copied().unwrap_or(0)
}
