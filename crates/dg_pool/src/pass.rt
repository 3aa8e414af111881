//! The passes of a pool.
ghost use Rattle.std.specs.Prelude.{◌≡◌, ◌+◌, All, IfOk, OnOk, length};
ghost use Rattle.dg_pool.specs.Tallies.{no_acts, plus, portion, sum_of};

use crate::names::PoolName;
use crate::shares::Shares;
use std::alloc::{AllocError, Global};
use std::marker::Model;

/// What one thread puts and takes with. It takes no bytes. Contracts see what was done with it, which begins
/// with nothing; only the calls of its pool raise a count.
#[derive(Drop)]
pub struct PoolPass<N: PoolName> {
    pub(crate) shares: Shares<N>,
}

impl<N: PoolName> Model for PoolPass<N> {
    ghost use Rattle.std.specs.Prelude.{◌≡◌};
    ghost use Rattle.dg_pool.specs.Tallies.{Tally, tally_code};

    ghost Value = { Tally };

    ghost coded = { tally_code };

    ghost view = { λ p. p.shares.tally };

    ghost invariant = { λ p. p.shares.parts ≡ 1 };
}

/// Cuts shares into passes of one part.
pub(crate) fn split_all<N: PoolName>(
    alloc: Global,
    whole: &mut Shares<N>,
    passes: u32,
) -> Result<Vec<PoolPass<N>>, AllocError>
    requires { whole.old ≡ portion passes no_acts }
    ensures count { IfOk result (λ all. length all.items ≡ passes) }
    ensures fresh { IfOk result (λ all. All (λ p. p ≡ no_acts) all.items) }
    ensures rest { OnOk result (whole.new ≡ portion 0 no_acts) }
{
    let mut all = Vec::new(alloc);
    for _ in 0..passes {
        all.push(PoolPass {
            shares: whole.split_one(),
        })?;
    }
    Ok(all)
}

/// Adds passes to shares.
pub(crate) fn merge_all<N: PoolName>(mut all: Shares<N>, passes: Vec<PoolPass<N>>) -> Shares<N>
    ensures { result ≡ portion (all.parts + length passes.items) (plus all.tally (sum_of passes.items)) }
{
    for pass in passes {
        let PoolPass { shares } = pass;
        all.merge(shares);
    }
    all
}
