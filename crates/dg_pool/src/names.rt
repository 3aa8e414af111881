//! The names of a pool's ledgers.
ghost use Rattle.std.specs.Prelude.{◌≡◌, ℕ};
ghost use Rattle.dg_pool.specs.Names.{Names};

use std::marker::{Brand, PhantomData};
use std::sync::ledger::{Blank, Ledger};

/// Which pool it is: the names of its ledgers, and how many passes it has. A function that opens a pool is
/// generic over it, and its caller passes [`Brand`] and picks the names of the [`Blanks`] that it hands in.
pub trait PoolName {
    ghost names: { Names };
}

impl PoolName for Brand {
    ghost names = { record { passes = 0; puts = 0; takes = 0; refusals = 0; stops = 0; closes = 0 } };
}

/// What a ledger of a pool counts.
pub trait Act {
    ghost name: { Names → ℕ };
}

/// The ledger of a pool that counts this.
pub struct Acts<N: PoolName, A: Act> {
    of: PhantomData<(N, A)>,
}

impl<N: PoolName, A: Act> Ledger for Acts<N, A> {
    ghost name = { A.name N.names };

    ghost parts = { N.names.passes };
}

/// Puts of jobs that meet the test.
pub struct Puts;

impl Act for Puts {
    ghost name = { λ n. n.puts };
}

/// Takes of jobs that meet the test.
pub struct Takes;

impl Act for Takes {
    ghost name = { λ n. n.takes };
}

/// Puts that found the pool closed.
pub struct Refusals;

impl Act for Refusals {
    ghost name = { λ n. n.refusals };
}

/// Takes that found the pool closed and empty.
pub struct Stops;

impl Act for Stops {
    ghost name = { λ n. n.stops };
}

/// Calls that close the pool.
pub struct Closes;

impl Act for Closes {
    ghost name = { λ n. n.closes };
}

/// Ledgers that no name stands for yet, for one pool. They take no bytes.
#[derive(Drop)]
pub struct Blanks {
    pub puts: Blank,
    pub takes: Blank,
    pub refusals: Blank,
    pub stops: Blank,
    pub closes: Blank,
}

impl Blanks {
    /// For a pool of so many passes.
    pub fn new(passes: u32) -> Blanks
        ensures puts { result.puts.parts ≡ passes }
        ensures takes { result.takes.parts ≡ passes }
        ensures refusals { result.refusals.parts ≡ passes }
        ensures stops { result.stops.parts ≡ passes }
        ensures closes { result.closes.parts ≡ passes }
    {
        Blanks {
            puts: Blank::new(u64::from(passes)),
            takes: Blank::new(u64::from(passes)),
            refusals: Blank::new(u64::from(passes)),
            stops: Blank::new(u64::from(passes)),
            closes: Blank::new(u64::from(passes)),
        }
    }
}
