//! The names of a room's ledgers.
ghost use Rattle.std.specs.Prelude.{◌≡◌, ◌<◌, ◌*◌, ◌-◌, ℕ};
ghost use Rattle.dg_room.specs.Names.{Names, act_parts};

use std::marker::{Brand, PhantomData};
use std::sync::ledger::{Blank, Ledger};

/// Which room it is: the names of its ledgers, and how many passes it has. A function that opens a room is
/// generic over it, and its caller passes [`Brand`] and picks the names of the [`Blanks`] that it hands in.
pub trait RoomName {
    ghost names: { Names };
}

impl RoomName for Brand {
    ghost names = { record { passes = 0; follows = 0; publications = 0; evictions = 0 } };
}

/// What a ledger of a room counts.
pub trait Act {
    ghost name: { Names → ℕ };

    ghost parts: { Names → ℕ };
}

/// The ledger of a room that counts this.
pub struct Acts<K: RoomName, A: Act> {
    of: PhantomData<(K, A)>,
}

impl<K: RoomName, A: Act> Ledger for Acts<K, A> {
    ghost name = { A.name K.names };

    ghost parts = { A.parts K.names };
}

/// Follows of links. Pass 0 has all of its one part.
pub struct Follows;

impl Act for Follows {
    ghost name = { λ n. n.follows };

    ghost parts = { λ n. 1 };
}

/// Publications that are recorded. Pass 0 has one part, and each other pass two.
pub struct Publications;

impl Act for Publications {
    ghost name = { λ n. n.publications };

    ghost parts = { λ n. act_parts n.passes };
}

/// Evictions that are recorded. Pass 0 has one part, and each other pass two.
pub struct Evictions;

impl Act for Evictions {
    ghost name = { λ n. n.evictions };

    ghost parts = { λ n. act_parts n.passes };
}

/// Ledgers that no name stands for yet, for one room. They take no bytes.
#[derive(Drop)]
pub struct Blanks {
    pub follows: Blank,
    pub publications: Blank,
    pub evictions: Blank,
}

impl Blanks {
    /// For a room of so many passes.
    pub fn new(passes: u32) -> Blanks
        requires { 0 < passes }
        ensures follows { result.follows.parts ≡ 1 }
        ensures publications { result.publications.parts ≡ act_parts passes }
        ensures evictions { result.evictions.parts ≡ act_parts passes }
    {
        let parts = 2 * u64::from(passes) - 1;
        Blanks {
            follows: Blank::new(1),
            publications: Blank::new(parts),
            evictions: Blank::new(parts),
        }
    }
}
