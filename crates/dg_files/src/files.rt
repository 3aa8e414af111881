//! The files of the outside.
ghost use Rattle.std.specs.Prelude.{◌≡◌, ℕ, List, Option, IfOk, OnOk, IfSome, IsErrOf, IsTrue};
ghost use Rattle.std.specs.Option.{option_map};

use super::refusal::Failed;
use dg_base::{Refusal, Str};
use sqlite_items::Items;
use std::alloc::Global;

/// The bytes of a file.
pub type Bytes = Items<u8>;

/// Paths, in the order of their listing.
pub type Paths = Items<Str>;

/// How many paths a listing gives at most.
pub const MOST_LISTED: usize = 65_536;

/// What a read found.
#[derive(Debug, Drop)]
pub enum Got {
    /// No file has the path.
    Absent,
    /// All the bytes of the file.
    Whole(Bytes),
    /// The file has more bytes than were asked for.
    Longer,
}

/// What a listing found.
#[derive(Debug, Drop)]
pub enum Listing {
    /// Each path that is to be given, once.
    All(Paths),
    /// More than 65,536 paths are to be given.
    More,
}

/// Files that are named by their paths, as `/main/main.collection`.
///
/// Where it tells its tree, the answers are those of `specs/Tree.antt`. Its count of failures never
/// falls.
pub trait Files {
    ghost use Rattle.dg_files.specs.Tree.{Tree, are_distinct, bytes_at, got_of, listing_of, written};
    ghost use Rattle.dg_files.specs.Outcome.{HasCause, StaysSound, IsLeftByFailure, failure};

    /// All files with their bytes, where it tells them.
    ghost tree: { Self → Option Tree };

    /// How many calls have failed. The greatest u64 stands for itself and every greater number: there,
    /// after 2^64 - 1 failures, one more can't be told from none.
    ghost faults: { Self → ℕ };

    /// That no call of it ever fails.
    ghost is_sound: { Self → Type 0 } = { λ _. ⊥ };

    /// The paths that are to be given: all but those that begin with `/build/` or have a segment that
    /// begins with `.`. More than 65,536 of them are `More`.
    fn list(&mut self, alloc: Global) -> Result<Listing, Refusal<Failed>>
        ensures listing { IfOk result (λ l. IfSome (tree self.old) (λ t. l ≡ listing_of t)) }
        ensures same { tree self.new ≡ tree self.old }
        ensures distinct { IfSome (tree self.new) (λ t. IsTrue (are_distinct t)) }
        ensures cause { HasCause (faults self.old) (faults self.new) result }
        ensures sound { StaysSound is_sound faults self.old self.new };

    /// The bytes of the file at the path, if they are at most `most`.
    fn read(&mut self, alloc: Global, path: &str, most: usize) -> Result<Got, Refusal<Failed>>
        ensures got { IfOk result (λ g. IfSome (tree self.old) (λ t. g ≡ got_of (bytes_at t path.now) most)) }
        ensures same { tree self.new ≡ tree self.old }
        ensures distinct { IfSome (tree self.new) (λ t. IsTrue (are_distinct t)) }
        ensures cause { HasCause (faults self.old) (faults self.new) result }
        ensures sound { StaysSound is_sound faults self.old self.new };

    /// Puts the bytes at the path, in place of what is there. Other paths keep theirs.
    fn write(&mut self, alloc: Global, path: &str, bytes: &[u8]) -> Result<(), Refusal<Failed>>
        ensures ok { OnOk result (tree self.new ≡ option_map (λ t. written t path.now bytes.now) (tree self.old)) }

        // After a failure the path is absent, as it was, or has a first part of the bytes.
        ensures failed { IsErrOf result failure → IsLeftByFailure (tree self.old) (tree self.new) path.now bytes.now }
        ensures no_memory { IsErrOf result Refusal.NoMemory → tree self.new ≡ tree self.old }
        ensures distinct { IfSome (tree self.new) (λ t. IsTrue (are_distinct t)) }
        ensures cause { HasCause (faults self.old) (faults self.new) result }
        ensures sound { StaysSound is_sound faults self.old self.new };
}
