//! The sink of the outside.
ghost use Rattle.std.specs.Prelude.{◌≡◌, ℕ, ◌<◌, ◌≤◌, ◌++◌, List, Option, length, take, IfOk, OnErr, IsErrOf};
ghost use Rattle.std.specs.Option.{option_map};

use super::refusal::Failed;
use dg_base::Refusal;

/// What takes bytes, as standard output does.
pub trait Sink {
    ghost use Rattle.dg_files.specs.Outcome.{HasCause, StaysSound};

    /// All bytes that were written, where it tells them.
    ghost bytes: { Self → Option (List ℕ) };

    /// How many calls have failed. The greatest u64 stands for itself and every greater number: there,
    /// after 2^64 - 1 failures, one more can't be told from none.
    ghost faults: { Self → ℕ };

    /// That no call of it ever fails.
    ghost is_sound: { Self → Type 0 } = { λ _. ⊥ };

    /// Writes a first part of the piece, and answers how many bytes that is. To take nothing of a
    /// piece that isn't empty is a failure. After a refusal nothing is written.
    fn put(&mut self, piece: &[u8]) -> Result<usize, Refusal<Failed>>
        ensures within { IfOk result (λ n. n ≤ length piece.now) }
        ensures some { IfOk result (λ n. 0 < length piece.now → 0 < n) }
        ensures ok { IfOk result (λ n. bytes self.new ≡ option_map (λ bs. bs ++ take n piece.now) (bytes self.old)) }
        ensures err { OnErr result (bytes self.new ≡ bytes self.old) }
        ensures cause { HasCause (faults self.old) (faults self.new) result }
        ensures no_memory { IsErrOf result Refusal.NoMemory → faults self.new ≡ faults self.old }
        ensures sound { StaysSound is_sound faults self.old self.new };
}
