//! Standard output.
ghost use Rattle.std.specs.Prelude.{◌≡◌, ℕ};

use super::fault_count::FaultCount;
use super::refusal::Failed;
use super::sink::Sink;
use dg_base::Refusal;
use std::io::{self, Write};
use std::marker::Model;

/// Standard output. It tells nothing of what was written. Contracts see how often it has failed, up
/// to the greatest u64.
#[derive(Drop)]
pub struct StdSink<R: Print + Drop> {
    rt: R,
    count: FaultCount,
}

impl<R: Print + Drop> Model for StdSink<R> {
    ghost Value = { ℕ };

    ghost view = { λ s. s.count };
}

impl<R: Print + Drop> StdSink<R> {
    pub fn new(rt: R) -> StdSink<R>
        ensures { result ≡ 0 }
    {
        StdSink {
            rt,
            count: FaultCount::new(),
        }
    }

    /// How many calls have failed, up to the greatest u64.
    pub fn faults(&self) -> u64
        ensures { result ≡ self.now }
    {
        self.count.number()
    }
}

impl<R: Print + Drop> Sink for StdSink<R> {
    ghost use Rattle.std.specs.Prelude.{None};

    ghost bytes = { λ _. None };

    ghost faults = { λ count. count };

    /// As many bytes as the system takes at once. To take nothing of a piece that isn't empty is a
    /// failure, as each error of the system is.
    fn put(&mut self, piece: &[u8]) -> Result<usize, Refusal<Failed>> {
        match io::writer(&self.rt).write(piece) {
            Ok(taken) if taken > 0 || piece.is_empty() => Ok(taken),
            _ => Err(self.count.failure()),
        }
    }
}
