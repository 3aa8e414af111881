//! A sink in memory.
ghost use Rattle.std.specs.Prelude.{◌≡◌, ℕ, ◌<◌, ◌≤◌, ◌↔◌, [], ◌++◌, min, length, take, Some, IsTrue, IfOk, OnErr, IsErrOf};
ghost use Rattle.std.specs.Option.{option_map};
ghost use Rattle.dg_files.specs.Outcome.{failure};

use super::calls::Calls;
use super::refusal::Failed;
use super::sink::Sink;
use dg_base::Refusal;
use std::alloc::Global;
use std::marker::Model;

/// A sink in memory, which takes at most so many bytes at a call, and fails at the calls that it is
/// given.
#[derive(Debug, Drop)]
pub struct MemSink {
    bytes: Vec<u8>,
    calls: Calls,
    most: usize,
}

impl Model for MemSink {
    ghost use Rattle.std.specs.Prelude.{◌<◌};
    ghost use Rattle.dg_files.specs.Taken.{Taken};

    ghost Value = { Taken };

    ghost view = { λ s. record { bytes = s.bytes.items; calls = s.calls; most = s.most } };

    ghost invariant = { λ s. 0 < s.most };
}

impl MemSink {
    /// A sink that has taken nothing. `fail` lists the numbers of the calls of `put` that fail, from
    /// 1, and a call takes at most `most` bytes.
    pub fn new(alloc: Global, fail: Vec<u64>, most: usize) -> MemSink
        requires { 0 < most }
        ensures bytes { result.bytes ≡ [] }
        ensures calls { result.calls ≡ record { fails = fail.items; made = 0; faults = 0 } }
        ensures most { result.most ≡ most }
    {
        MemSink {
            bytes: Vec::new(alloc),
            calls: Calls::new(fail),
            most,
        }
    }

    /// All bytes that were written.
    pub fn as_slice(&self) -> &[u8]
        ensures { result.now ≡ self.now.bytes }
    {
        &self.bytes
    }

    /// How many calls have failed.
    pub fn faults(&self) -> u64
        ensures { result ≡ self.now.calls.faults }
    {
        self.calls.faults()
    }
}

impl Sink for MemSink {
    ghost use Rattle.dg_files.specs.Outcome.{HasCause, StaysSound};
    ghost use Rattle.dg_files.specs.Plan.{fails_next, passed, failed};

    ghost bytes = { λ s. Some s.bytes };

    ghost faults = { λ s. s.calls.faults };

    ghost is_sound = { λ s. s.calls.fails ≡ [] };

    /// Takes as many bytes as it may, unless the call is one of those that fail. A call for which
    /// there is no memory isn't numbered.
    fn put(&mut self, piece: &[u8]) -> Result<usize, Refusal<Failed>>
        ensures taken { IfOk result (λ n. n ≡ min (length piece.now) self.old.most) }
        ensures some { IfOk result (λ n. 0 < length piece.now → 0 < n) }
        ensures ok { IfOk result (λ n. self.new ≡ record self.old { bytes = self.old.bytes ++ take n piece.now; calls = passed self.old.calls }) }
        ensures fails { IsErrOf result failure ↔ IsTrue (fails_next self.old.calls) }
        ensures failed { IsErrOf result failure → self.new ≡ record self.old { calls = failed self.old.calls } }
        ensures no_memory { IsErrOf result Refusal.NoMemory → self.new ≡ self.old }
        ensures cause { HasCause self.old.calls.faults self.new.calls.faults result }
    {
        if self.calls.fails_next() {
            return Err(self.calls.failure());
        }
        let len = piece.len().min(self.most);
        self.bytes.extend_from_slice(&piece[..len])?;
        self.calls.pass();
        Ok(len)
    }
}
