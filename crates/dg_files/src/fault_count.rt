//! How often an object has failed.
ghost use Rattle.std.specs.Prelude.{◌≡◌, ℕ, ◌≤◌};
ghost use Rattle.dg_files.specs.Plan.{one_more};
ghost use Rattle.dg_files.specs.Outcome.{Rose, failure};

use super::refusal::Failed;
use dg_base::Refusal;
use std::io::ErrorKind;
use std::marker::Model;

/// How often an object of the outside has failed, up to the greatest u64.
#[derive(Debug, Drop)]
pub struct FaultCount {
    number: u64,
}

impl Model for FaultCount {
    ghost Value = { ℕ };

    ghost view = { λ c. c.number };
}

impl FaultCount {
    /// No failure yet.
    pub fn new() -> FaultCount
        ensures { result ≡ 0 }
    {
        FaultCount { number: 0 }
    }

    pub fn number(&self) -> u64
        ensures { result ≡ self.now }
    {
        self.number
    }

    /// Counts a failure, and answers it.
    pub fn failure(&mut self) -> Refusal<Failed>
        ensures refusal { result ≡ failure }
        ensures counted { self.new ≡ one_more self.old }
        ensures rises { self.old ≤ self.new }
    {
        self.number = self.number.saturating_add(1);
        Refusal::Because(Failed)
    }

    /// What an error of the system is: want of memory, which isn't counted, or a failure.
    pub fn refusal(&mut self, kind: ErrorKind) -> Refusal<Failed>
        ensures failed { result ≡ failure → Rose self.old self.new }
        ensures rises { self.old ≤ self.new }
    {
        if kind == ErrorKind::OutOfMemory {
            Refusal::NoMemory
        } else {
            self.failure()
        }
    }
}
