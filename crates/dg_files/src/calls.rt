//! The calls of an object in memory.
ghost use Rattle.std.specs.Prelude.{◌≡◌, ◌≤◌, []};
ghost use Rattle.dg_files.specs.Outcome.{failure};

use super::fault_count::FaultCount;
use super::refusal::Failed;
use dg_base::Refusal;
use std::marker::Model;

/// Which calls of an object in memory fail, by their numbers from 1, and how many did. Both counts
/// stop at the greatest u64.
#[derive(Debug, Drop)]
pub struct Calls {
    fails: Vec<u64>,
    made: u64,
    faults: FaultCount,
}

impl Model for Calls {
    ghost use Rattle.dg_files.specs.Plan.{Plan};

    ghost Value = { Plan };

    ghost view = { λ c. record { fails = c.fails.items; made = c.made; faults = c.faults } };
}

impl Calls {
    ghost use Rattle.dg_files.specs.Plan.{fails_next, passed, failed};

    /// No call yet.
    pub fn new(fails: Vec<u64>) -> Calls
        ensures { result ≡ record { fails = fails.items; made = 0; faults = 0 } }
    {
        Calls {
            fails,
            made: 0,
            faults: FaultCount::new(),
        }
    }

    /// Whether the next call is one of those that fail. Time linear in their number.
    pub fn fails_next(&self) -> bool
        ensures { result ≡ fails_next self.now }
    {
        let number = self.made.saturating_add(1);
        self.fails.contains(&number)
    }

    /// Counts a call that doesn't fail.
    pub fn pass(&mut self)
        ensures { self.new ≡ passed self.old }
    {
        self.made = self.made.saturating_add(1);
    }

    /// Counts a call that fails, and answers the failure.
    pub fn failure(&mut self) -> Refusal<Failed>
        ensures refusal { result ≡ failure }
        ensures counted { self.new ≡ failed self.old }
        ensures rises { self.old.faults ≤ self.new.faults }
    {
        self.made = self.made.saturating_add(1);
        self.faults.failure()
    }

    /// How many calls have failed.
    pub fn faults(&self) -> u64
        ensures { result ≡ self.now.faults }
    {
        self.faults.number()
    }
}
