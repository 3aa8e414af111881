//! Shares of all ledgers of a pool.
ghost use Rattle.std.specs.Prelude.{◌≡◌, ◌+◌, ◌<◌};
ghost use Rattle.dg_pool.specs.Tallies.{no_acts, plus, portion};

use crate::names::{Acts, Closes, PoolName, Puts, Refusals, Stops, Takes};
use std::marker::Model;
use std::sync::ledger::Share;

/// A share of each ledger, all of as many parts. Contracts see the parts, and what was done on them.
#[derive(Drop)]
pub(crate) struct Shares<N: PoolName> {
    pub(crate) puts: Share<Acts<N, Puts>>,
    pub(crate) takes: Share<Acts<N, Takes>>,
    pub(crate) refusals: Share<Acts<N, Refusals>>,
    pub(crate) stops: Share<Acts<N, Stops>>,
    pub(crate) closes: Share<Acts<N, Closes>>,
}

impl<N: PoolName> Model for Shares<N> {
    ghost use Rattle.std.specs.Prelude.{◌≡◌};
    ghost use Rattle.dg_pool.specs.Tallies.{Portion, portion_code};

    ghost Value = { Portion };

    ghost coded = { portion_code };

    ghost view = { λ s. record { parts = s.puts.parts; tally = record { puts = s.puts.amount; takes = s.takes.amount; refusals = s.refusals.amount; stops = s.stops.amount; closes = s.closes.amount } } };

    ghost invariant = { λ s. (s.takes.parts ≡ s.puts.parts) × (s.refusals.parts ≡ s.puts.parts) × (s.stops.parts ≡ s.puts.parts) × (s.closes.parts ≡ s.puts.parts) };
}

impl<N: PoolName> Shares<N> {
    /// Cuts off one part, while nothing was done.
    pub(crate) fn split_one(&mut self) -> Shares<N>
        requires some { 0 < self.old.parts }
        requires fresh { self.old.tally ≡ no_acts }
        ensures one { result ≡ portion 1 no_acts }
        ensures parts { self.new.parts + 1 ≡ self.old.parts }
        ensures tally { self.new.tally ≡ no_acts }
    {
        Shares {
            puts: self.puts.split_off(1, 0),
            takes: self.takes.split_off(1, 0),
            refusals: self.refusals.split_off(1, 0),
            stops: self.stops.split_off(1, 0),
            closes: self.closes.split_off(1, 0),
        }
    }

    /// Both together.
    pub(crate) fn merge(&mut self, other: Shares<N>)
        ensures { self.new ≡ portion (self.old.parts + other.parts) (plus self.old.tally other.tally) }
    {
        let Shares {
            puts,
            takes,
            refusals,
            stops,
            closes,
        } = other;
        self.puts.merge(puts);
        self.takes.merge(takes);
        self.refusals.merge(refusals);
        self.stops.merge(stops);
        self.closes.merge(closes);
    }
}
