//! The books of all ledgers of a pool.
ghost use Rattle.std.specs.Prelude.{◌≡◌, ◌<◌};
ghost use Rattle.dg_pool.specs.Names.{AreNamed};
ghost use Rattle.dg_pool.specs.Tallies.{no_acts, portion, with_close, with_puts, with_refusal, with_stop, with_takes};

use crate::names::{Acts, Blanks, Closes, PoolName, Puts, Refusals, Stops, Takes};
use crate::shares::Shares;
use std::marker::Model;
use std::sync::ledger::Book;

/// The book of each ledger. Contracts see what was done on all shares together.
#[derive(Drop)]
pub(crate) struct Books<N: PoolName> {
    puts: Book<Acts<N, Puts>>,
    takes: Book<Acts<N, Takes>>,
    refusals: Book<Acts<N, Refusals>>,
    stops: Book<Acts<N, Stops>>,
    closes: Book<Acts<N, Closes>>,
}

impl<N: PoolName> Model for Books<N> {
    ghost use Rattle.dg_pool.specs.Tallies.{Tally, tally_code};

    ghost Value = { Tally };

    ghost coded = { tally_code };

    ghost view = { λ b. record { puts = b.puts.total; takes = b.takes.total; refusals = b.refusals.total; stops = b.stops.total; closes = b.closes.total } };
}

impl<N: PoolName> Books<N> {
    /// New books, and shares of all parts.
    pub(crate) fn open(blanks: Blanks) -> (Books<N>, Shares<N>)
        requires { AreNamed N.names blanks }
        ensures books { result.0 ≡ no_acts }
        ensures shares { result.1 ≡ portion N.names.passes no_acts }
    {
        let Blanks {
            puts,
            takes,
            refusals,
            stops,
            closes,
        } = blanks;
        let (puts, put_share) = puts.open::<Acts<N, Puts>>();
        let (takes, take_share) = takes.open::<Acts<N, Takes>>();
        let (refusals, refusal_share) = refusals.open::<Acts<N, Refusals>>();
        let (stops, stop_share) = stops.open::<Acts<N, Stops>>();
        let (closes, close_share) = closes.open::<Acts<N, Closes>>();
        (
            Books {
                puts,
                takes,
                refusals,
                stops,
                closes,
            },
            Shares {
                puts: put_share,
                takes: take_share,
                refusals: refusal_share,
                stops: stop_share,
                closes: close_share,
            },
        )
    }

    /// A put of so many jobs that meet the test.
    pub(crate) fn put(&mut self, shares: &mut Shares<N>, jobs: u64)
        requires { 0 < shares.old.parts }
        ensures books { self.new ≡ with_puts jobs self.old }
        ensures shares { shares.new ≡ portion shares.old.parts (with_puts jobs shares.old.tally) }
    {
        self.puts.add(&mut shares.puts, jobs);
    }

    /// A take of so many jobs that meet the test.
    pub(crate) fn take(&mut self, shares: &mut Shares<N>, jobs: u64)
        requires { 0 < shares.old.parts }
        ensures books { self.new ≡ with_takes jobs self.old }
        ensures shares { shares.new ≡ portion shares.old.parts (with_takes jobs shares.old.tally) }
    {
        self.takes.add(&mut shares.takes, jobs);
    }

    /// A put that found the pool closed.
    pub(crate) fn refuse(&mut self, shares: &mut Shares<N>)
        requires { 0 < shares.old.parts }
        ensures books { self.new ≡ with_refusal self.old }
        ensures shares { shares.new ≡ portion shares.old.parts (with_refusal shares.old.tally) }
    {
        self.refusals.add(&mut shares.refusals, 1);
    }

    /// A take that found the pool closed and empty.
    pub(crate) fn stop(&mut self, shares: &mut Shares<N>)
        requires { 0 < shares.old.parts }
        ensures books { self.new ≡ with_stop self.old }
        ensures shares { shares.new ≡ portion shares.old.parts (with_stop shares.old.tally) }
    {
        self.stops.add(&mut shares.stops, 1);
    }

    /// A call that closes the pool.
    pub(crate) fn close(&mut self, shares: &mut Shares<N>)
        requires { 0 < shares.old.parts }
        ensures books { self.new ≡ with_close self.old }
        ensures shares { shares.new ≡ portion shares.old.parts (with_close shares.old.tally) }
    {
        self.closes.add(&mut shares.closes, 1);
    }

    /// Shares of all parts have what the books have, for proofs.
    pub(crate) fn audit(&mut self, all: &mut Shares<N>)
        requires { all.old.parts ≡ N.names.passes }
        ensures { all.old.tally ≡ self.old }
    {
        self.puts.audit(&mut all.puts);
        self.takes.audit(&mut all.takes);
        self.refusals.audit(&mut all.refusals);
        self.stops.audit(&mut all.stops);
        self.closes.audit(&mut all.closes);
    }
}
