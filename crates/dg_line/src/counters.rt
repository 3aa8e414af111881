//! How often each endpoint was dirty.
ghost use Rattle.std.specs.Prelude.{◌≡◌, ◌+◌, ◌++◌, ℕ, [], All, IfOk, OnOk, OnErr, IsTrue};
ghost use Rattle.dg_base.specs.declared.ids.Endpoint.{Endpoint};
ghost use Rattle.dg_base.specs.declared.limits.TheConstants.{REVISIONS};
ghost use Rattle.dg_base.specs.Order.{ends_rise};
ghost use Rattle.dg_line.specs.Counts.{count_in, counted_ends, raised, raised_count, IsAtMost};

use dg_base::Endpoint;
use std::alloc::{AllocError, Global};
use std::cmp::Ordering;
use std::marker::Model;
use std::sync::Arc;

/// An endpoint, and how often it was dirty.
#[derive(Clone, Copy, PartialEq, Eq, Debug)]
pub struct Counted {
    pub at: Endpoint,
    pub count: u32,
}

/// How often each endpoint was dirty, as a list in endpoint order that is shared and never changed.
/// Contracts see the list.
#[derive(Drop)]
pub struct Counters {
    kept: Arc<Vec<Counted>, Global>,
}

impl Model for Counters {
    ghost use Rattle.std.specs.Prelude.{List, IsTrue};
    ghost use Rattle.dg_base.specs.Order.{ends_rise};
    ghost use Rattle.dg_line.specs.declared.counters.Counted.{Counted};
    ghost use Rattle.dg_line.specs.Counts.{counted_ends};

    ghost Value = { List Counted };

    ghost view = { λ s. s.kept.value.items };

    ghost invariant = { λ s. IsTrue (ends_rise (counted_ends s.kept.value.items)) };
}

impl Counters {
    /// No endpoint was dirty.
    pub fn new(alloc: Global) -> Result<Counters, AllocError>
        ensures { IfOk result (λ c. c ≡ []) }
    {
        let kept = Arc::new(alloc, Vec::new(alloc))?;
        Ok(Counters { kept })
    }

    /// How often an endpoint was dirty. In logarithmic time.
    pub fn get(&self, at: Endpoint) -> u32
        ensures { result ≡ count_in self.now at }
    {
        count_in(self.kept.as_slice(), at)
    }

    /// Equal counters, which share the list with these. Neither changes through the other. In constant
    /// time.
    pub fn share(&self) -> Result<Counters, AllocError>
        ensures { IfOk result (λ c. c ≡ self.now) }
    {
        let kept = Arc::try_clone(&self.kept)?;
        Ok(Counters { kept })
    }

    /// Counts one more for each of some endpoints in order. Linear in both lists. Where memory is refused,
    /// the counters are as they were.
    pub fn raise(&mut self, alloc: Global, ends: &[Endpoint]) -> Result<(), AllocError>
        requires in_order { IsTrue (ends_rise ends.now) }
        requires low { All (IsAtMost REVISIONS) self.old }
        ensures ok { OnOk result (self.new ≡ raised self.old ends.now) }
        ensures counts { OnOk result ((e : Endpoint) → count_in self.new e ≡ raised_count self.old ends.now e) }
        ensures low { OnOk result ((n : ℕ) → All (IsAtMost n) self.old → All (IsAtMost (n + 1)) self.new) }
        ensures err { OnErr result (self.new ≡ self.old) }
    {
        let all = merged(alloc, self.kept.as_slice(), ends)?;
        self.kept = Arc::new(alloc, all)?;
        Ok(())
    }
}

// The count of an endpoint in a list in order, found by halves.
fn count_in(kept: &[Counted], at: Endpoint) -> u32
    requires { IsTrue (ends_rise (counted_ends kept.now)) }
    ensures { result ≡ count_in kept.now at }
{
    let mut rest = kept;
    loop {
        let (below, from) = rest.split_at(rest.len() / 2);
        let Some((middle, above)) = from.split_first() else {
            return 0;
        };
        match at.cmp(&middle.at) {
            Ordering::Less => rest = below,
            Ordering::Equal => return middle.count,
            Ordering::Greater => rest = above,
        }
    }
}

// Two lists in order, merged: what only one has is taken from there, and what both have is counted once
// more.
fn merged(alloc: Global, kept: &[Counted], ends: &[Endpoint]) -> Result<Vec<Counted>, AllocError>
    requires kept_in_order { IsTrue (ends_rise (counted_ends kept.now)) }
    requires in_order { IsTrue (ends_rise ends.now) }
    requires low { All (IsAtMost REVISIONS) kept.now }
    ensures { IfOk result (λ v. v.items ≡ raised kept.now ends.now) }
{
    let mut all = Vec::with_capacity(alloc, kept.len() + ends.len())?;
    let mut left = kept;
    let mut new = ends;
    loop {
        match (left.split_first(), new.split_first()) {
            (None, None) => return Ok(all),
            (Some((counted, others)), None) => {
                all.push(*counted)?;
                left = others;
            }
            (None, Some((end, others))) => {
                all.push(Counted { at: *end, count: 1 })?;
                new = others;
            }
            (Some((counted, other_counted)), Some((end, other_ends))) => {
                match counted.at.cmp(end) {
                    Ordering::Less => {
                        all.push(*counted)?;
                        left = other_counted;
                    }
                    Ordering::Equal => {
                        all.push(Counted {
                            at: *end,
                            count: counted.count + 1,
                        })?;
                        left = other_counted;
                        new = other_ends;
                    }
                    Ordering::Greater => {
                        all.push(Counted { at: *end, count: 1 })?;
                        new = other_ends;
                    }
                }
            }
        }
    }
}
