//! All that a cache had at a time.
ghost use Rattle.std.specs.Prelude.{◌≡◌, ◌↔◌, [], IfOk, IsTrue, length};
ghost use Rattle.std.specs.Option.{option_copied};
ghost use Rattle.dg_base.specs.Order.{ends_rise};
ghost use Rattle.dg_cache.specs.Entries.{ends_of, value_in};
ghost use Rattle.dg_cache.specs.Layout.{entries_from};

use crate::values::Values;
use crate::{Entry, values};
use dg_base::{Endpoint, Held};
use std::alloc::{AllocError, Global};
use std::marker::Model;

/// All that a cache had at a time, in endpoint order. It never changes.
#[derive(Drop)]
pub struct Snapshot {
    values: Option<Values>,
}

impl Model for Snapshot {
    ghost use Rattle.std.specs.Prelude.{List, IsTrue};
    ghost use Rattle.std.specs.Coded.{coded_list};
    ghost use Rattle.dg_base.specs.Order.{ends_rise};
    ghost use Rattle.dg_cache.specs.declared.entry.Entry.{Entry};
    ghost use Rattle.dg_cache.specs.contracts.entry.Entry as entry_type;
    ghost use Rattle.dg_cache.specs.Entries.{ends_of};
    ghost use Rattle.dg_cache.specs.Layout.{shown};

    ghost Value = { List Entry };

    ghost coded = { coded_list entry_type.the_row.coded };

    ghost view = { λ s. shown s.values };

    ghost invariant = { λ s. IsTrue (ends_rise (ends_of (shown s.values))) };
}

impl Snapshot {
    /// Without entries. It takes no memory.
    pub fn none() -> Snapshot
        ensures { result ≡ [] }
    {
        Snapshot { values: None }
    }

    pub(crate) fn of(values: Values) -> Snapshot
        requires { IsTrue (ends_rise (ends_of (entries_from values))) }
        ensures { result ≡ entries_from values }
    {
        Snapshot {
            values: Some(values),
        }
    }

    /// The answer of an endpoint, if the cache had one. In logarithmic time.
    pub fn get(&self, at: Endpoint) -> Option<&Held>
        ensures { option_copied result ≡ value_in self.now at }
    {
        match &self.values {
            Some(values) => values::get(values, at),
            None => None,
        }
    }

    /// How many entries there are, in constant time.
    pub fn len(&self) -> usize
        ensures { result ≡ length self.now }
    {
        match &self.values {
            Some(values) => values.len(),
            None => 0,
        }
    }

    /// The entries, shared, in endpoint order. Linear in them.
    pub fn entries(&self, alloc: Global) -> Result<Vec<Entry>, AllocError>
        ensures entries { IfOk result (λ v. v.items ≡ self.now) }
        ensures in_order { IsTrue (ends_rise (ends_of self.now)) }
    {
        match &self.values {
            Some(values) => values::entries_of(values, alloc),
            None => Ok(Vec::new(alloc)),
        }
    }

    pub fn is_empty(&self) -> bool
        ensures { IsTrue result ↔ (self.now ≡ []) }
    {
        self.len() == 0
    }

    /// The same snapshot once more. In constant time.
    pub fn share(&self) -> Result<Snapshot, AllocError>
        ensures { IfOk result (λ s. s ≡ self.now) }
    {
        let values = match &self.values {
            Some(values) => Some(values.share()?),
            None => None,
        };
        Ok(Snapshot { values })
    }
}
