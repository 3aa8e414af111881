//! Endpoints in the order in which they came, each once.
ghost use Rattle.std.specs.Prelude.{◌≡◌, ◌++◌, ◌∷◌, ◌-◌, [], OnOk, OnErr, cond, take, length};
ghost use Rattle.dg_base.specs.Order.{is_end_among};

use dg_base::Endpoint;
use indexmap::IndexSet;
use std::alloc::{AllocError, Global};
use std::marker::Model;

/// Endpoints, each once. Contracts see them as a list, in the order in which they came. One is found by
/// its hash.
#[derive(Drop)]
pub(crate) struct EndSet {
    list: Vec<Endpoint>,
    found: IndexSet<Endpoint>,
}

impl Model for EndSet {
    ghost use Rattle.std.specs.Prelude.{◌≡◌, List};
    ghost use Rattle.dg_base.specs.declared.ids.Endpoint.{Endpoint};

    ghost Value = { List Endpoint };

    ghost view = { λ s. s.list.items };

    ghost invariant = { λ s. s.found.keys ≡ s.list.items };
}

impl EndSet {
    /// No endpoint yet.
    pub(crate) fn new(alloc: Global) -> EndSet
        ensures { result ≡ [] }
    {
        EndSet {
            list: Vec::new(alloc),
            found: IndexSet::new(alloc),
        }
    }

    /// Whether the endpoint is there.
    pub(crate) fn has(&self, at: Endpoint) -> bool
        ensures { result ≡ is_end_among self.now at }
    {
        self.found.contains(&at)
    }

    /// Adds the endpoint, last, unless it is there. A refused call changes nothing.
    pub(crate) fn note(&mut self, at: Endpoint) -> Result<(), AllocError>
        ensures ok { OnOk result (self.new ≡ cond (is_end_among self.old at) self.old (self.old ++ at ∷ [])) }
        ensures err { OnErr result (self.new ≡ self.old) }
    {
        if self.has(at) {
            return Ok(());
        }
        self.list.reserve(1)?;
        self.found.insert(at)?;
        self.list.push_reserved(at);
        Ok(())
    }

    /// Takes the last endpoint away, if there is one.
    pub(crate) fn drop_last(&mut self)
        ensures { self.new ≡ take (length self.old - 1) self.old }
    {
        let left = self.list.len().saturating_sub(1);
        self.list.truncate(left);
        self.found.truncate(left);
    }

    /// The endpoints in order. It takes no memory.
    pub(crate) fn into_vec(self) -> Vec<Endpoint>
        ensures { result.items ≡ self }
    {
        self.list
    }
}
