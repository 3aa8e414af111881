//! The endpoints that an evaluation has finished, with their values.
ghost use Rattle.std.specs.Prelude.{◌≡◌, ◌++◌, ◌∷◌, [], None, OnOk, OnErr};
ghost use Rattle.std.specs.Option.{option_copied};
ghost use Rattle.dg_cache.specs.Entries.{value_in};
ghost use Rattle.dg_base.specs.Evaluation.{is_cached_at};
ghost use Rattle.dg_eval.specs.Results.{cached_of};

use crate::cached::is_cached;
use dg_base::{Endpoint, Held, Schema};
use dg_cache::Entry;
use dg_view::Graph;
use indexmap::IndexSet;
use std::alloc::{AllocError, Global};
use std::marker::Model;

/// Endpoints with their values, each endpoint once. Contracts see them as a list, in the order in which
/// they came. A value is found by its endpoint's hash.
#[derive(Drop)]
pub(crate) struct Results {
    entries: Vec<Entry>,
    places: IndexSet<Endpoint>,
}

impl Model for Results {
    ghost use Rattle.std.specs.Prelude.{◌≡◌, List};
    ghost use Rattle.std.specs.Coded.{coded_list};
    ghost use Rattle.dg_cache.specs.declared.entry.Entry.{Entry};
    ghost use Rattle.dg_cache.specs.contracts.entry.Entry as entry_type;
    ghost use Rattle.dg_cache.specs.Entries.{ends_of};

    ghost Value = { List Entry };

    ghost coded = { coded_list entry_type.the_row.coded };

    ghost view = { λ r. r.entries.items };

    ghost invariant = { λ r. r.places.keys ≡ ends_of r.entries.items };
}

impl Results {
    /// No endpoint yet.
    pub(crate) fn new(alloc: Global) -> Results
        ensures { result ≡ [] }
    {
        Results {
            entries: Vec::new(alloc),
            places: IndexSet::new(alloc),
        }
    }

    /// The value of an endpoint.
    pub(crate) fn find(&self, at: Endpoint) -> Option<&Held>
        ensures { option_copied result ≡ value_in self.now at }
    {
        let place = self.places.get_index_of(&at)?;
        Some(&self.entries[place].value)
    }

    /// Adds a new endpoint with its value, last. A refused call changes nothing.
    pub(crate) fn push(&mut self, at: Endpoint, value: Held) -> Result<(), AllocError>
        requires { value_in self.old at ≡ None }
        ensures ok { OnOk result (self.new ≡ self.old ++ record { at = at; value = value } ∷ []) }
        ensures err { OnErr result (self.new ≡ self.old) }
    {
        self.entries.reserve(1)?;
        self.places.insert(at)?;
        self.entries.push_reserved(Entry { at, value });
        Ok(())
    }

    /// The entries of the cached outputs, in order. It takes no memory.
    pub(crate) fn into_cached<S: Schema>(self, graph: &Graph<S>) -> Vec<Entry>
        ensures { result.items ≡ cached_of S.tables graph.now self }
    {
        let mut entries = self.entries;
        entries.retain(
            |entry: &Entry| -> bool
                ensures { result ≡ is_cached_at S.tables graph.entry.now entry.now.at }
            { is_cached(graph, entry.at) },
        );
        entries
    }
}
