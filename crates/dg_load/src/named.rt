//! Names with what they stand for.
ghost use Rattle.std.specs.Prelude.{◌≡◌, [], OnOk, OnErr};
ghost use Rattle.dg_load.specs.Named.{find, put};

use indexmap::IndexMap;
use std::alloc::{AllocError, Global};
use std::marker::Model;

/// Names with what they stand for, each once, in the order in which they first came. Contracts see the list of pairs.
///
/// A name is looked up by its hash, in constant time on average beside its length.
#[derive(Drop)]
pub struct Named<V: Drop> {
    alloc: Global,
    values: IndexMap<String, V>,
}

impl<V: Drop> Model for Named<V> {
    ghost use Rattle.std.specs.Prelude.{List, ℕ};
    ghost use Rattle.dg_load.specs.Named.{pairs_in};

    ghost Value = { List (List ℕ × V) };

    ghost view = { λ n. pairs_in n.values.entries };
}

impl<V: Drop> Named<V> {
    /// No name yet. Takes no memory.
    pub fn new(alloc: Global) -> Named<V>
        ensures { result ≡ [] }
    {
        Named {
            alloc,
            values: IndexMap::new(alloc),
        }
    }

    /// Lets the name stand for the value, in place of what it stood for. A refused call changes nothing.
    pub fn put(&mut self, name: &str, value: V) -> Result<(), AllocError>
        ensures ok { OnOk result (self.new ≡ put name.now value self.old) }
        ensures err { OnErr result (self.new ≡ self.old) }
    {
        let name = String::from_str(self.alloc, name)?;
        self.values.insert(name, value)?;
        Ok(())
    }
}

impl<V: Copy + Drop> Named<V> {
    /// What the name stands for.
    pub fn find(&self, name: &str) -> Option<V>
        ensures { result ≡ find self.now name.now }
    {
        self.values.get(name).copied()
    }
}
