//! Files in memory.
ghost use Rattle.std.specs.Prelude.{◌≡◌, ℕ, ◌↔◌, [], Some, IsTrue, IfOk, OnOk, OnErr, IsErrOf};
ghost use Rattle.std.specs.Option.{option_map};
ghost use Rattle.dg_files.specs.Tree.{are_distinct, bytes_at, got_of, listing_of};
ghost use Rattle.dg_files.specs.Kept.{tree_of};
ghost use Rattle.dg_files.specs.Outcome.{failure};

use super::calls::Calls;
use super::entries;
use super::files::{Bytes, Files, Got, Listing, MOST_LISTED};
use super::refusal::Failed;
use dg_base::Refusal;
use std::alloc::{AllocError, Global};
use std::marker::Model;

/// Files in memory, which fail at the calls that they are given.
#[derive(Debug, Drop)]
pub struct MemFiles {
    alloc: Global,
    files: Vec<(String, Vec<u8>)>,
    calls: Calls,
}

impl Model for MemFiles {
    ghost use Rattle.std.specs.Prelude.{IsTrue};
    ghost use Rattle.dg_files.specs.Tree.{are_distinct};
    ghost use Rattle.dg_files.specs.Kept.{Kept, tree_of};

    ghost Value = { Kept };

    ghost view = { λ m. record { tree = tree_of m.files.items; calls = m.calls } };

    ghost invariant = { λ m. IsTrue (are_distinct (tree_of m.files.items)) };
}

impl MemFiles {
    /// Files with these paths and bytes, on condition that no path stands twice, which
    /// `are_distinct` tests. `fail` lists the numbers of the calls that fail, from 1, over all three
    /// calls together. What is written later is kept in memory of `alloc`.
    pub fn new(alloc: Global, tree: Vec<(String, Vec<u8>)>, fail: Vec<u64>) -> MemFiles
        requires { IsTrue (are_distinct (tree_of tree.items)) }
        ensures tree { result.tree ≡ tree_of tree.items }
        ensures calls { result.calls ≡ record { fails = fail.items; made = 0; faults = 0 } }
    {
        MemFiles {
            alloc,
            files: tree,
            calls: Calls::new(fail),
        }
    }

    /// The bytes of the file at the path, in time linear in the number of the files.
    pub fn get(&self, path: &str) -> Option<&[u8]>
        ensures { option_map (λ b. b.now) result ≡ bytes_at self.now.tree path.now }
    {
        entries::bytes_at(&self.files, path)
    }

    /// How many calls have failed.
    pub fn faults(&self) -> u64
        ensures { result ≡ self.now.calls.faults }
    {
        self.calls.faults()
    }
}

fn listing_of(alloc: Global, files: &[(String, Vec<u8>)]) -> Result<Listing, AllocError>
    ensures { IfOk result (λ l. l ≡ listing_of (tree_of files.now)) }
{
    let paths = entries::listed_paths(alloc, files)?;
    if paths.len() > MOST_LISTED {
        Ok(Listing::More)
    } else {
        Ok(Listing::All(paths))
    }
}

fn got_at(
    alloc: Global,
    files: &[(String, Vec<u8>)],
    path: &str,
    most: usize,
) -> Result<Got, AllocError>
    ensures { IfOk result (λ g. g ≡ got_of (bytes_at (tree_of files.now) path.now) most) }
{
    match entries::bytes_at(files, path) {
        None => Ok(Got::Absent),
        Some(bytes) if bytes.len() > most => Ok(Got::Longer),
        Some(bytes) => Ok(Got::Whole(Bytes::from_slice(alloc, bytes)?)),
    }
}

impl Files for MemFiles {
    ghost use Rattle.dg_files.specs.Tree.{written};
    ghost use Rattle.dg_files.specs.Outcome.{HasCause};
    ghost use Rattle.dg_files.specs.Plan.{fails_next, passed, failed};

    ghost tree = { λ m. Some m.tree };

    ghost faults = { λ m. m.calls.faults };

    ghost is_sound = { λ m. m.calls.fails ≡ [] };

    /// A call for which there is no memory isn't numbered. Paths stand in the order in which they
    /// were given or first written.
    fn list(&mut self, alloc: Global) -> Result<Listing, Refusal<Failed>>
        ensures listing { IfOk result (λ l. l ≡ listing_of self.old.tree) }
        ensures ok { OnOk result (self.new ≡ record self.old { calls = passed self.old.calls }) }
        ensures fails { IsErrOf result failure ↔ IsTrue (fails_next self.old.calls) }
        ensures failed { IsErrOf result failure → self.new ≡ record self.old { calls = failed self.old.calls } }
        ensures no_memory { IsErrOf result Refusal.NoMemory → self.new ≡ self.old }
        ensures distinct { IsTrue (are_distinct self.new.tree) }
        ensures cause { HasCause self.old.calls.faults self.new.calls.faults result }
    {
        if self.calls.fails_next() {
            return Err(self.calls.failure());
        }
        let listing = listing_of(alloc, &self.files)?;
        self.calls.pass();
        Ok(listing)
    }

    /// A call for which there is no memory isn't numbered. Time linear in the number of the files.
    fn read(&mut self, alloc: Global, path: &str, most: usize) -> Result<Got, Refusal<Failed>>
        ensures got { IfOk result (λ g. g ≡ got_of (bytes_at self.old.tree path.now) most) }
        ensures ok { OnOk result (self.new ≡ record self.old { calls = passed self.old.calls }) }
        ensures fails { IsErrOf result failure ↔ IsTrue (fails_next self.old.calls) }
        ensures failed { IsErrOf result failure → self.new ≡ record self.old { calls = failed self.old.calls } }
        ensures no_memory { IsErrOf result Refusal.NoMemory → self.new ≡ self.old }
        ensures distinct { IsTrue (are_distinct self.new.tree) }
        ensures cause { HasCause self.old.calls.faults self.new.calls.faults result }
    {
        if self.calls.fails_next() {
            return Err(self.calls.failure());
        }
        let got = got_at(alloc, &self.files, path, most)?;
        self.calls.pass();
        Ok(got)
    }

    /// A call for which there is no memory isn't numbered, and one that fails leaves the tree as it
    /// was. Time linear in the number of the files.
    fn write(&mut self, _alloc: Global, path: &str, bytes: &[u8]) -> Result<(), Refusal<Failed>>
        ensures ok { OnOk result (self.new ≡ record { tree = written self.old.tree path.now bytes.now; calls = passed self.old.calls }) }
        ensures fails { IsErrOf result failure ↔ IsTrue (fails_next self.old.calls) }
        ensures failed { IsErrOf result failure → self.new ≡ record self.old { calls = failed self.old.calls } }
        ensures no_memory { IsErrOf result Refusal.NoMemory → self.new ≡ self.old }
        ensures distinct { IsTrue (are_distinct self.new.tree) }
        ensures cause { HasCause self.old.calls.faults self.new.calls.faults result }
    {
        if self.calls.fails_next() {
            return Err(self.calls.failure());
        }
        entries::put_bytes(self.alloc, &mut self.files, path, bytes)?;
        self.calls.pass();
        Ok(())
    }
}
