//! Two stacks of entries, with room in each for the entries of both.
ghost use Rattle.std.specs.Prelude.{◌≡◌, [], OnOk, OnErr, is_some, length, option_copied};
ghost use Rattle.dg_history.specs.History.{latest, recorded, undone, redone};

use std::alloc::{AllocError, Global};
use std::marker::Model;

/// What can be undone and what can be done again, the latest entry of each last. Each has room for
/// all entries, so going back and forth takes no memory.
#[derive(Drop)]
pub struct Stacks<T: Drop> {
    undo: Vec<T>,
    redo: Vec<T>,
}

impl<T: Drop> Model for Stacks<T> {
    ghost use Rattle.std.specs.Prelude.{◌≤◌, ◌+◌, vec_len, vec_capacity, reverse};
    ghost use Rattle.dg_history.specs.History.{History, history_code};

    ghost Value = { History T };

    ghost coded = { history_code T.code };

    ghost view = { λ s. record { undo = reverse s.undo.items; redo = reverse s.redo.items } };

    ghost invariant = { λ s. (vec_len s.undo + vec_len s.redo ≤ vec_capacity s.undo) × (vec_len s.undo + vec_len s.redo ≤ vec_capacity s.redo) };
}

impl<T: Drop> Stacks<T> {
    /// No entries. It takes no memory.
    pub fn new(alloc: Global) -> Stacks<T>
        ensures { result ≡ record { undo = []; redo = [] } }
    {
        Stacks {
            undo: Vec::new(alloc),
            redo: Vec::new(alloc),
        }
    }

    /// How many entries can be undone.
    pub fn undo_len(&self) -> usize
        ensures { result ≡ length self.now.undo }
    {
        self.undo.len()
    }

    /// How many entries can be done again.
    pub fn redo_len(&self) -> usize
        ensures { result ≡ length self.now.redo }
    {
        self.redo.len()
    }

    /// One more entry to undo, and none to do again. Room is made in both lists first, in amortized
    /// constant time; dropping the entries that could be done again is linear in them. Where memory is
    /// refused, both lists are as they were.
    pub fn record(&mut self, entry: T) -> Result<(), AllocError>
        ensures ok { OnOk result (self.new ≡ recorded self.old entry) }
        ensures err { OnErr result (self.new ≡ self.old) }
    {
        self.redo.reserve(self.undo.len() + 1)?;
        self.undo.reserve(self.redo.len() + 1)?;
        self.redo.clear();
        self.undo.push_reserved(entry);
        Ok(())
    }

    /// The entry that is undone next.
    pub fn peek_undo(&self) -> Option<&T>
        ensures { option_copied result ≡ latest self.now.undo }
    {
        self.undo.last()
    }

    /// The entry that is done again next.
    pub fn peek_redo(&self) -> Option<&T>
        ensures { option_copied result ≡ latest self.now.redo }
    {
        self.redo.last()
    }

    /// Moves the entry that is undone next to those that can be done again, and answers whether there
    /// was one. In constant time, without memory.
    pub fn undo(&mut self) -> bool
        ensures some { result ≡ is_some (latest self.old.undo) }
        ensures lists { self.new ≡ undone self.old }
    {
        let Some(entry) = self.undo.pop() else {
            return false;
        };
        self.redo.push_reserved(entry);
        true
    }

    /// Moves the entry that is done again next to those that can be undone, and answers whether there
    /// was one. In constant time, without memory.
    pub fn redo(&mut self) -> bool
        ensures some { result ≡ is_some (latest self.old.redo) }
        ensures lists { self.new ≡ redone self.old }
    {
        let Some(entry) = self.redo.pop() else {
            return false;
        };
        self.undo.push_reserved(entry);
        true
    }
}
