//! Interned names.
ghost use Rattle.std.specs.Prelude.{◌≡◌, ◌≢◌, ◌≤◌, ◌<◌, List, [], length, take, AllPairs, IfOk, OnOk, OnErr, Some};
ghost use Rattle.std.specs.Option.{option_map};
ghost use Rattle.dg_base.specs.Names.{label_of, label_at, text_at, interned};

use crate::{FIRST_OPEN, Label};
use indexmap::IndexSet;
use std::alloc::{AllocError, Global};
use std::marker::Model;

/// Texts that have labels, from 1,024 upward in the order in which they came. Contracts see the
/// texts in order.
///
/// A hash set in the order of insertion holds them, so a text and a label are looked up in constant
/// time on average, beside the text's length.
#[derive(Drop)]
pub struct Names {
    texts: IndexSet<String>,
    alloc: Global,
}

impl Model for Names {
    ghost use Rattle.std.specs.Prelude.{List, ℕ, map, string_bytes};

    ghost Value = { List (List ℕ) };

    ghost view = { λ n. map string_bytes n.texts.keys };
}

impl Names {
    /// No name yet.
    pub fn new(alloc: Global) -> Names
        ensures { result ≡ [] }
    {
        Names {
            texts: IndexSet::new(alloc),
            alloc,
        }
    }

    /// How many names there are.
    pub fn count(&self) -> usize
        ensures count { result ≡ length self.now }
        ensures once { AllPairs (λ a b. a ≢ b) self.now }
    {
        self.texts.len()
    }

    /// The label of the text, where it is interned.
    pub fn find(&self, text: &str) -> Option<Label>
        ensures { result ≡ label_of self.now text.now }
    {
        match self.texts.get_index_of(text) {
            Some(place) => Some(self.label_at(place)),
            None => None,
        }
    }

    fn label_at(&self, place: usize) -> Label
        requires { place < length self.now }
        ensures { result ≡ label_at place }
    {
        let count = self.texts.len();
        prove!(place < count);
        Label(FIRST_OPEN + place as u64)
    }

    /// The text of the label, where one is interned with it.
    pub fn text(&self, label: Label) -> Option<&str>
        ensures { option_map (λ t. t.now) result ≡ text_at self.now label }
    {
        if label.0 < FIRST_OPEN {
            return None;
        }
        match self.texts.get_index((label.0 - FIRST_OPEN) as usize) {
            Some(text) => Some(text.as_str()),
            None => None,
        }
    }

    /// The label that the text has, or the next one. A refused call changes nothing.
    pub fn intern(&mut self, text: &str) -> Result<Label, AllocError>
        ensures names { OnOk result (self.new ≡ interned self.old text.now) }
        ensures label { IfOk result (λ l. label_of self.new text.now ≡ Some l) }
        ensures err { OnErr result (self.new ≡ self.old) }
    {
        let text = String::from_str(self.alloc, text)?;
        let (place, _) = self.texts.insert_full(text)?;
        Ok(self.label_at(place))
    }

    /// Forgets the names after the first `count`.
    #[tactic(auto, using(crate::proofs::NameLists::take_map))]
    pub fn cut(&mut self, count: usize)
        requires { count ≤ length self.old }
        ensures { self.new ≡ take count self.old }
    {
        self.texts.truncate(count);
    }
}
