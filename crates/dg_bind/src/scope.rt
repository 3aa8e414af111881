//! The names that words of a step are read by, and the nodes that they stand for.
ghost use Rattle.std.specs.Prelude.{◌≡◌, Some, IfOk};
ghost use Rattle.dg_base.specs.declared.step.NodeRef.TheVariants as ref_;
ghost use Rattle.dg_bind.specs.Scope.{last_place, name_ref, node_ref};

use crate::bindings::Bindings;
use dg_base::{NodeRef, Str};
use dg_text::split_at_last;
use sqlite_items::Boxed;
use std::alloc::{AllocError, Global};
use std::marker::Model;

/// The names before a step: those that are bound, and those of the nodes that the steps before it make,
/// in order. Contracts see both lists.
#[derive(Drop)]
pub struct Scope<'a> {
    pub bindings: &'a Bindings,
    pub new_names: &'a [Str],
}

impl<'a> Model for Scope<'a> {
    ghost use Rattle.dg_bind.specs.Bindings.{Binding};
    ghost use Rattle.dg_bind.specs.Scope.{Scope};
    ghost use Rattle.dg_bind.specs.Code.{scope_code};

    ghost Value = { Scope };

    ghost coded = { scope_code };

    ghost view = { λ s. record { bound = s.bindings.now; new = s.new_names.now } };
}

impl<'a> Scope<'a> {
    /// The node that a word stands for, where the names are there. The names of new nodes are gone through
    /// from their end for each name in the word. A new node's number above `u32::MAX` is answered as want
    /// of memory.
    pub fn node(&self, alloc: Global, word: &str) -> Result<Option<NodeRef>, AllocError>
        ensures { IfOk result (λ r. r ≡ node_ref self.now word.now) }
    {
        if let Some(whole) = self.name(word)? {
            return Ok(Some(whole));
        }
        let Some((left, _, right)) = split_at_last(word, b"@") else {
            return Ok(None);
        };
        let Some(root) = self.name(right)? else {
            return Ok(None);
        };
        let Some(original) = self.node(alloc, left)? else {
            return Ok(None);
        };
        Ok(Some(joined(alloc, root, original)?))
    }

    // The node of a name alone.
    fn name(&self, name: &str) -> Result<Option<NodeRef>, AllocError>
        ensures { IfOk result (λ r. r ≡ name_ref self.now name.now) }
    {
        match last_place(self.new_names, name) {
            Some(place) => match u32::try_from(place) {
                Ok(place) => Ok(Some(NodeRef::New(place))),
                Err(_) => Err(AllocError),
            },
            None => match self.bindings.find(name) {
                Some(node) => Ok(Some(NodeRef::Id(node))),
                None => Ok(None),
            },
        }
    }
}

fn joined(alloc: Global, root: NodeRef, original: NodeRef) -> Result<NodeRef, AllocError>
    ensures { IfOk result (λ r. r ≡ ref_.In root original) }
{
    Ok(NodeRef::In {
        root: Boxed::new(alloc, root)?,
        original: Boxed::new(alloc, original)?,
    })
}

// Where a name stands last.
fn last_place(names: &[Str], name: &str) -> Option<usize>
    ensures { result ≡ last_place names.now name.now }
{
    let mut end = names.len();
    while end > 0 {
        end -= 1;
        if name == names[end].as_str() {
            return Some(end);
        }
    }
    None
}
