//! What can be undone and what can be done again. [`Stacks`] holds the entries of both; contracts see
//! two lists, the latest entry of each first, and `specs/History.antt` says what each call leaves. What an
//! entry is and how it is undone is the caller's: it looks at the latest entry, does its work, and then
//! moves the entry. Moving takes no memory, so nothing is refused after the work was done.
#![tactic(auto)]

mod stacks;
#[cfg(test)]
mod tests;

pub use stacks::Stacks;
