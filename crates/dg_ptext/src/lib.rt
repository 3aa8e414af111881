//! Protobuf text in the profile of this project: texts, and trees of named fields. The layer above reads a text by
//! [`read_tree`] into a [`Tree`], or learns at which line the text stops to be one, and prints a tree by
//! [`print_tree`] in the one form that reads as the same tree again.
//!
//! In reading order: `tree` is what a text says, `escapes` reads what stands between quotes, `token` the tokens,
//! `state` is where the reader stands between two of them, `reading` reads a whole text, and `printing` prints.
//! `specs/` says which bytes are which tokens (`Token`), which tokens are which fields, production by production
//! (`Grammar`), what the tokens say one after the other, and which is the first that can't be continued (`Reading`),
//! what is printed (`Printed`), and which trees are the same but for line numbers (`Same`). The messages that are
//! open lie on a stack, so reading takes time linear in the text and no deep recursion.
#![tactic(auto)]

mod escapes;
mod laws;
mod printing;
mod reading;
mod refusal;
mod state;
#[cfg(test)]
mod tests;
mod token;
mod tree;

pub use laws::reads_again;
pub use printing::{Bytes, print_tree};
pub use reading::read_tree;
pub use refusal::TextCode;
pub use tree::{Field, Tree, Value};
