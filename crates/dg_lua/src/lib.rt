//! What a script declares: the properties that its lines name by `go.property`, each with an id, a type and a text.
//! The layer above calls [`declarations`] with the text of a script, and gets a [`Declaration`] for each id, of equal
//! ids the first. A script is never refused: a line of any other form declares nothing.
//!
//! In reading order: `declaration` is what a line gives, `parts` takes runs, words, strings and brackets off the front
//! of a text, `values` reads a value, `line` a line, and `script` all lines. `specs/` says the same in the same order:
//! which parts stand where (`Parts`), which text is which value (`Values`), and what a line and a script declare
//! (`Script`).
#![tactic(auto)]

mod declaration;
mod line;
mod parts;
mod script;
#[cfg(test)]
mod tests;
mod values;
pub mod worked;

pub use declaration::Declaration;
pub use script::declarations;
