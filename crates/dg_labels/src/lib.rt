//! The labels and the kinds of the schema, by number and by name. Each has one constant and one line in
//! the table of names beside it, and stands nowhere else.
//!
//! [`labels`] and [`kinds`] have the constants and the tables; `names` the look-up of a name, which both
//! use. In `specs/`, `Names` says what a table of names gives, and `Labels` and `Kinds` read these
//! tables, so a new kind or label is a constant and a line here, and no edit there.
#![tactic(auto)]

pub mod kinds;
pub mod labels;
mod names;

pub use kinds::{kind_named, kinds_agree};
pub use labels::{label_name, label_named, labels_agree};
