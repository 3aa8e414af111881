//! Kinds as rows. A row says what one label is to a kind: a property with its default, an input with
//! its marks, an output with its arguments. A schema is a table of kinds, each with its rows, and all
//! that `Schema` asks for is looked up in it, so a label without a row is nothing to its kind.
//!
//! A schema writes its table once, as a static of [`KindRows`], which its `specs/` imports. In
//! [`Row`] and [`KindRows`] the types of what holds lists are parameters, so that one type is a row of
//! the code, with slices, and a row of the definitions, with lists. [`rows_in`], [`labels_in`] and
//! [`is_open_in`] find a kind in the table; [`role_in`], [`args_in`], [`preset_in`] and
//! [`substitute_in`] find a label in its rows. In `specs/`, `Rows` has the rows and the look-ups, and
//! `Fit` the test that a table has to pass. The laws of `Schema` follow from it: `proofs/Laws` has
//! that lemma.
#![tactic(auto)]

// What a label is to a kind.
mod row;
// The look-ups in the rows of a kind.
mod find;
// Kinds, and the look-ups of a kind.
mod kind;

pub use find::{args_in, preset_in, role_in, substitute_in};
pub use kind::{KindRows, Kinds, StaticKind, is_open_in, labels_in, rows_in};
pub use row::{Entry, Preset, Row, Rows, StaticEntry};
