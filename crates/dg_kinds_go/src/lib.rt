//! The kinds of nodes that make up game objects: Num, Sum, Text, Join, ResourceFile, ScriptFile,
//! GameObject, ComponentRef and ComponentEmbedded.
//!
//! [`GoKinds`] is the schema, which the engine is generic over, and [`GO_KINDS`] its table: each kind
//! with its labels and what they are to it. In `specs/`, `Kinds` reads this table, and `Go` has the
//! schema's tables, which are look-ups in it. What the outputs give is defined on argument values, a
//! module each: `Sum`, `Join`, `Files`, `Components` and `Objects`; `Values` says how arguments are
//! read. [`worked`] states what they give on small arguments.
//!
//! A crate with more kinds puts its own kinds and productions before [`GO_KINDS`] and [`go_made`], and
//! may use all that is public here. Want of memory is std's `AllocError`.
#![tactic(auto)]

// How arguments are read.
mod values;
// What the outputs give, a file for each subject.
mod components;
mod files;
mod join;
mod objects;
mod sum;
// Each label with what it is to its kind.
mod table;
// The schema over that table and those outputs.
mod go;
// Cases.
#[cfg(test)]
mod tests;
pub mod worked;

pub use components::is_type_name;
pub use go::{GoKinds, go_made};
pub use objects::{has_equals, ids_of};
pub use table::{GO_KINDS, UNTURNED, ZERO3};
pub use values::{
    answers_at, copied, field_in, fields_in, good_in, items_in, props_at, push_field, push_item,
    text_in, value_at,
};
