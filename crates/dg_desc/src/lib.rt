//! The project's typed messages: what a game object file and a collection file say. The layer above reads a tree of
//! fields by [`read_go`] into a [`GoDesc`] or by [`read_coll`] into a [`CollDesc`], or learns by a [`DescCode`] which
//! field is missing or has a value of another form, and on which line. It prints a description by [`go_tree`] and
//! [`coll_tree`] in canonical form: known fields in one order, what is the default left out, and behind them the
//! unknown fields as they were.
//!
//! In reading order: `descs` is what files say, `known` has one table for each message, of its known fields in
//! canonical order, `words` are the bare words, `refusal` and `check` the first fault of a tree, by the tables,
//! `lookups` what the fields of a message without fault give, `copying` copies unknown ones, `fields` puts fields
//! behind others, `part` is a message that can be read and printed, `parts` are the eight of them, `reading` and
//! `printing` take whole files, and `laws` says that what is printed reads again and is printed as the same text.
//! `specs/` says the same in the same order: the tables (`Known`), the words (`Words`), the first fault (`Faults`),
//! what the fields give (`Lookups`), what each message says (`Descs`), the tree that it is printed as (`Trees`), what
//! that tree reads as (`Canonical`), and which texts are formatted (`Formatted`).
#![tactic(auto)]

mod check;
mod copying;
mod descs;
mod fields;
mod known;
mod laws;
mod lookups;
mod part;
mod parts;
mod printing;
mod reading;
mod refusal;
#[cfg(test)]
mod tests;
mod words;
pub mod worked;

pub use descs::{
    ChildDesc, CollDesc, CollInstDesc, CompPropsDesc, EmbedDesc, EmbedInstDesc, GoDesc, InstDesc,
    InstPropsDesc, Items, PropDesc, RefDesc,
};
pub use known::{FieldName, Form, Message, Place, Row};
pub use laws::{coll_reads_again, go_reads_again};
pub use printing::{coll_tree, go_tree};
pub use reading::{read_coll, read_go};
pub use refusal::DescCode;
