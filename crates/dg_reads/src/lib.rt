//! All that is read of a project graph and follows from a few core reads, written once for every form
//! of the graph. A form gives `CoreReads`, and its contracts see it as dg_base's two lists; each
//! function here answers a definition of `dg_base` over these lists.
//!
//! The reads: `chains` kinds and heirs, `inputs` sources, `rules` with `open_properties` the rule of an
//! endpoint and its dependencies, `ends` endpoints, `readers` which outputs read something,
//! `rounds` what is dirty, and `values` plain evaluation. Want of memory is std's `AllocError`.
#![tactic(auto)]

mod chains;
mod core_reads;
mod ends;
mod inputs;
mod open_properties;
mod readers;
mod rounds;
mod rules;
mod sets;
mod values;

pub use chains::{heirs, kind};
pub use core_reads::CoreReads;
pub use ends::{endpoints, endpoints_at};
pub use inputs::sources;
pub use readers::{open_readers, outputs_at, readers_of_input, readers_of_nodes};
pub use rounds::dirty;
pub use rules::{dependencies, rule};
pub use values::plain_value;
