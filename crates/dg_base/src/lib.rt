//! What every crate of the project graph speaks of: the types of ids, values, steps and rules, and
//! in `specs/` the definitions that the whole tool is proved against.
//!
//! A newcomer reads `specs/` first, in the order of its `Lib.antt`: what a graph is, what a chain and the
//! sources of an input are, which rule an endpoint has, which value a rule gives, when a graph is sound,
//! what a step does to a graph, and what is dirty after it. `docs/DEFINITIONS.md` walks through them.
//! [`worked`] states what they give on small graphs, and `specs/Laws` what holds of all: the crate
//! `dg_laws` proves that, and has the lemmas on the definitions.
//!
//! Want of memory is std's `AllocError`, or [`Refusal::NoMemory`] where a call can be refused for a cause
//! of its own too.
#![tactic(auto)]

// Ids, texts, values and nodes.
mod datum;
mod graph;
mod ids;
mod text;
// Answers, rules and schemas.
mod answer;
mod rule;
mod schema;
mod steps;
// Transactions, names, refusals and limits.
mod limits;
mod names;
mod refusal;
mod step;
// Worked cases and tests.
#[cfg(test)]
mod tests;
pub mod worked;

pub use answer::{Answer, Fault, FaultCode, Faults, Held};
pub use datum::{Datum, FieldOf, Fields, Items, PType, PropVal, V3, V4};
pub use graph::{Node, Origin};
pub use ids::{ArcRec, Endpoint, FIRST_OPEN, Kind, Label, NodeId};
pub use limits::REVISIONS;
pub use names::Names;
pub use refusal::Refusal;
pub use rule::{ArgRule, ArgRules, Ends, Props, Rule};
pub use schema::{ArgSpec, ArgVal, Helds, Made, Role, Schema, Ty};
pub use step::{NodeRef, RefusedStep, Step, TxCode};
pub use steps::Steps;
pub use text::Str;
