//! The names of a script, and the steps of its transactions.
//!
//! [`Bindings`] are the names and the nodes that they are bound to. [`bind_steps`] makes the steps of a
//! transaction from the words of a script, or answers the first of them that names what isn't bound, or
//! a label that isn't the schema's. Whether the nodes are there is asked when the steps are done. For
//! questions, [`node_of_question`] and [`label_of_question`] find what the words of one name.
//!
//! In reading order: `bindings`, then `scope`, which finds the node of a word among the bound names and
//! those of new nodes, `steps` and `transaction`, which bind one step and all of them, and `question`.
//! `specs/` says what is found, in the same order: `Bindings`, `Scope`, `Steps`, `Question`. Two laws say
//! what a binding changes ([`the_latest_binding_counts`]).
#![tactic(auto)]

mod bindings;
mod laws;
mod question;
mod refusal;
mod scope;
mod steps;
#[cfg(test)]
mod tests;
mod transaction;

pub use bindings::Bindings;
pub use laws::the_latest_binding_counts;
pub use question::{label_of_question, node_in, node_of_question};
pub use refusal::{Missing, MissingAt};
pub use scope::Scope;
pub use transaction::{BoundSteps, bind_steps};
