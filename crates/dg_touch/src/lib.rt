//! What a transaction touches and what it leaves as it was: the laws, as public functions with empty bodies
//! whose statements stand in `specs/Laws.antt`, worked cases that the checker computes, and the lemmas that
//! the layers above prove their contracts with.
//!
//! The rule of an endpoint is a function of what it reads (`specs/Reads.antt`). So each change of a graph
//! changes no rule but those of the endpoints that it touches, and outside of what these make dirty every
//! value stays. The lemmas of `proofs/`, lowest first:
//!
//! - `Passing` (lists from which only what fails a test is taken), `Results` (what holds of an answer where
//!   there is one), `Outside` (rules that agree outside of some endpoints, one change after another) and
//!   `OutsideDirty` (values outside of what is dirty);
//! - `Reading` (rules of graphs of which the same is read, and when it is) and `Readers` (the outputs that
//!   read an input or the open values);
//! - by change, of any graph: `ArcChanges` (an arc more, an arc less, one in place of another), `NodeEdits`
//!   (nodes are changed, but for their ids and origins) and `ValueChanges` (an own value set or cleared, a
//!   mark); of a sound graph: `NodeChanges` (with and without some nodes), `NodesGone` (a deletion) and
//!   `NodesNew` (nodes appended);
//! - by step: `StepsGrow` (the steps that append nodes), `ConnectRules`, `StepRules` and `TransactRules`.
#![tactic(auto)]

pub mod laws;
pub mod worked;
