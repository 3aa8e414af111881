//! What holds of the definitions of `dg_base`: the laws, as public functions with empty bodies whose
//! statements stand in `dg_base/specs/Laws.antt`, and the lemmas that the layers above prove their
//! contracts with.
//!
//! The laws say of every schema that a value is what its rule makes of other values, whatever fuel it
//! is computed with, that an endpoint on or before a cycle is one, what a deletion takes, what is dirty,
//! and that weights add up. The lemmas of `proofs/`, lowest first:
//!
//! - of lists: `Members` (what belongs to one), `Filters` (how much one leaves), `Among` (members by a
//!   test that tells equal from different), `Orders` (lists in order, each member once, and what a sort
//!   and a removal of equal neighbours leave) and `Rising` (numbers that rise);
//! - of ids: `Ids` and `Ends` (the tests and orders of nodes, labels and endpoints, as instances of
//!   `Among` and `Orders`);
//! - of graphs: `Nodes`, `Chains`, `Sources` and `Heirs`; `Walks` (what a loop with a stack computes,
//!   of anything that can be walked) and `GraphWalks` (cascade trees and deletions); `Endpoints` (one
//!   with a rule is one of the graph's), `Fuel` and `Endless` (values as fuel grows, and cycles), and
//!   `Dirties` (what is dirty, by rounds and as the least list);
//! - that a sound graph stays sound: `SoundParts` (what soundness says of each node and arc), by each
//!   change (`SoundNodes`, `SoundValues`, `SoundArcs`, `SoundDeletes`), by each step (`SoundSteps`,
//!   `SoundOverrides`) and by a transaction (`SoundApplied`); `SoundKept` has what stays of the other
//!   nodes.
#![tactic(auto)]

pub mod laws;
