//! What holds of the load of every tree of files: the laws, as public functions with empty bodies whose statements stand
//! in `specs/Laws.antt`, and [`worked`] with a load that is accepted.
//!
//! The loader carries no graph, so the graph stands in the proof alone. `proofs/`, lowest first: `Outcomes` and `Growth`
//! (what no step of a load takes away), `Owning` and `Naming` (ways that lead into cascade trees, and what references
//! name, whatever comes after), `Steps` and `Overriding` (each step alone), `Drafts` (what holds where a load has come so
//! far, and each way to go on), `Schema` (what loads need of a schema), `Lists`, `Targets` and `Facts` (what the loader's
//! lists say of the graph), and then the parts of the loader: `Properties`, `Components`, `Files`, `Instances`,
//! `Embedded`, `Subs`, `Filling` and `Whole`.
#![tactic(auto)]

pub mod laws;
pub mod worked;
