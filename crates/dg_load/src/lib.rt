//! The loader: a project's files become the steps that make its graph, the names of their nodes and the bad places.
//! The layer above calls [`load`] with the files and the interned names, and gets [`Loaded`], or learns which limit the
//! project passes; [`load_sources`] begins with what was read.
//!
//! The loader carries no graph: a node is the number of its making step, and what a later part names is looked up by its
//! path or id in the loader's own lists. In reading order: `named` is names with what they stand for, `draft` what was made
//! so far, `state` the loader between two parts, `properties` sets what scripts and components have by ids, `scripts`,
//! `components` and `objects` are the files of these sorts, `targets` finds the component that ids name, `instances`, `subs`
//! and `children` are what stands in a collection, `collections` the files of this sort and what fills them, `order` which
//! is filled before which, and `whole` all of it. `specs/` says the same in modules of the same names (`Loads` the whole),
//! and [`worked`] what they give on small projects.
#![tactic(auto)]

mod children;
mod collections;
mod components;
mod draft;
mod instances;
mod named;
mod objects;
mod order;
mod properties;
mod scripts;
mod state;
mod subs;
mod targets;
#[cfg(test)]
mod tests;
mod whole;
pub mod worked;

pub use draft::{Bound, Draft};
pub use named::Named;
pub use state::{Child, Filled, Instance, Load, Object, Part, Sub};
pub use whole::{Loaded, load, load_sources};
