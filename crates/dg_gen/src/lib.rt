//! A project and a script from a number, of any size: the same ones for the same number.
//!
//! [`project`] makes them. `specs/` says what they are: `Draws` has the numbers that are drawn, `Files` the files, whose
//! texts are printed as `dg_ptext` prints trees, and `Script` the script; `Project` puts them together. `Laws` has what
//! [`generated_paths_differ`] says of them, and [`worked`] states the first draws of a seed, which the checker computes.
#![tactic(auto)]

// The numbers that are drawn.
mod draws;
// What is made of them.
mod files;
mod script;
mod trees;
// All of it.
mod generated;
mod projects;
// What holds of all of it.
mod laws;
#[cfg(test)]
mod tests;
pub mod worked;

pub use generated::Project;
pub use laws::generated_paths_differ;
pub use projects::project;
