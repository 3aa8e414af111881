//! What holds of the build files of every sound graph: the laws, as public functions with empty bodies whose statements
//! stand in `specs/Laws.antt`.
//!
//! The paths rest on what is in the values: where a component is embedded, its type is a name. `proofs/`, lowest first:
//! `Lists`; `Kept` (what every value keeps to, whatever it is for), `Arguments`, `Productions` and `Values` (that each
//! value of a sound graph does); `Builds` (the path that a value of an output `build` says); of texts `Segments` (another
//! ending behind a stem), `Folders` (a path behind a folder's), `Names` (texts without a slash) and `Differing`; `Counts`
//! (a value has no more in it than it weighs); and `Files`. [`worked`] has graphs of which the checker computes the build
//! files, or that there are none (`OneObject`).
#![tactic(auto)]

pub mod laws;
pub mod worked;
