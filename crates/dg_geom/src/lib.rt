//! Where things stand, and what stands inside of what. A [`Transform`] is a position, a rotation and a
//! scale, and [`compose`] says where a thing of an inner transform is, seen from outside of the outer one.
//!
//! All numbers are billionths in an `i64`. Each product is rounded once, halves away from zero; sums are
//! exact. In `specs/`, `Vectors` and `Rotations` have the formulas, and `Composition` says what [`compose`]
//! gives and when it is in range; [`worked`] states cases. Nothing here takes memory.
#![tactic(auto)]

// Numbers and vectors of 64 bits.
mod vectors;
// Rotations.
mod rotations;
// Transforms.
mod transform;
// Cases.
#[cfg(test)]
mod tests;
pub mod worked;

pub use transform::{Transform, compose};
