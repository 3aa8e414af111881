//! Work in threads, beside one's own.
#![tactic(auto)]

mod running;
#[cfg(test)]
mod tests;

pub use running::{Ran, Worker, beside};
