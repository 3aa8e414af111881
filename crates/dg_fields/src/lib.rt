//! A node's own values, a list in label order: the value at a label, and how one is put there, taken
//! away or copied. Want of memory is std's `AllocError`.
#![tactic(auto)]

mod fields;

pub use fields::{clear, copied, put, value_in};
