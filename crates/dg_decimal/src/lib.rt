//! Decimal numbers: texts, and whole numbers of billionths in an `i64`, between which nothing is lost but what lies
//! below half a billionth. The layer above reads texts by [`read`], prints values by [`print`] into a
//! [`DecimalText`], and reckons by [`add`] and [`mul`]; every answer is the exact one, rounded once, or says that it
//! is out of range. Nothing here takes memory.
#![tactic(auto)]

mod arithmetic;
mod laws;
mod magnitude;
mod parts;
mod printing;
mod reading;
mod refusal;
#[cfg(test)]
mod tests;

pub use arithmetic::{add, mul};
pub use laws::{reads_back, rounds_to_nearest, worked_cases};
pub use printing::{DecimalText, print};
pub use reading::read;
pub use refusal::{DecimalRefusal, Range};
