//! Printed text: what is shown of an answer, part by part.
//!
//! [`answer_text`] makes a text, and [`put_answer`] puts it behind what is there. What other texts have too is
//! public beside them: a label's name, a decimal, the word of a property's type. In reading order: `parts`
//! prints numbers, labels, endpoints and vectors, `values` prints values, and `answers` prints answers.
//! `specs/` says what is printed: `Parts` and `Text`; `Worked` has answers of which the checker computes the
//! text.
#![tactic(auto)]

mod answers;
mod parts;
#[cfg(test)]
mod tests;
mod values;
pub mod worked;

pub use answers::{answer_text, put_answer};
pub use parts::{name_of, put_number, type_word};
