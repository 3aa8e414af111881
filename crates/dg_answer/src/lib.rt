//! The answer of a rule from the answers of the endpoints that it names. Nothing here reads a graph, so
//! every evaluator stands on it: [`named_by`] gives the rule's dependencies, and [`answer_from`] takes
//! their answers in that order, and says what the definition gives for any function that has these
//! answers, and how many productions it took.
//!
//! In reading order: `named` the dependencies of a rule, `faults` those that are handed on, the first of
//! equal ones and at most 64, `answering` the answer. Want of memory is std's `AllocError`.
#![tactic(auto)]

mod answering;
mod faults;
mod named;

pub use answering::{
    MAX_WEIGHT, answer_from, answer_of, arg_value, arg_values, is_bad, is_cycle, one_fault,
    produced,
};
pub use faults::faults_of_args;
pub use named::named_by;
