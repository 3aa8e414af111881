//! What holds of the walk of an evaluation: a law, as a public function with an empty body whose statement
//! stands in `specs/Laws.antt`, and the lemmas that the evaluator proves its contract with.
//!
//! A walk is a recursion along dependencies; an evaluator has a stack of open endpoints in its place. The
//! lemmas of `proofs/`, lowest first: `OpenEnds` (the endpoints that are open: each once, one a dependency
//! of the other, none of them listed), `Unwinding` (what a walk comes to from a stack on, and what each
//! round of a loop changes of that), `Growing` (what was listed stays the first part) and `Hits` (a walk
//! of which the hits alone are known).
#![tactic(auto)]

pub mod laws;
