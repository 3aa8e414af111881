//! What a play ends with.
use crate::Line;
use dg_asks::Answered;
use dg_base::Names;

/// How many productions were made, how many entries of what was published were kept, and how many came late.
#[derive(Clone, Copy, Debug, PartialEq, Eq)]
pub struct WorkDone {
    pub made: u64,
    pub kept: u64,
    pub late: u64,
}

/// What the commands print, in order, with all answers, the interned names, the desk, and the work that was done.
#[derive(Drop)]
pub struct Ending<D> {
    pub lines: Vec<Line<Answered>>,
    pub names: Names,
    pub desk: D,
    pub work: WorkDone,
}
