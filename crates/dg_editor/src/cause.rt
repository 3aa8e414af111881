//! Why an editor refuses a call.
use dg_base::RefusedStep;

/// Why an edit, an undo or a redo isn't done.
#[derive(Clone, Copy, PartialEq, Eq, Debug)]
pub enum EditCause {
    /// There are no steps.
    Empty,
    /// There are as many revisions as a run may have.
    LineFull,
    NothingToUndo,
    NothingToRedo,
    /// A step can't be done.
    Refused(RefusedStep),
}
