//! Why a call of the outside gave no answer.

/// That the outside failed. The object that was asked has counted it.
#[derive(Clone, Copy, Debug, PartialEq, Eq)]
pub struct Failed;
