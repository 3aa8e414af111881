//! Limits that several layers name.

/// The most revisions of a run, the first one included.
pub const REVISIONS: usize = 16_384;
