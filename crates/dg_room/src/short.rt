//! A close with too few passes.

/// Fewer passes were given than a room has. It and the passes come back.
#[derive(Drop)]
pub struct Short<R, P> {
    pub room: R,
    pub passes: Vec<P>,
    /// How many were given.
    pub had: u32,
    /// How many there are.
    pub wanted: u32,
}
