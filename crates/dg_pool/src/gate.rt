//! Who looks on while jobs are done.

/// It is told of each job by whoever does it. It may make its caller wait, and nothing else follows from it.
pub trait Gate {
    /// Before the job with this number is done.
    fn begin(&self, ask: u32);

    /// After it.
    fn done(&self, ask: u32);
}

/// The gate that does nothing.
#[derive(Clone, Copy, Debug, PartialEq, Eq)]
pub struct OpenGate;

impl Gate for OpenGate {
    fn begin(&self, _ask: u32) {}

    fn done(&self, _ask: u32) {}
}
