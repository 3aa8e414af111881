//! Why a job isn't put.
use std::fmt::Debug;
use thiserror::Error;

/// Why a job isn't put, with the job.
#[derive(Debug, Drop, Error)]
#[error_bound(J: Debug)]
pub enum PutRefusal<J> {
    /// The pool is closed.
    #[error("the pool is closed")]
    Closed(J),
    /// There is no room for one more, and memory for it was refused.
    #[error("no memory for a job")]
    NoMemory(J),
}
