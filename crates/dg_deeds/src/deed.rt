//! What a run does outside, and why it stops.

use dg_base::Str;
use dg_files::Bytes;

/// One thing that a run does outside.
#[derive(Debug, Drop)]
pub enum Deed {
    /// The file at the path gets the bytes, in place of what is there.
    Write { path: Str, bytes: Bytes },
    /// The sink gets the line, with its line feed, behind what it has.
    Put(Bytes),
}

/// Why not all was done.
#[derive(Clone, Copy, PartialEq, Eq, Debug)]
pub enum Stop {
    /// A call of the files failed, at the write of a file.
    FileFault,
    /// A call of the sink failed, at a line.
    SinkFault,
    /// Memory was wanted, at a deed or behind the last one.
    NoMemory,
}
