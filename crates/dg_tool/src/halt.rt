//! What ends a run before a line of its script is put.
ghost use Rattle.std.specs.Prelude.{◌≡◌, IfOk};
ghost use Rattle.dg_tool.specs.Halts.{status_of, halt_lines};

use crate::status::Status;
use crate::text::{self, Lines};
use dg_script::ScriptCode;
use dg_sources::BadCode;
use std::alloc::{AllocError, Global};

/// What is too large.
#[derive(Clone, Copy, PartialEq, Eq, Debug)]
pub enum Limit {
    /// The bytes of a script.
    Script,
    /// Its lines.
    Lines,
    /// The paths that are listed, or the files of a project that are read.
    Files,
    /// The bytes of a file.
    File,
    /// The bytes of all files of a project.
    Total,
    /// The nodes of a project.
    Nodes,
    /// The arcs of a project.
    Arcs,
    /// The bytes of all lines that are printed.
    Text,
}

/// Why a run ends before a line of its script is put, beside want of memory.
#[derive(Clone, Copy, PartialEq, Eq, Debug)]
pub enum Halt {
    NoInput,
    BadLine { line: u32, code: ScriptCode },
    /// The file can't be read: the line of the first place that can't go on, and why.
    BadFile { line: u32, code: BadCode },
    TooLarge(Limit),
    FileFault,
}

impl Halt {
    pub(crate) fn status(self) -> Status
        ensures { result ≡ status_of self }
    {
        match self {
            Halt::NoInput => Status::NoInput,
            Halt::BadLine { .. } => Status::Syntax,
            Halt::BadFile { .. } => Status::Syntax,
            Halt::TooLarge(_) => Status::TooLarge,
            Halt::FileFault => Status::FileFault,
        }
    }

    /// The one line that is printed; none where a call of the files failed.
    pub(crate) fn lines(self, alloc: Global) -> Result<Lines, AllocError>
        ensures { IfOk result (λ l. l ≡ halt_lines self) }
    {
        let mut lines = Lines::new(alloc);
        match self {
            Halt::NoInput => lines.push(text::error(alloc, b"no input")?)?,
            Halt::BadLine { line, code } => lines.push(text::bad_line(alloc, line, code)?)?,
            Halt::BadFile { line, code } => lines.push(text::bad_file(alloc, line, code)?)?,
            Halt::TooLarge(limit) => lines.push(text::too_large(alloc, limit)?)?,
            Halt::FileFault => {}
        }
        Ok(lines)
    }
}
