//! How a run ends.
ghost use Rattle.std.specs.Prelude.{◌≡◌};
ghost use Rattle.dg_tool.specs.Halts.{code_of, cut_status};

use dg_deeds::Stop;

/// How a run ended.
#[derive(Clone, Copy, PartialEq, Eq, Debug)]
pub enum Status {
    /// Played to its end.
    Done,
    /// Other words than there are.
    Usage,
    /// No such script.
    NoInput,
    /// The script has a bad line, or the file that is formatted.
    Syntax,
    /// A call of the files failed.
    FileFault,
    /// A put of the sink failed.
    SinkFault,
    /// Memory was wanted.
    NoMemory,
    /// The script is too large, or what it prints is.
    TooLarge,
}

impl Status {
    /// That of a run that is cut off.
    pub(crate) fn cut(stop: Stop) -> Status
        ensures { result ≡ cut_status stop }
    {
        match stop {
            Stop::FileFault => Status::FileFault,
            Stop::SinkFault => Status::SinkFault,
            Stop::NoMemory => Status::NoMemory,
        }
    }

    /// The number that a program ends with.
    pub fn code(self) -> u8
        ensures { result ≡ code_of self }
    {
        match self {
            Status::Done => 0,
            Status::Usage => 1,
            Status::NoInput => 2,
            Status::Syntax => 3,
            Status::FileFault => 4,
            Status::SinkFault => 5,
            Status::NoMemory => 6,
            Status::TooLarge => 7,
        }
    }
}
