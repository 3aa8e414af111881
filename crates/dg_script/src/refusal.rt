//! The line that isn't read.
ghost use Rattle.std.specs.Prelude.{◌≡◌};
ghost use Rattle.dg_script.specs.Reader.{at_line};

use crate::command::{BadLine, ScriptCode};
use dg_base::Refusal;

/// The refusal of the script with this line.
pub(crate) fn at_line(line: u32, refusal: Refusal<ScriptCode>) -> Refusal<BadLine>
    ensures { result ≡ at_line line refusal }
{
    match refusal {
        Refusal::Because(code) => Refusal::Because(BadLine { line, code }),
        Refusal::NoMemory => Refusal::NoMemory,
    }
}
