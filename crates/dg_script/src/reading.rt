//! Reading a script, line by line.
ghost use Rattle.std.specs.Prelude.{◌≡◌, Option, Some, None};
ghost use Rattle.std.specs.Prelude.{List, map};
ghost use Rattle.dg_base.specs.Refusal.{Gives};
ghost use Rattle.dg_script.specs.Script.{rest_of, commands_of, script_in};

use crate::command::{BadLine, Script};
use crate::lines::lines_of;
use crate::reader::Reader;
use dg_base::Refusal;
use std::alloc::Global;

/// The commands of a script, in time linear in its bytes.
///
/// A line ends at a line feed, and one carriage return at its end is dropped. A line that is blank,
/// or begins with `#` behind its blanks, is no command. Any other line is words, separated by spaces
/// and tabs; a word in quotes may hold them. A block, from `begin` to `end`, is one command.
///
/// A script with a line that is none of this is refused with the first such line and the first code
/// that fits it.
pub fn read_script(alloc: Global, bytes: &[u8]) -> Result<Script, Refusal<BadLine>>
    ensures { Gives (λ x. x) result (script_in bytes.now) }
{
    let lines = lines_of(alloc, bytes)?;
    read_lines(alloc, lines.as_slice())
}

fn read_lines(alloc: Global, lines: &[&[u8]]) -> Result<Script, Refusal<BadLine>>
    ensures { Gives (λ x. x) result (commands_of (rest_of (map (λ l. l.now) lines.now) 1 None)) }
{
    let mut reader = Reader::new(alloc);
    let mut number = 1u32;
    for line in lines {
        match reader.read(alloc, number, line) {
            Ok(()) => {}
            Err(refusal) => return Err(refusal),
        }
        number = number.saturating_add(1);
    }
    reader.finish()
}
