//! The script that a run reads.
ghost use Rattle.std.specs.Prelude.{◌≡◌, ◌≤◌, IfOk, IfSome, IsErrOf};
ghost use Rattle.dg_base.specs.Refusal.{Gives};
ghost use Rattle.dg_files.specs.Outcome.{Rose, StaysSound};
ghost use Rattle.dg_tool.specs.Input.{Tells, build_script, bytes_of, commands_in, script_of};

use crate::halt::{Halt, Limit};
use crate::size::{MAX_LINES, MAX_SCRIPT, line_count};
use dg_base::Refusal;
use dg_files::{Bytes, Files, Got};
use dg_script::{Script, read_script};
use dg_text::put_quoted;
use std::alloc::Global;

/// The bytes of a file, of which there are at most 1 MiB. The files are read and nothing else.
pub(crate) fn bytes_of<F: Files>(
    alloc: Global,
    files: &mut F,
    path: &str,
    limit: Limit,
) -> Result<Bytes, Refusal<Halt>>
    ensures told { IfSome (F.tree files.old) (λ t. Tells (λ b. b) result (bytes_of t limit path.now)) }
    ensures tree { F.tree files.new ≡ F.tree files.old }
    ensures never_falls { F.faults files.old ≤ F.faults files.new }
    ensures cause { IsErrOf result (Refusal.Because Halt.FileFault) → Rose (F.faults files.old) (F.faults files.new) }
    ensures sound { StaysSound F.is_sound F.faults files.old files.new }
{
    match files.read(alloc, path, MAX_SCRIPT) {
        Ok(Got::Whole(bytes)) => Ok(bytes),
        Ok(Got::Absent) => Err(Refusal::Because(Halt::NoInput)),
        Ok(Got::Longer) => Err(Refusal::Because(Halt::TooLarge(limit))),
        Err(Refusal::Because(_)) => Err(Refusal::Because(Halt::FileFault)),
        Err(Refusal::NoMemory) => Err(Refusal::NoMemory),
    }
}

/// The commands of the script at a path. The files are read and nothing else.
pub(crate) fn script_of<F: Files>(
    alloc: Global,
    files: &mut F,
    path: &str,
) -> Result<Script, Refusal<Halt>>
    ensures told { IfSome (F.tree files.old) (λ t. Tells (λ commands. commands) result (script_of t path.now)) }
    ensures tree { F.tree files.new ≡ F.tree files.old }
    ensures never_falls { F.faults files.old ≤ F.faults files.new }
    ensures cause { IsErrOf result (Refusal.Because Halt.FileFault) → Rose (F.faults files.old) (F.faults files.new) }
    ensures sound { StaysSound F.is_sound F.faults files.old files.new }
{
    let bytes = bytes_of(alloc, files, path, Limit::Script)?;
    commands_in(alloc, bytes.as_slice())
}

/// The commands of a script by its bytes, of which there are at most 1 MiB.
pub(crate) fn commands_in(alloc: Global, bytes: &[u8]) -> Result<Script, Refusal<Halt>>
    ensures { Gives (λ commands. commands) result (commands_in bytes.now) }
{
    if line_count(bytes) > MAX_LINES {
        return Err(Refusal::Because(Halt::TooLarge(Limit::Lines)));
    }
    match read_script(alloc, bytes) {
        Ok(commands) => Ok(commands),
        Err(Refusal::Because(bad)) => Err(Refusal::Because(Halt::BadLine {
            line: bad.line,
            code: bad.code,
        })),
        Err(Refusal::NoMemory) => Err(Refusal::NoMemory),
    }
}

/// For how many entries the cache of a build has room.
pub(crate) const BUILD_CACHE: u32 = 4096;

/// The commands of a build: those of a script of one line.
pub(crate) fn build_commands(alloc: Global, path: &str) -> Result<Script, Refusal<Halt>>
    ensures { Gives (λ commands. commands) result (commands_in (build_script path.now)) }
{
    let mut script = Vec::from_slice(alloc, b"build ")?;
    put_quoted(&mut script, path)?;
    commands_in(alloc, script.as_slice())
}
