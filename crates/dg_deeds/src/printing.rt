//! Lines and bytes that go to a sink.
ghost use Rattle.std.specs.Prelude.{◌≡◌, ◌≤◌, OnOk, OnErr};
ghost use Rattle.dg_files.specs.Outcome.{HasCause, StaysSound};
ghost use Rattle.dg_deeds.specs.Printed.{GotAll, GotPrefix, text_of};

use dg_base::Refusal;
use dg_files::{Bytes, Failed, Sink};

/// Puts each line, one after another. After a refusal the sink has got a first part of them.
pub fn put_lines<S: Sink>(out: &mut S, lines: &[Bytes]) -> Result<(), Refusal<Failed>>
    ensures ok { OnOk result (GotAll (S.bytes out.old) (S.bytes out.new) (text_of lines.now)) }
    ensures err { OnErr result (GotPrefix (S.bytes out.old) (S.bytes out.new) (text_of lines.now)) }
    ensures cause { HasCause (S.faults out.old) (S.faults out.new) result }
    ensures sound { StaysSound S.is_sound S.faults out.old out.new }
{
    for line in lines {
        put_all(out, line.as_slice())?;
    }
    Ok(())
}

/// Puts a piece, and what a put left again. After a refusal the sink has got a first part of it.
pub fn put_all<S: Sink>(out: &mut S, piece: &[u8]) -> Result<(), Refusal<Failed>>
    ensures ok { OnOk result (GotAll (S.bytes out.old) (S.bytes out.new) piece.now) }
    ensures err { OnErr result (GotPrefix (S.bytes out.old) (S.bytes out.new) piece.now) }
    ensures cause { HasCause (S.faults out.old) (S.faults out.new) result }
    ensures sound { StaysSound S.is_sound S.faults out.old out.new }
{
    let mut at = 0;
    while at < piece.len() {
        at += out.put(&piece[at..])?;
    }
    Ok(())
}
