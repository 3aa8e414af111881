//! Deeds are done, in order.
ghost use Rattle.std.specs.Prelude.{◌≡◌, ◌≤◌, OnOk, IfErr, IsErrOf};
ghost use Rattle.std.specs.Option.{option_map};
ghost use Rattle.dg_files.specs.Outcome.{Rose, StaysSound};
ghost use Rattle.dg_deeds.specs.Deeds.{AreLines, IsBegun, IsLine, IsPartOf, text_after, text_with, tree_after, tree_with};

use crate::deed::{Deed, Stop};
use crate::printing::put_all;
use dg_base::Refusal;
use dg_files::{Files, Sink};
use std::alloc::Global;

/// Does the deeds, one after another, and stops at the first one that isn't done to its end. Nothing behind that one is
/// begun, and nothing is tried again. Lines alone leave the files, without a call of them. A fault of the files stops at a write, and one of the sink at a line; want of memory
/// stops at either, at a write before any of it is done.
///
/// A fault is told only where that count of failures rose, or stands at its greatest, 2^64 - 1, where a failure can't
/// be told from none. In time linear in the bytes, beside what the files and the sink take for their calls.
pub fn do_all<F: Files, S: Sink>(
    alloc: Global,
    files: &mut F,
    out: &mut S,
    deeds: &[Deed],
) -> Result<(), Stop>
    ensures tree { OnOk result (F.tree files.new ≡ option_map (tree_after deeds.now) (F.tree files.old)) }
    ensures text { OnOk result (S.bytes out.new ≡ option_map (text_after deeds.now) (S.bytes out.old)) }
    ensures untouched { AreLines deeds.now → files.new ≡ files.old }
    ensures begun { IfErr result (λ stop. IsBegun stop deeds.now (F.tree files.old) (F.tree files.new) (S.bytes out.old) (S.bytes out.new)) }
    ensures files_never_fall { F.faults files.old ≤ F.faults files.new }
    ensures out_never_falls { S.faults out.old ≤ S.faults out.new }
    ensures file_cause { IsErrOf result Stop.FileFault → Rose (F.faults files.old) (F.faults files.new) }
    ensures sink_cause { IsErrOf result Stop.SinkFault → Rose (S.faults out.old) (S.faults out.new) }
    ensures files_sound { StaysSound F.is_sound F.faults files.old files.new }
    ensures out_sound { StaysSound S.is_sound S.faults out.old out.new }
{
    for deed in deeds {
        do_one(alloc, files, out, deed)?;
    }
    Ok(())
}

// Does one deed.
fn do_one<F: Files, S: Sink>(
    alloc: Global,
    files: &mut F,
    out: &mut S,
    deed: &Deed,
) -> Result<(), Stop>
    ensures tree { OnOk result (F.tree files.new ≡ option_map (tree_with deed.now) (F.tree files.old)) }
    ensures text { OnOk result (S.bytes out.new ≡ option_map (text_with deed.now) (S.bytes out.old)) }
    ensures untouched { IsLine deed.now → files.new ≡ files.old }
    ensures part { IfErr result (λ stop. IsPartOf stop deed.now (F.tree files.old) (F.tree files.new) (S.bytes out.old) (S.bytes out.new)) }
    ensures files_never_fall { F.faults files.old ≤ F.faults files.new }
    ensures out_never_falls { S.faults out.old ≤ S.faults out.new }
    ensures file_cause { IsErrOf result Stop.FileFault → Rose (F.faults files.old) (F.faults files.new) }
    ensures sink_cause { IsErrOf result Stop.SinkFault → Rose (S.faults out.old) (S.faults out.new) }
    ensures files_sound { StaysSound F.is_sound F.faults files.old files.new }
    ensures out_sound { StaysSound S.is_sound S.faults out.old out.new }
{
    match deed {
        Deed::Write { path, bytes } => {
            match files.write(alloc, path.as_str(), bytes.as_slice()) {
                Ok(()) => Ok(()),
                Err(Refusal::Because(_)) => Err(Stop::FileFault),
                Err(Refusal::NoMemory) => Err(Stop::NoMemory),
            }
        }
        Deed::Put(line) => match put_all(out, line.as_slice()) {
            Ok(()) => Ok(()),
            Err(Refusal::Because(_)) => Err(Stop::SinkFault),
            Err(Refusal::NoMemory) => Err(Stop::NoMemory),
        },
    }
}
