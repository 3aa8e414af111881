//! All that a run does, in order.
ghost use Rattle.std.specs.Prelude.{◌≡◌, ◌≤◌, ◌++◌, map, IfErr, IfOk, IsErrOf, OnOk};
ghost use Rattle.std.specs.Option.{option_map};
ghost use Rattle.dg_deeds.specs.Deeds.{AreLines, IsBegun, text_after, tree_after};
ghost use Rattle.dg_files.specs.Outcome.{Rose, StaysSound};
ghost use Rattle.dg_kinds_coll.specs.Defold.{defold_tables};
ghost use Rattle.dg_tool.specs.Out.{build_folder, built_deeds, write_of};
ghost use Rattle.dg_tool.specs.Seen.{deeds_in, piece_deeds};

use crate::piece::{Piece, Pieces};
use dg_base::{Answer, Names, Str};
use dg_build::{Target, targets};
use dg_deeds::{Deed, Stop, do_all};
use dg_files::{Bytes, Files, Sink};
use std::alloc::{AllocError, Global};

/// The folder below which all build files stand.
const BUILD_FOLDER: &str = "/build/default";

/// Writes the files of each piece and then puts its line, one after the other. It stops at the first call that isn't
/// done.
pub(crate) fn do_pieces<F: Files, S: Sink>(
    alloc: Global,
    files: &mut F,
    out: &mut S,
    pieces: Pieces,
    names: &Names,
) -> Result<(), Stop>
    ensures tree { OnOk result (F.tree files.new ≡ option_map (tree_after (deeds_in defold_tables names.now pieces.items)) (F.tree files.old)) }
    ensures text { OnOk result (S.bytes out.new ≡ option_map (text_after (deeds_in defold_tables names.now pieces.items)) (S.bytes out.old)) }
    ensures untouched { AreLines (deeds_in defold_tables names.now pieces.items) → files.new ≡ files.old }
    ensures begun { IfErr result (λ stop. IsBegun stop (deeds_in defold_tables names.now pieces.items) (F.tree files.old) (F.tree files.new) (S.bytes out.old) (S.bytes out.new)) }
    ensures files_never_fall { F.faults files.old ≤ F.faults files.new }
    ensures out_never_falls { S.faults out.old ≤ S.faults out.new }
    ensures file_cause { IsErrOf result Stop.FileFault → Rose (F.faults files.old) (F.faults files.new) }
    ensures sink_cause { IsErrOf result Stop.SinkFault → Rose (S.faults out.old) (S.faults out.new) }
    ensures files_sound { StaysSound F.is_sound F.faults files.old files.new }
    ensures out_sound { StaysSound S.is_sound S.faults out.old out.new }
{
    for piece in pieces {
        do_piece(alloc, files, out, piece, names)?;
    }
    Ok(())
}

// Writes the files of a piece and then puts its line.
fn do_piece<F: Files, S: Sink>(
    alloc: Global,
    files: &mut F,
    out: &mut S,
    piece: Piece,
    names: &Names,
) -> Result<(), Stop>
    ensures tree { OnOk result (F.tree files.new ≡ option_map (tree_after (piece_deeds defold_tables names.now piece)) (F.tree files.old)) }
    ensures text { OnOk result (S.bytes out.new ≡ option_map (text_after (piece_deeds defold_tables names.now piece)) (S.bytes out.old)) }
    ensures untouched { AreLines (piece_deeds defold_tables names.now piece) → files.new ≡ files.old }
    ensures begun { IfErr result (λ stop. IsBegun stop (piece_deeds defold_tables names.now piece) (F.tree files.old) (F.tree files.new) (S.bytes out.old) (S.bytes out.new)) }
    ensures files_never_fall { F.faults files.old ≤ F.faults files.new }
    ensures out_never_falls { S.faults out.old ≤ S.faults out.new }
    ensures file_cause { IsErrOf result Stop.FileFault → Rose (F.faults files.old) (F.faults files.new) }
    ensures sink_cause { IsErrOf result Stop.SinkFault → Rose (S.faults out.old) (S.faults out.new) }
    ensures files_sound { StaysSound F.is_sound F.faults files.old files.new }
    ensures out_sound { StaysSound S.is_sound S.faults out.old out.new }
{
    match deeds_of(alloc, piece, names) {
        Ok(deeds) => do_all(alloc, files, out, deeds.as_slice()),
        Err(_) => Err(Stop::NoMemory),
    }
}

fn deeds_of(alloc: Global, piece: Piece, names: &Names) -> Result<Vec<Deed>, AllocError>
    ensures { IfOk result (λ deeds. deeds.items ≡ piece_deeds defold_tables names.now piece) }
{
    let mut deeds = Vec::new(alloc);
    let Piece { built, line } = piece;
    if let Some(answered) = built {
        put_writes(alloc, &mut deeds, answered.value().answer(), names)?;
    }
    deeds.push(Deed::Put(line))?;
    Ok(deeds)
}

fn put_writes(
    alloc: Global,
    deeds: &mut Vec<Deed>,
    built: &Answer,
    names: &Names,
) -> Result<(), AllocError>
    ensures { OnOk result (deeds.new.items ≡ deeds.old.items ++ built_deeds built.now names.now) }
{
    match built {
        Answer::Good(value) => put_targets(alloc, deeds, targets(alloc, value, names)?.as_slice()),
        Answer::Bad(_) | Answer::Cycle => Ok(()),
    }
}

fn put_targets(alloc: Global, deeds: &mut Vec<Deed>, targets: &[Target]) -> Result<(), AllocError>
    ensures { OnOk result (deeds.new.items ≡ deeds.old.items ++ map write_of targets.now) }
{
    for target in targets {
        deeds.push(write_of(alloc, target)?)?;
    }
    Ok(())
}

fn write_of(alloc: Global, target: &Target) -> Result<Deed, AllocError>
    ensures { IfOk result (λ deed. deed ≡ write_of target.now) }
{
    let mut path = String::from_str(alloc, BUILD_FOLDER)?;
    path.push_str(target.path.as_str())?;
    Ok(Deed::Write {
        path: Str::of(path),
        bytes: Bytes::from_slice(alloc, target.bytes.as_slice())?,
    })
}
