//! What a run has to print, before any of it is put, and what it leaves.
ghost use Rattle.std.specs.Prelude.{◌≡◌, ◌++◌, [], map, flat_map, None, Ok, Some, IfOk, IsErrOf};
ghost use Rattle.std.specs.Option.{option_to_list};
ghost use Rattle.dg_base.specs.Refusal.{Gives};
ghost use Rattle.dg_deeds.specs.declared.deed.Deed.TheVariants.{Put};
ghost use Rattle.dg_kinds_coll.specs.Defold.{defold_tables};
ghost use Rattle.dg_play.specs.Seen.{line_of};
ghost use Rattle.dg_sums.specs.Sums.{sum_lines};
ghost use Rattle.dg_tool.specs.Input.{Start};
ghost use Rattle.dg_tool.specs.Out.{bad_lines, fitting, line_deeds, out_of_play, usage_lines};
ghost use Rattle.dg_tool.specs.Seen.{ArePlain, Closes, deeds_of, plain, stats_line_of};
ghost use Rattle.dg_tool.specs.Statement.{IsOutput};

use crate::due::Output;
use crate::halt::Halt;
use crate::lines::printed;
use crate::piece::{Piece, Pieces};
use crate::start::{Frame, Size, Telling};
use crate::status::Status;
use crate::text::{self, stats_line};
use dg_base::{Names, Refusal};
use dg_files::Bytes;
use dg_play::{Ending, WorkDone};
use dg_sources::BadPlace;
use dg_sums::sum_lines;
use std::alloc::{AllocError, Global};

/// The output of what plays nothing.
pub(crate) fn told<D: Drop>(alloc: Global, pieces: Pieces) -> Output<D>
    ensures status { result.status ≡ Status.Done }
    ensures pieces { result.pieces ≡ pieces }
    ensures names { result.names ≡ [] }
    ensures desk { result.desk ≡ None }
{
    Output {
        status: Status::Done,
        pieces,
        names: Names::new(alloc),
        desk: None,
    }
}

/// The output of words that say no task.
pub(crate) fn misused<D: Drop>(alloc: Global) -> Result<Output<D>, AllocError>
    ensures status { IfOk result (λ o. o.status ≡ Status.Usage) }
    ensures pieces { IfOk result (λ o. o.pieces.items ≡ map plain usage_lines) }
    ensures desk { IfOk result (λ o. o.desk ≡ None) }
{
    let mut pieces = Vec::new(alloc);
    pieces.push(Piece::plain(text::error(alloc, b"usage")?))?;
    Ok(Output {
        status: Status::Usage,
        pieces,
        names: Names::new(alloc),
        desk: None,
    })
}

/// The output of a play that has ended.
pub(crate) fn finished<D: Drop>(
    alloc: Global,
    frame: Frame,
    ending: Ending<D>,
) -> Result<Output<D>, Refusal<Halt>>
    ensures told { (s : Start) → Closes defold_tables s frame ending → IsOutput defold_tables result (out_of_play defold_tables frame.telling (Ok s)) }
    ensures status { IfOk result (λ o. o.status ≡ Status.Done) }
    ensures desk { IfOk result (λ o. o.desk ≡ Some ending.desk) }
    ensures plain { frame.telling ≡ Telling.Sums → IfOk result (λ o. ArePlain o.pieces.items) }
    ensures no_fault { ¬ IsErrOf result (Refusal.Because Halt.FileFault) }
{
    match frame.telling {
        Telling::Lines { stats } => lined(alloc, frame.bad.as_slice(), stats, ending),
        Telling::Sums => match summed(alloc, &frame, ending) {
            Ok(output) => Ok(output),
            Err(_) => Err(Refusal::NoMemory),
        },
    }
}

// The lines of the play, those of the bad places before them.
fn lined<D: Drop>(
    alloc: Global,
    bad: &[BadPlace],
    stats: bool,
    ending: Ending<D>,
) -> Result<Output<D>, Refusal<Halt>>
    ensures told { Gives (deeds_of defold_tables) result
        (fitting (map Put (bad_lines bad.now) ++ (flat_map (λ l. line_deeds defold_tables ending.names (line_of l)) ending.lines.items ++ map Put (stats_line_of stats ending.work)))) }
    ensures status { IfOk result (λ o. o.status ≡ Status.Done) }
    ensures desk { IfOk result (λ o. o.desk ≡ Some ending.desk) }
    ensures no_fault { ¬ IsErrOf result (Refusal.Because Halt.FileFault) }
{
    let last = last_line(alloc, stats, ending.work)?;
    let pieces = printed(alloc, bad, ending.lines, &ending.names, last)?;
    Ok(Output {
        status: Status::Done,
        pieces,
        names: ending.names,
        desk: Some(ending.desk),
    })
}

// What the play came to, in four lines.
fn summed<D: Drop>(alloc: Global, frame: &Frame, ending: Ending<D>) -> Result<Output<D>, AllocError>
    ensures status { IfOk result (λ o. o.status ≡ Status.Done) }
    ensures pieces { IfOk result (λ o. o.pieces.items ≡ map plain
        (sum_lines defold_tables frame.now.size.files frame.now.size.nodes frame.now.size.arcs frame.now.commands (map line_of ending.lines.items) ending.names)) }
    ensures desk { IfOk result (λ o. o.desk ≡ Some ending.desk) }
{
    let Size { files, nodes, arcs } = frame.size;
    let commands = frame.commands.as_slice();
    let lines = sum_lines(
        alloc,
        files,
        nodes,
        arcs,
        commands,
        ending.lines.as_slice(),
        &ending.names,
    )?;
    let pieces = plain_pieces(alloc, lines.as_slice())?;
    Ok(Output {
        status: Status::Done,
        pieces,
        names: ending.names,
        desk: Some(ending.desk),
    })
}

// The line on the work that was done, where it is asked for.
fn last_line(alloc: Global, stats: bool, work: WorkDone) -> Result<Option<Bytes>, AllocError>
    ensures { IfOk result (λ l. option_to_list l ≡ stats_line_of stats work) }
{
    if stats {
        Ok(Some(stats_line(alloc, work)?))
    } else {
        Ok(None)
    }
}

// Lines before which nothing is written.
fn plain_pieces(alloc: Global, lines: &[Bytes]) -> Result<Pieces, AllocError>
    ensures { IfOk result (λ ps. ps.items ≡ map plain lines.now) }
{
    let mut pieces = Vec::new(alloc);
    for line in lines {
        pieces.push(Piece::plain(Bytes::from_slice(alloc, line.as_slice())?))?;
    }
    Ok(pieces)
}
