//! The last pass: the lines that are printed.
ghost use Rattle.std.specs.Prelude.{◌≡◌, ◌++◌, map, flat_map, length, IfOk, OnOk};
ghost use Rattle.std.specs.Option.{option_map, option_to_list};
ghost use Rattle.dg_kinds_coll.specs.Defold.{defold_tables};
ghost use Rattle.dg_base.specs.Refusal.{Gives};
ghost use Rattle.dg_play.specs.Seen.{graph_by, line_of, reply_of};
ghost use Rattle.dg_deeds.specs.declared.deed.Deed.TheVariants.{Put};
ghost use Rattle.dg_tool.specs.Out.{bad_lines, built_text, checked_lines, fitting, line_deeds, line_text, reply_text, size_line, unless_large};
ghost use Rattle.dg_tool.specs.Seen.{all_plain, built_by, deeds_in, fitting_pieces, line_piece, plain, seen_project};

use crate::halt::Halt;
use crate::page::Page;
use crate::piece::{Piece, Pieces};
use crate::project::Project;
use crate::text;
use dg_asks::Answered;
use dg_base::{Answer, Names, Refusal};
use dg_build::targets;
use dg_files::Bytes;
use dg_play::{Line, Opener, Reply};
use dg_report::put_answer;
use dg_sources::BadPlace;
use itoa::Buffer;
use std::alloc::{AllocError, Global};

/// The lines of a script that was played: those of its project's bad places, those of its commands, and a last one.
/// Refused where together they have more bytes than are printed; no line is made behind that with which they do.
pub(crate) fn printed(
    alloc: Global,
    bad: &[BadPlace],
    lines: Vec<Line<Answered>>,
    names: &Names,
    last: Option<Bytes>,
) -> Result<Pieces, Refusal<Halt>>
    ensures { Gives (λ ps. deeds_in defold_tables names.now ps.items) result
        (fitting (map Put (bad_lines bad.now) ++ (flat_map (λ l. line_deeds defold_tables names.now (line_of l)) lines.items ++ map Put (option_to_list last)))) }
{
    pieces_of(alloc, bad, lines, names, last)
}

fn pieces_of(
    alloc: Global,
    bad: &[BadPlace],
    lines: Vec<Line<Answered>>,
    names: &Names,
    last: Option<Bytes>,
) -> Result<Pieces, Refusal<Halt>>
    ensures { Gives (λ ps. ps.items) result
        (fitting_pieces ((map plain (bad_lines bad.now) ++ map (line_piece defold_tables names.now) lines.items) ++ option_to_list (option_map plain last))) }
{
    let mut page = Page::new(alloc);
    put_bad(alloc, &mut page, bad)?;
    put_played(alloc, &mut page, lines, names)?;
    page.put_some(last)?;
    Ok(page.into_pieces())
}

/// The lines of a project that is checked: those of its bad places, and one on what it has.
pub(crate) fn checked<O: Opener>(
    alloc: Global,
    project: &Project<O::Game>,
) -> Result<Pieces, Refusal<Halt>>
    ensures { Gives (λ ps. ps.items) result (all_plain (unless_large (checked_lines (seen_project O.editor project.now)) (checked_lines (seen_project O.editor project.now)))) }
{
    let size = size_line::<O>(alloc, project)?;
    let none = Vec::new(alloc);
    pieces_of(
        alloc,
        project.bad.as_slice(),
        none,
        &project.begin.names,
        Some(size),
    )
}

// The line on what a project has.
fn size_line<O: Opener>(alloc: Global, project: &Project<O::Game>) -> Result<Bytes, AllocError>
    ensures { IfOk result (λ l. l ≡ size_line (graph_by O.editor project.now.begin.game) (length project.now.bad)) }
{
    let graph = O::graph(&project.begin.game);
    text::size_line(
        alloc,
        graph.node_count(),
        graph.arc_count(),
        project.bad.as_slice().len(),
    )
}

fn put_bad(alloc: Global, page: &mut Page, bad: &[BadPlace]) -> Result<(), Refusal<Halt>>
    ensures { Gives (λ _. page.new) result (fitting_pieces (page.old ++ map plain (bad_lines bad.now))) }
{
    for place in bad {
        page.put(Piece::plain(text::bad_place(alloc, place)?))?;
    }
    page.is_fitting();
    Ok(())
}

fn put_played(
    alloc: Global,
    page: &mut Page,
    lines: Vec<Line<Answered>>,
    names: &Names,
) -> Result<(), Refusal<Halt>>
    ensures { Gives (λ _. page.new) result (fitting_pieces (page.old ++ map (line_piece defold_tables names.now) lines.items)) }
{
    for line in lines {
        page.put(piece_of(alloc, line, names)?)?;
    }
    page.is_fitting();
    Ok(())
}

// A line, with the answer that its command builds.
fn piece_of(alloc: Global, line: Line<Answered>, names: &Names) -> Result<Piece, AllocError>
    ensures { IfOk result (λ p. p ≡ line_piece defold_tables names.now line) }
{
    let text = line_text(alloc, &line, names)?;
    let Line { reply, .. } = line;
    Ok(Piece {
        built: built_by(reply),
        line: text,
    })
}

fn built_by(reply: Reply<Answered>) -> Option<Answered>
    ensures { result ≡ built_by (reply_of reply) }
{
    match reply {
        Reply::Builds(answered) => Some(answered),
        _ => None,
    }
}

/// A line: the number of the script's line, a colon, a blank, the text of its reply and a line feed.
fn line_text(alloc: Global, line: &Line<Answered>, names: &Names) -> Result<Bytes, AllocError>
    ensures { IfOk result (λ b. b ≡ line_text defold_tables names.now (line_of line.now)) }
{
    let mut out = Vec::from_slice(alloc, Buffer::new().format(line.number).as_bytes())?;
    out.extend_from_slice(b": ")?;
    put_reply(alloc, &mut out, &line.reply, names)?;
    out.extend_from_slice(b"\n")?;
    Ok(Bytes::from_vec(out))
}

fn put_reply(
    alloc: Global,
    out: &mut Vec<u8>,
    reply: &Reply<Answered>,
    names: &Names,
) -> Result<(), AllocError>
    ensures { OnOk result (out.new.items ≡ out.old.items ++ reply_text defold_tables names.now (reply_of reply.now)) }
{
    match reply {
        Reply::Done => out.extend_from_slice(b"ok"),
        Reply::Empty => out.extend_from_slice(b"Empty"),
        Reply::LineFull => out.extend_from_slice(b"LineFull"),
        Reply::NothingToUndo => out.extend_from_slice(b"NothingToUndo"),
        Reply::NothingToRedo => out.extend_from_slice(b"NothingToRedo"),
        Reply::NoName => out.extend_from_slice(b"NoName"),
        Reply::NoLabel => out.extend_from_slice(b"NoLabel"),
        Reply::Misses { step, missing } => {
            text::put_refused(out, *step, text::missing_text(*missing))
        }
        Reply::Refused { step, code } => text::put_refused(out, *step, text::code_text(*code)),
        Reply::PinUsed => out.extend_from_slice(b"PinUsed"),
        Reply::PinsFull => out.extend_from_slice(b"PinsFull"),
        Reply::PinnedAt { number } => text::put_pinned(out, *number),
        Reply::NoPin => out.extend_from_slice(b"NoPin"),
        Reply::Answers(answered) => put_answer(out, answered.value().answer(), names),
        Reply::Builds(answered) => put_built(alloc, out, answered.value().answer(), names),
    }
}

// How many files a good value is built as, else the answer.
fn put_built(
    alloc: Global,
    out: &mut Vec<u8>,
    answer: &Answer,
    names: &Names,
) -> Result<(), AllocError>
    ensures { OnOk result (out.new.items ≡ out.old.items ++ built_text answer.now names.now) }
{
    match answer {
        Answer::Good(value) => text::put_built(out, targets(alloc, value, names)?.len()),
        Answer::Bad(_) | Answer::Cycle => put_answer(out, answer, names),
    }
}
