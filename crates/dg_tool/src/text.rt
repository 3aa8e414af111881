//! The printed texts of refusals and lines. Each call puts its text behind what is there.
ghost use Rattle.std.specs.Prelude.{◌≡◌, [], ◌∷◌, ◌++◌, codes, IfOk, OnOk};
ghost use Rattle.dg_tool.specs.Halts.{error_line, limit_text};
ghost use Rattle.dg_tool.specs.Text.{missing_text, code_text, refused_text, pinned_text, bad_code_text, bad_file_text, bad_line_text, bad_place_text, built_files_text, place_code_text, size_text, stats_text};

use crate::halt::Limit;
use dg_base::TxCode;
use dg_bind::Missing;
use dg_files::Bytes;
use dg_play::WorkDone;
use dg_script::ScriptCode;
use dg_sources::{BadCode, BadPlace};
use itoa::Buffer;
use std::alloc::{AllocError, Global};

/// The lines that are printed, each with its line feed. Contracts see the list.
pub type Lines = sqlite_items::Items<Bytes>;

/// A transaction that is refused in a step, counted from 1.
pub(crate) fn put_refused(out: &mut Vec<u8>, step: u32, why: &str) -> Result<(), AllocError>
    ensures { OnOk result (out.new.items ≡ out.old.items ++ refused_text step why.now) }
{
    out.extend_from_slice(b"refused step ")?;
    out.extend_from_slice(Buffer::new().format(step).as_bytes())?;
    out.extend_from_slice(b" ")?;
    out.extend_from_slice(why.as_bytes())
}

/// A pin that is taken, by the number of its revision.
pub(crate) fn put_pinned(out: &mut Vec<u8>, number: u32) -> Result<(), AllocError>
    ensures { OnOk result (out.new.items ≡ out.old.items ++ pinned_text number) }
{
    out.extend_from_slice(b"pinned ")?;
    out.extend_from_slice(Buffer::new().format(number).as_bytes())
}

/// How many files were written.
pub(crate) fn put_built(out: &mut Vec<u8>, count: usize) -> Result<(), AllocError>
    ensures { OnOk result (out.new.items ≡ out.old.items ++ built_files_text count) }
{
    out.extend_from_slice(b"built ")?;
    out.extend_from_slice(Buffer::new().format(count).as_bytes())
}

/// The line on the work that was done: how many productions were made, how many entries of what was published were
/// kept, and how many came late.
pub(crate) fn stats_line(alloc: Global, work: WorkDone) -> Result<Bytes, AllocError>
    ensures { IfOk result (λ l. l ≡ stats_text work.made work.kept work.late ++ 10 ∷ []) }
{
    let mut line = Vec::from_slice(alloc, b"work ")?;
    line.extend_from_slice(Buffer::new().format(work.made).as_bytes())?;
    line.extend_from_slice(b" kept ")?;
    line.extend_from_slice(Buffer::new().format(work.kept).as_bytes())?;
    line.extend_from_slice(b" late ")?;
    line.extend_from_slice(Buffer::new().format(work.late).as_bytes())?;
    line.extend_from_slice(b"\n")?;
    Ok(Bytes::from_vec(line))
}

pub(crate) fn missing_text(missing: Missing) -> &'static str
    ensures { result.now ≡ missing_text missing }
{
    match missing {
        Missing::NoName => "NoName",
        Missing::NoLabel => "NoLabel",
    }
}

pub(crate) fn code_text(code: TxCode) -> &'static str
    ensures { result.now ≡ code_text code }
{
    match code {
        TxCode::TooManyNodes => "TooManyNodes",
        TxCode::TooManyArcs => "TooManyArcs",
        TxCode::NoNode => "NoNode",
        TxCode::NotProperty => "NotProperty",
        TxCode::ValueType => "ValueType",
        TxCode::NotOutput => "NotOutput",
        TxCode::NotInput => "NotInput",
        TxCode::ArcType => "ArcType",
        TxCode::NoArc => "NoArc",
    }
}

fn bad_code_text(code: ScriptCode) -> &'static str
    ensures { result.now ≡ bad_code_text code }
{
    match code {
        ScriptCode::Utf8 => "Utf8",
        ScriptCode::TooLong => "TooLong",
        ScriptCode::Value => "Value",
        ScriptCode::Word => "Word",
        ScriptCode::InBlock => "InBlock",
        ScriptCode::NoBlock => "NoBlock",
        ScriptCode::Arity => "Arity",
        ScriptCode::OpenBlock => "OpenBlock",
    }
}

/// The one line of an error.
pub(crate) fn error(alloc: Global, what: &[u8]) -> Result<Bytes, AllocError>
    ensures { IfOk result (λ l. l ≡ error_line what.now) }
{
    let mut line = Vec::from_slice(alloc, b"error: ")?;
    line.extend_from_slice(what)?;
    line.extend_from_slice(b"\n")?;
    Ok(Bytes::from_vec(line))
}

/// The error line of a bad line of the script.
pub(crate) fn bad_line(alloc: Global, line: u32, code: ScriptCode) -> Result<Bytes, AllocError>
    ensures { IfOk result (λ l. l ≡ error_line (bad_line_text line code)) }
{
    let mut what = Vec::from_slice(alloc, b"script line ")?;
    what.extend_from_slice(Buffer::new().format(line).as_bytes())?;
    what.extend_from_slice(b" ")?;
    what.extend_from_slice(bad_code_text(code).as_bytes())?;
    error(alloc, what.as_slice())
}

fn place_code_text(code: BadCode) -> &'static str
    ensures { result.now ≡ place_code_text code }
{
    match code {
        BadCode::Gone => "Gone",
        BadCode::Utf8 => "Utf8",
        BadCode::Token => "Token",
        BadCode::Nesting => "Nesting",
        BadCode::Unclosed => "Unclosed",
        BadCode::Missing => "Missing",
        BadCode::Form => "Form",
        BadCode::Absent => "Absent",
        BadCode::Data => "Data",
        BadCode::Recursive => "Recursive",
    }
}

/// The line of a bad place of a project.
pub(crate) fn bad_place(alloc: Global, place: &BadPlace) -> Result<Bytes, AllocError>
    ensures { IfOk result (λ l. l ≡ bad_place_text place.now ++ 10 ∷ []) }
{
    let mut line = Vec::from_slice(alloc, b"bad ")?;
    line.extend_from_slice(place.path.as_str().as_bytes())?;
    line.extend_from_slice(b" ")?;
    line.extend_from_slice(Buffer::new().format(place.line).as_bytes())?;
    line.extend_from_slice(b" ")?;
    line.extend_from_slice(place_code_text(place.code).as_bytes())?;
    line.extend_from_slice(b"\n")?;
    Ok(Bytes::from_vec(line))
}

/// The line on what a project has: its nodes, its arcs and its bad places.
pub(crate) fn size_line(
    alloc: Global,
    nodes: usize,
    arcs: usize,
    bad: usize,
) -> Result<Bytes, AllocError>
    ensures { IfOk result (λ l. l ≡ size_text nodes arcs bad ++ 10 ∷ []) }
{
    let mut line = Vec::from_slice(alloc, b"nodes ")?;
    line.extend_from_slice(Buffer::new().format(nodes).as_bytes())?;
    line.extend_from_slice(b" arcs ")?;
    line.extend_from_slice(Buffer::new().format(arcs).as_bytes())?;
    line.extend_from_slice(b" bad ")?;
    line.extend_from_slice(Buffer::new().format(bad).as_bytes())?;
    line.extend_from_slice(b"\n")?;
    Ok(Bytes::from_vec(line))
}

/// The error line of a file that can't be read.
pub(crate) fn bad_file(alloc: Global, line: u32, code: BadCode) -> Result<Bytes, AllocError>
    ensures { IfOk result (λ l. l ≡ error_line (bad_file_text line code)) }
{
    let mut what = Vec::from_slice(alloc, b"file line ")?;
    what.extend_from_slice(Buffer::new().format(line).as_bytes())?;
    what.extend_from_slice(b" ")?;
    what.extend_from_slice(place_code_text(code).as_bytes())?;
    error(alloc, what.as_slice())
}

/// The error line of what is too large.
pub(crate) fn too_large(alloc: Global, limit: Limit) -> Result<Bytes, AllocError>
    ensures { IfOk result (λ l. l ≡ error_line (codes "too large " ++ limit_text limit)) }
{
    let mut what = Vec::from_slice(alloc, b"too large ")?;
    what.extend_from_slice(limit_text(limit).as_bytes())?;
    error(alloc, what.as_slice())
}

fn limit_text(limit: Limit) -> &'static str
    ensures { result.now ≡ limit_text limit }
{
    match limit {
        Limit::Script => "script",
        Limit::Lines => "lines",
        Limit::Files => "files",
        Limit::File => "file",
        Limit::Total => "total",
        Limit::Nodes => "nodes",
        Limit::Arcs => "arcs",
        Limit::Text => "text",
    }
}
