//! The lines of the summary.
ghost use Rattle.std.specs.Prelude.{◌≡◌, ◌++◌, map, IfOk, OnOk};
ghost use Rattle.std.specs.Fmt.{decimal};
ghost use Rattle.dg_kinds_coll.specs.Defold.{defold_tables};
ghost use Rattle.dg_play.specs.Seen.{line_of};
ghost use Rattle.dg_sums.specs.Builds.{values_built};
ghost use Rattle.dg_sums.specs.Sums.{answers_line, built_line, edits_line, files_line, sum_lines};

use crate::builds::{files_written, sum_built, values_built};
use crate::counts::{Deed, Outcome, answers_in, asks_in, deeds_in};
use dg_asks::Answered;
use dg_base::Names;
use dg_files::Bytes;
use dg_play::Line;
use dg_script::Command;
use itoa::Buffer;
use sqlite_items::Items;
use std::alloc::{AllocError, Global};

/// The four lines, each with its line feed: how many files were loaded, and how many nodes and arcs the graph had before
/// the first command; how many transactions, undos and redos were done, and how many questions were asked; how many
/// questions have a good answer, one with faults, and one that says that what is asked for depends on itself; how many
/// files the builds write, and the sum of how far along x the entries of the values that are built stand. A build whose
/// answer isn't good writes nothing, and a value that isn't a collection's has no entries.
///
/// A number of files with more than 64 bits, and a sum outside an `i64`, also one on the way, are answered as want of
/// memory. It takes the time and the memory that making the build files takes, and time linear in the commands.
pub fn sum_lines(
    alloc: Global,
    files: u32,
    nodes: usize,
    arcs: usize,
    commands: &[Command],
    lines: &[Line<Answered>],
    names: &Names,
) -> Result<Items<Bytes>, AllocError>
    ensures { IfOk result (λ ls. ls ≡ sum_lines defold_tables files nodes arcs commands.now (map line_of lines.now) names.now) }
{
    let mut all = Items::new(alloc);
    all.push(files_line(alloc, files, nodes, arcs)?)?;
    all.push(edits_line(alloc, commands, lines)?)?;
    all.push(answers_line(alloc, lines)?)?;
    all.push(built_line(alloc, names, lines)?)?;
    Ok(all)
}

fn files_line(alloc: Global, files: u32, nodes: usize, arcs: usize) -> Result<Bytes, AllocError>
    ensures { IfOk result (λ l. l ≡ files_line files nodes arcs) }
{
    let mut line = Vec::new(alloc);
    put_count(&mut line, "files ", files as usize)?;
    put_count(&mut line, " nodes ", nodes)?;
    put_count(&mut line, " arcs ", arcs)?;
    line.push(b'\n')?;
    Ok(Bytes::from_vec(line))
}

fn edits_line(
    alloc: Global,
    commands: &[Command],
    lines: &[Line<Answered>],
) -> Result<Bytes, AllocError>
    ensures { IfOk result (λ l. l ≡ edits_line commands.now (map line_of lines.now)) }
{
    let mut line = Vec::new(alloc);
    put_count(
        &mut line,
        "edits ",
        deeds_in(Deed::Transaction, commands, lines),
    )?;
    put_count(&mut line, " undos ", deeds_in(Deed::Undo, commands, lines))?;
    put_count(&mut line, " redos ", deeds_in(Deed::Redo, commands, lines))?;
    put_count(&mut line, " asks ", asks_in(commands))?;
    line.push(b'\n')?;
    Ok(Bytes::from_vec(line))
}

fn answers_line(alloc: Global, lines: &[Line<Answered>]) -> Result<Bytes, AllocError>
    ensures { IfOk result (λ l. l ≡ answers_line defold_tables (map line_of lines.now)) }
{
    let mut line = Vec::new(alloc);
    put_count(&mut line, "good ", answers_in(Outcome::Good, lines))?;
    put_count(&mut line, " bad ", answers_in(Outcome::Bad, lines))?;
    put_count(&mut line, " cycle ", answers_in(Outcome::Cycle, lines))?;
    line.push(b'\n')?;
    Ok(Bytes::from_vec(line))
}

fn built_line(alloc: Global, names: &Names, lines: &[Line<Answered>]) -> Result<Bytes, AllocError>
    ensures { IfOk result (λ l. l ≡ built_line names.now (values_built defold_tables (map line_of lines.now))) }
{
    let values = values_built(alloc, lines)?;
    let files = files_written(alloc, names, values.as_slice())?;
    let sum = sum_built(values.as_slice())?;
    let mut line = Vec::new(alloc);
    put_count(&mut line, "built ", files)?;
    line.extend_from_slice(b" sum ")?;
    line.extend_from_slice(dg_decimal::print(sum).as_str().as_bytes())?;
    line.push(b'\n')?;
    Ok(Bytes::from_vec(line))
}

// A word, and a number behind it.
fn put_count(out: &mut Vec<u8>, word: &str, count: usize) -> Result<(), AllocError>
    ensures { OnOk result (out.new.items ≡ out.old.items ++ word.now ++ decimal count) }
{
    out.extend_from_slice(word.as_bytes())?;
    out.extend_from_slice(Buffer::new().format(count).as_bytes())
}
