//! The lines of a script, and what one line is.
ghost use Rattle.std.specs.Prelude.{◌≡◌, List, map, IfOk};
ghost use Rattle.std.specs.List.{slice_split};
ghost use Rattle.dg_base.specs.Refusal.{Gives};
ghost use Rattle.dg_script.specs.Script.{is_line_feed, without_empty_end, lines_in, without_return, is_comment, row_of_words, row_at, row_of_text};

use crate::acts::{Row, read_row};
use crate::command::ScriptCode;
use crate::words::{is_blank_byte, words_of};
use dg_base::Refusal;
use dg_text::text_of;
use std::alloc::{AllocError, Global};

const MOST_BYTES: usize = 65_536;

/// The lines of a script, without their line feeds.
pub(crate) fn lines_of(alloc: Global, bytes: &[u8]) -> Result<Vec<&[u8]>, AllocError>
    ensures { IfOk result (λ v. map (λ l. l.now) v.items ≡ lines_in bytes.now) }
{
    let mut lines = parts_of_script(alloc, bytes)?;
    drop_empty_end(&mut lines);
    Ok(lines)
}

fn drop_empty_end(lines: &mut Vec<&[u8]>)
    ensures { map (λ l. l.now) lines.new.items ≡ without_empty_end (map (λ l. l.now) lines.old.items) }
{
    match lines.pop() {
        Some(last) => {
            if !last.is_empty() {
                lines.push_reserved(last);
            }
        }
        None => {}
    }
}

fn parts_of_script(alloc: Global, bytes: &[u8]) -> Result<Vec<&[u8]>, AllocError>
    ensures { IfOk result (λ v. map (λ l. l.now) v.items ≡ slice_split is_line_feed bytes.now) }
{
    bytes.split(|b| *b == b'\n').collect(alloc)
}

/// What a line is, inside a block or outside. One carriage return at its end is dropped.
pub(crate) fn read_line(
    alloc: Global,
    inside: bool,
    line: &[u8],
) -> Result<Row, Refusal<ScriptCode>>
    ensures { Gives (λ x. x) result (row_at inside (without_return line.now)) }
{
    match text_of(without_return(line)) {
        Some(text) => read_text(alloc, inside, text),
        None => Err(Refusal::Because(ScriptCode::Utf8)),
    }
}

fn without_return(line: &[u8]) -> &[u8]
    ensures { result.now ≡ without_return line.now }
{
    match line.split_last() {
        Some((last, front)) => if *last == b'\r' { front } else { line },
        None => line,
    }
}

fn read_text(alloc: Global, inside: bool, line: &str) -> Result<Row, Refusal<ScriptCode>>
    ensures { Gives (λ x. x) result (row_of_text inside line.now) }
{
    if MOST_BYTES < line.len() {
        return Err(Refusal::Because(ScriptCode::TooLong));
    }
    if is_comment(line.as_bytes()) {
        return Ok(Row::Nothing);
    }
    match words_of(alloc, line)? {
        Some(words) => read_row(alloc, inside, words.as_slice()),
        None => Err(Refusal::Because(ScriptCode::Value)),
    }
}

/// Whether the first byte that is no blank is `#`.
fn is_comment(line: &[u8]) -> bool
    ensures { result ≡ is_comment line.now }
{
    for b in line {
        if !is_blank_byte(*b) {
            return *b == b'#';
        }
    }
    false
}
