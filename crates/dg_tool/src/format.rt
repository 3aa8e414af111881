//! The canonical text of a game object or a collection.
ghost use Rattle.std.specs.Prelude.{◌≡◌, ◌≤◌, IfOk, IfSome, IsErrOf, map};
ghost use Rattle.dg_base.specs.Refusal.{Gives};
ghost use Rattle.dg_files.specs.Outcome.{Rose, StaysSound};
ghost use Rattle.dg_tool.specs.Input.{Tells};
ghost use Rattle.dg_tool.specs.Seen.{ArePlain, all_plain, plain};
ghost use Rattle.dg_tool.specs.Format.{cut, fitting_text, formatted, formatted_coll, formatted_go, formatted_in};

use crate::halt::{Halt, Limit};
use crate::input::bytes_of;
use crate::piece::{Piece, Pieces};
use crate::size::MAX_TEXT;
use dg_base::Refusal;
use dg_desc::{coll_tree, go_tree};
use dg_files::{Bytes, Files};
use dg_ptext::print_tree;
use dg_sources::{Unread, read_collection, read_object};
use dg_text::ends_in;
use std::alloc::{AllocError, Global};
use std::mem;

/// The ending of a game object's path.
const GAME_OBJECT: &str = ".go";

/// The lines of the canonical text of the file at a path. The files are read and nothing else.
pub(crate) fn formatted_in<F: Files>(
    alloc: Global,
    files: &mut F,
    path: &str,
) -> Result<Pieces, Refusal<Halt>>
    ensures told { IfSome (F.tree files.old) (λ t. Tells (λ ps. ps.items) result (all_plain (formatted_in t path.now))) }
    ensures plain { IfOk result (λ ps. ArePlain ps.items) }
    ensures tree { F.tree files.new ≡ F.tree files.old }
    ensures never_falls { F.faults files.old ≤ F.faults files.new }
    ensures cause { IsErrOf result (Refusal.Because Halt.FileFault) → Rose (F.faults files.old) (F.faults files.new) }
    ensures sound { StaysSound F.is_sound F.faults files.old files.new }
{
    let bytes = bytes_of(alloc, files, path, Limit::File)?;
    let text = formatted(alloc, path, bytes.as_slice())?;
    fitting_text(alloc, text.as_slice())
}

// The lines of a text, where all of it is printed.
fn fitting_text(alloc: Global, text: &[u8]) -> Result<Pieces, Refusal<Halt>>
    ensures { Gives (λ ps. ps.items) result (all_plain (fitting_text text.now)) }
{
    if text.len() > MAX_TEXT {
        Err(Refusal::Because(Halt::TooLarge(Limit::Text)))
    } else {
        Ok(cut(alloc, text)?)
    }
}

// The canonical text of a file by its bytes.
fn formatted(alloc: Global, path: &str, bytes: &[u8]) -> Result<dg_ptext::Bytes, Refusal<Halt>>
    ensures { Gives (λ text. text) result (formatted path.now bytes.now) }
{
    if ends_in(path, GAME_OBJECT) {
        formatted_go(alloc, bytes)
    } else {
        formatted_coll(alloc, bytes)
    }
}

fn formatted_go(alloc: Global, bytes: &[u8]) -> Result<dg_ptext::Bytes, Refusal<Halt>>
    ensures { Gives (λ text. text) result (formatted_go bytes.now) }
{
    match read_object(alloc, bytes)? {
        Ok(desc) => Ok(print_tree(alloc, &go_tree(alloc, &desc)?)?),
        Err(unread) => Err(bad_file(unread)),
    }
}

fn formatted_coll(alloc: Global, bytes: &[u8]) -> Result<dg_ptext::Bytes, Refusal<Halt>>
    ensures { Gives (λ text. text) result (formatted_coll bytes.now) }
{
    match read_collection(alloc, bytes)? {
        Ok(desc) => Ok(print_tree(alloc, &coll_tree(alloc, &desc)?)?),
        Err(unread) => Err(bad_file(unread)),
    }
}

fn bad_file(unread: Unread) -> Refusal<Halt>
    ensures { result ≡ Refusal.Because (Halt.BadFile unread.line unread.code) }
{
    Refusal::Because(Halt::BadFile {
        line: unread.line,
        code: unread.code,
    })
}

// The lines of a text, each with its line feed.
fn cut(alloc: Global, text: &[u8]) -> Result<Pieces, AllocError>
    ensures { IfOk result (λ ps. ps.items ≡ map plain (cut text.now)) }
{
    let mut pieces = Vec::new(alloc);
    let mut line = Vec::new(alloc);
    for byte in text {
        line.push(*byte)?;
        if *byte == b'\n' {
            let whole = mem::replace(&mut line, Vec::new(alloc));
            pieces.push(Piece::plain(Bytes::from_vec(whole)))?;
        }
    }
    if !line.is_empty() {
        pieces.push(Piece::plain(Bytes::from_vec(line)))?;
    }
    Ok(pieces)
}
