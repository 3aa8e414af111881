//! Reading a text of each sort.
ghost use Rattle.std.specs.Prelude.{◌≡◌, IfOk};
ghost use Rattle.dg_sources.specs.Readings.{declared, unread_text, unread_desc, script_in, object_in, collection_in};

use crate::bad::{BadCode, Unread};
use crate::source::Reads;
use dg_base::Refusal;
use dg_desc::{CollDesc, DescCode, GoDesc, read_coll, read_go};
use dg_lua::{Declaration, declarations};
use dg_ptext::{TextCode, read_tree};
use dg_text::text_of;
use std::alloc::{AllocError, Global};

/// What a script declares.
pub(crate) fn read_script(
    alloc: Global,
    bytes: &[u8],
) -> Result<Result<Reads<Declaration>, Unread>, AllocError>
    ensures { IfOk result (λ read. read ≡ script_in bytes.now) }
{
    match text_of(bytes) {
        None => Ok(Err(unread(0, BadCode::Utf8))),
        Some(text) => Ok(Ok(Reads::from_vec(declarations(alloc, text)?))),
    }
}

/// The game object that a text says, or the first place where it stops to be one, in time linear in the text.
pub fn read_object(alloc: Global, bytes: &[u8]) -> Result<Result<GoDesc, Unread>, AllocError>
    ensures { IfOk result (λ read. read ≡ object_in bytes.now) }
{
    let tree = match read_tree(alloc, bytes) {
        Ok(tree) => tree,
        Err(Refusal::Because(code)) => return Ok(Err(unread_text(code))),
        Err(Refusal::NoMemory) => return Err(AllocError),
    };
    match read_go(alloc, &tree) {
        Ok(desc) => Ok(Ok(desc)),
        Err(Refusal::Because(code)) => Ok(Err(unread_desc(code))),
        Err(Refusal::NoMemory) => Err(AllocError),
    }
}

/// The collection that a text says, or the first place where it stops to be one, in time linear in the text.
pub fn read_collection(alloc: Global, bytes: &[u8]) -> Result<Result<CollDesc, Unread>, AllocError>
    ensures { IfOk result (λ read. read ≡ collection_in bytes.now) }
{
    let tree = match read_tree(alloc, bytes) {
        Ok(tree) => tree,
        Err(Refusal::Because(code)) => return Ok(Err(unread_text(code))),
        Err(Refusal::NoMemory) => return Err(AllocError),
    };
    match read_coll(alloc, &tree) {
        Ok(desc) => Ok(Ok(desc)),
        Err(Refusal::Because(code)) => Ok(Err(unread_desc(code))),
        Err(Refusal::NoMemory) => Err(AllocError),
    }
}

pub(crate) fn unread(line: u32, code: BadCode) -> Unread
    ensures { result ≡ record { line = line; code = code } }
{
    Unread { line, code }
}

fn unread_text(code: TextCode) -> Unread
    ensures { result ≡ unread_text code }
{
    match code {
        TextCode::Utf8 => unread(0, BadCode::Utf8),
        TextCode::Token { line } => unread(line, BadCode::Token),
        TextCode::Nesting { line } => unread(line, BadCode::Nesting),
        TextCode::Unclosed { line } => unread(line, BadCode::Unclosed),
    }
}

fn unread_desc(code: DescCode) -> Unread
    ensures { result ≡ unread_desc code }
{
    match code {
        DescCode::Missing { line, .. } => unread(line, BadCode::Missing),
        DescCode::Form { line, .. } => unread(line, BadCode::Form),
    }
}
