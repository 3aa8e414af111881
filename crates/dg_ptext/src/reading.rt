//! Reading a text.
ghost use Rattle.std.specs.Prelude.{◌≡◌, List, IfOk};
ghost use Rattle.std.specs.Str.{is_utf8};
ghost use Rattle.dg_ptext.specs.Token.{line_behind, tokens};
ghost use Rattle.dg_ptext.specs.declared.tree.Field.{Field};
ghost use Rattle.dg_ptext.specs.Grammar.{Spells};
ghost use Rattle.dg_base.specs.Refusal.{Gives};
ghost use Rattle.dg_ptext.specs.Reading.{reading, run, start, step_by};

use crate::refusal::TextCode;
use crate::state::State;
use crate::token::{Token, read_piece};
use crate::tree::Tree;
use dg_base::Refusal;
use dg_text::text_of;
use std::alloc::Global;

/// The tree that the bytes are a text of, each field with the line of its name. Refused is, with its line, the first
/// place where the text can't go on: a token, the brace of a message inside 64 open ones, or the innermost open brace
/// where the text ends in a message; before all that, bytes that aren't UTF-8. It takes time linear in the text.
pub fn read_tree(alloc: Global, bytes: &[u8]) -> Result<Tree, Refusal<TextCode>>
    // What is read is spelled so.
    ensures found { IfOk result (λ tree. Spells bytes.now tree) }
    // What is spelled so is read, unless memory runs out.
    ensures spelled { (tree : List Field) → Spells bytes.now tree → Gives (λ x. x) result (Ok tree) }
    // Which refusal it is.
    ensures answer { Gives (λ x. x) result (reading bytes.now) }
{
    read_all(alloc, bytes)
}

#[tactic(auto, unfolding(crate::specs::Reading::reading))]
fn read_all(alloc: Global, bytes: &[u8]) -> Result<Tree, Refusal<TextCode>>
    ensures { Gives (λ x. x) result (reading bytes.now) }
{
    match text_of(bytes) {
        Some(_) => read_text(alloc, bytes),
        None => Err(Refusal::Because(TextCode::Utf8)),
    }
}

// What a text says, token by token.
fn read_text(alloc: Global, bytes: &[u8]) -> Result<Tree, Refusal<TextCode>>
    ensures { Gives (λ x. x) result (run start (tokens 0 1 bytes.now)) }
{
    let mut state = State::start(alloc);
    let mut line = 1;
    let mut rest = bytes;
    while let Some((first, behind)) = rest.split_first() {
        let piece = read_piece(alloc, *first, behind)?;
        state = state_behind(alloc, state, line, piece.token)?;
        line = line_behind(*first, line);
        rest = &behind[piece.taken..];
    }
    state.end()
}

// The state behind a token, if there is one.
fn state_behind(
    alloc: Global,
    state: State,
    line: u32,
    token: Option<Token>,
) -> Result<State, Refusal<TextCode>>
    ensures { Gives (λ x. x) result (step_by state line token) }
{
    match token {
        None => Ok(state),
        Some(token) => state.step(alloc, line, token),
    }
}

// The line behind a byte.
fn line_behind(byte: u8, line: u32) -> u32
    ensures { result ≡ line_behind byte line }
{
    if byte == b'\n' {
        line.saturating_add(1)
    } else {
        line
    }
}
