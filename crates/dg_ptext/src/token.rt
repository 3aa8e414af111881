//! Tokens.
ghost use Rattle.std.specs.Prelude.{◌≡◌, ◌≤◌, ◌++◌, ◌∷◌, [], true, length, OnOk, IfOk};
ghost use Rattle.std.specs.List.{prefix_len};
ghost use Rattle.dg_text.specs.Decoded.{text_of};
ghost use Rattle.dg_ptext.specs.Token.{is_word_byte, is_blank, in_comment, piece, word, string_of, bad, mark, body};

use crate::escapes::{Bytes, string_body};
use dg_base::Str;
use std::alloc::{AllocError, Global};
use std::marker::Model;

/// A text to which more can be joined. Contracts see its bytes.
#[derive(Drop)]
pub(crate) struct Text {
    text: String,
}

impl Model for Text {
    ghost use Rattle.std.specs.Prelude.{ℕ, List, string_bytes};

    ghost Value = { List ℕ };

    ghost view = { λ s. string_bytes s.text };
}

impl Text {
    pub(crate) fn join(&mut self, more: &Text) -> Result<(), AllocError>
        ensures { OnOk result (self.new ≡ self.old ++ more.now) }
    {
        self.text.push_str(&more.text)
    }

    pub(crate) fn into_str(self) -> Str
        ensures { result ≡ self }
    {
        let Text { text } = self;
        Str::of(text)
    }
}

/// A token. `Bad` is what begins none, and a string that is none.
#[derive(Drop)]
pub(crate) enum Token {
    Open,
    Close,
    Colon,
    Comma,
    Semicolon,
    Word(Str),
    Text(Text),
    Bad,
}

/// What stands at a byte: a token, or none at a blank or a comment, and how many bytes behind the first are its own.
#[derive(Drop)]
pub(crate) struct Piece {
    pub(crate) token: Option<Token>,
    pub(crate) taken: usize,
}

#[tactic(auto, unfolding(crate::specs::Token::is_word_byte))]
fn is_word_byte(byte: u8) -> bool
    ensures { result ≡ is_word_byte byte }
{
    byte.is_ascii_alphanumeric() || byte == b'_' || byte == b'.' || byte == b'+' || byte == b'-'
}

fn is_blank(byte: u8) -> bool
    ensures { result ≡ is_blank byte }
{
    byte == b' ' || byte == b'\t' || byte == b'\r' || byte == b'\n'
}

// How many bytes of a word stand in front.
fn word_len(bytes: &[u8]) -> usize
    ensures len { result ≡ prefix_len is_word_byte bytes.now }
    ensures within { result ≤ length bytes.now }
{
    bytes.iter().take_while(|byte| is_word_byte(**byte)).count()
}

// How many bytes stand before the end of the line.
fn comment_len(bytes: &[u8]) -> usize
    ensures len { result ≡ prefix_len in_comment bytes.now }
    ensures within { result ≤ length bytes.now }
{
    bytes.iter().take_while(|byte| **byte != b'\n').count()
}

// The word that begins with the first byte.
fn read_word(alloc: Global, first: u8, behind: &[u8]) -> Result<Piece, AllocError>
    requires { is_word_byte first ≡ true }
    ensures value { IfOk result (λ p. p ≡ word first behind.now) }
    ensures within { IfOk result (λ p. p.taken ≤ length behind.now) }
{
    let taken = word_len(behind);
    let mut bytes = Vec::new(alloc);
    bytes.push(first)?;
    bytes.extend_from_slice(&behind[..taken])?;
    match String::from_utf8(bytes) {
        Ok(text) => Ok(Piece {
            token: Some(Token::Word(Str::of(text))),
            taken,
        }),
        Err(_) => unreachable!(),
    }
}

// The text of a string, where its bytes are UTF-8.
fn text_of(bytes: Bytes) -> Option<Text>
    ensures { result ≡ text_of bytes }
{
    match String::from_utf8(bytes.into_vec()) {
        Ok(text) => Some(Text { text }),
        Err(_) => None,
    }
}

// The string that begins with a quote.
fn read_string(alloc: Global, quote: u8, behind: &[u8]) -> Result<Piece, AllocError>
    ensures value { IfOk result (λ p. p ≡ string_of (body quote [] 0 0 behind.now)) }
    ensures within { IfOk result (λ p. p.taken ≤ length behind.now) }
{
    let Some(body) = string_body(alloc, quote, behind)? else {
        return Ok(bad());
    };
    match text_of(body.bytes) {
        None => Ok(bad()),
        Some(text) => Ok(Piece {
            token: Some(Token::Text(text)),
            taken: body.taken,
        }),
    }
}

fn bad() -> Piece
    ensures { result ≡ bad }
{
    Piece {
        token: Some(Token::Bad),
        taken: 0,
    }
}

fn mark(byte: u8) -> Piece
    ensures { result ≡ mark byte }
{
    let token = match byte {
        b'{' => Token::Open,
        b'}' => Token::Close,
        b':' => Token::Colon,
        b',' => Token::Comma,
        b';' => Token::Semicolon,
        _ => Token::Bad,
    };
    Piece {
        token: Some(token),
        taken: 0,
    }
}

/// What begins with a byte. It takes time linear in what it takes.
#[tactic(auto, unfolding(crate::specs::Token::piece))]
pub(crate) fn read_piece(alloc: Global, first: u8, behind: &[u8]) -> Result<Piece, AllocError>
    ensures value { IfOk result (λ p. p ≡ piece first behind.now) }
    ensures within { IfOk result (λ p. p.taken ≤ length behind.now) }
{
    if is_blank(first) {
        return Ok(Piece {
            token: None,
            taken: 0,
        });
    }
    if first == b'#' {
        return Ok(Piece {
            token: None,
            taken: comment_len(behind),
        });
    }
    if is_word_byte(first) {
        return read_word(alloc, first, behind);
    }
    if first == b'"' || first == b'\'' {
        return read_string(alloc, first, behind);
    }
    Ok(mark(first))
}
