//! The words of a line.
ghost use Rattle.std.specs.Prelude.{◌≡◌, ◌≢◌, ◌≤◌, ◌<◌, ◌++◌, ◌∷◌, [], length, encode_utf8, IfOk, MatchOption, cond};
ghost use Rattle.std.specs.Option.{option_map};
ghost use Rattle.std.specs.Str.{chars};
ghost use Rattle.dg_script.specs.Words.{is_blank, named, octal, is_octal, behind, in_front, words_in, bare_in, quoted_in, escaped_in, octal_in};
ghost use Rattle.dg_script.specs.Parts.{WordIs, TextIs, EndIs, EscapeIs, word_in};

use dg_base::Str;
use std::alloc::{AllocError, Global};

/// A word of a line: its text, and whether it stood in quotes.
#[derive(Debug, Drop)]
pub(crate) struct Word {
    pub(crate) text: Str,
    pub(crate) quoted: bool,
}

/// The words of a line, or None where a quoted word is of another form. It goes over each character
/// once.
pub(crate) fn words_of(alloc: Global, line: &str) -> Result<Option<Vec<Word>>, AllocError>
    ensures { IfOk result (λ words. option_map (λ v. v.items) words ≡ words_in (chars line.now)) }
{
    let mut words = Vec::new(alloc);
    let mut rest = line;
    while let Some((first, after)) = split_first_char(rest) {
        if is_blank(first) {
            rest = after;
            continue;
        }
        match read_word(alloc, first, after)? {
            Some((word, behind)) => {
                words.push(word)?;
                rest = behind;
            }
            None => return Ok(None),
        }
    }
    Ok(Some(words))
}

/// The word that begins with the character, and the text behind it.
fn read_word(alloc: Global, first: char, after: &str) -> Result<Option<(Word, &str)>, AllocError>
    ensures { IfOk result (λ found. MatchOption found (word_in first (chars after.now) ≡ Rattle.std.specs.Prelude.None)
        (λ f. WordIs f.0 f.1.now after.now (word_in first (chars after.now)))) }
{
    if first != '"' {
        let (text, rest) = read_bare(alloc, first, after)?;
        return Ok(Some((
            Word {
                text,
                quoted: false,
            },
            rest,
        )));
    }
    match read_quoted(alloc, after)? {
        Some((text, rest)) => Ok(Some((Word { text, quoted: true }, rest))),
        None => Ok(None),
    }
}

fn read_bare(alloc: Global, first: char, after: &str) -> Result<(Str, &str), AllocError>
    ensures { IfOk result (λ f. TextIs f.0 f.1.now after.now (behind first (bare_in (chars after.now)))) }
{
    let mut text = String::new(alloc);
    text.push(first)?;
    let mut rest = after;
    while let Some((next, later)) = split_first_char(rest) {
        if is_blank(next) {
            return Ok((Str::of(text), rest));
        }
        text.push(next)?;
        rest = later;
    }
    Ok((Str::of(text), rest))
}

/// The text of a quoted word up to the quote that ends it, and what stands behind that.
fn read_quoted(alloc: Global, after: &str) -> Result<Option<(Str, &str)>, AllocError>
    ensures { IfOk result (λ found. MatchOption found (quoted_in (chars after.now) ≡ Rattle.std.specs.Prelude.None)
        (λ f. TextIs f.0 f.1.now after.now (quoted_in (chars after.now)))) }
{
    let mut text = String::new(alloc);
    let mut rest = after;
    while let Some((next, later)) = split_first_char(rest) {
        if next == '"' {
            if !is_closed(later) {
                return Ok(None);
            }
            return Ok(Some((Str::of(text), later)));
        }
        match read_one(next, later) {
            Some((written, behind)) => {
                text.push(written)?;
                rest = behind;
            }
            None => return Ok(None),
        }
    }
    Ok(None)
}

/// Whether a blank or the end stands here.
fn is_closed(rest: &str) -> bool
    ensures { EndIs result (chars rest.now) }
{
    match split_first_char(rest) {
        Some((next, _)) => is_blank(next),
        None => true,
    }
}

/// The character that is written at the front of a quoted text, which isn't a quote, and what stands
/// behind it.
fn read_one(next: char, later: &str) -> Option<(char, &str)>
    requires { next ≢ 34 }
    ensures { MatchOption result (quoted_in (next ∷ chars later.now) ≡ Rattle.std.specs.Prelude.None)
        (λ f. EscapeIs f.0 f.1.now later.now (quoted_in (next ∷ chars later.now))) }
{
    if next == '\\' {
        read_escape(later)
    } else {
        Some((next, later))
    }
}

fn read_escape(later: &str) -> Option<(char, &str)>
    ensures { MatchOption result (escaped_in (chars later.now) ≡ Rattle.std.specs.Prelude.None)
        (λ f. EscapeIs f.0 f.1.now later.now (escaped_in (chars later.now))) }
{
    let (next, rest) = split_first_char(later)?;
    match named(next) {
        Some(written) => Some((written, rest)),
        None => read_octal(next, rest),
    }
}

fn read_octal(first: char, later: &str) -> Option<(char, &str)>
    ensures { MatchOption result (octal_in first (chars later.now) ≡ Rattle.std.specs.Prelude.None)
        (λ f. EscapeIs f.0 f.1.now later.now (octal_in first (chars later.now))) }
{
    let (second, rest) = split_first_char(later)?;
    let (third, rest) = split_first_char(rest)?;
    match octal(first, second, third) {
        Some(written) => Some((written, rest)),
        None => None,
    }
}

fn named(c: char) -> Option<char>
    ensures { result ≡ named c }
{
    match c {
        '"' => Some('"'),
        '\\' => Some('\\'),
        'n' => Some('\n'),
        'r' => Some('\r'),
        't' => Some('\t'),
        _ => None,
    }
}

fn is_octal_digit(c: char) -> bool
    ensures { result ≡ Rattle.dg_script.specs.Words.is_octal_digit c }
{
    '0' <= c && c <= '7'
}

fn octal(a: char, b: char, c: char) -> Option<char>
    ensures { result ≡ cond (is_octal a b c) (Rattle.std.specs.Prelude.Some (octal a b c)) Rattle.std.specs.Prelude.None }
{
    if !is_octal_digit(a) || !is_octal_digit(b) || !is_octal_digit(c) {
        return None;
    }
    let number = (a as u32 - 48) * 64 + (b as u32 - 48) * 8 + (c as u32 - 48);
    if number < 128 {
        Some(char::from(number as u8))
    } else {
        None
    }
}

fn is_blank(c: char) -> bool
    ensures { result ≡ is_blank c }
{
    c == ' ' || c == '\t'
}

pub(crate) fn is_blank_byte(b: u8) -> bool
    ensures { result ≡ is_blank b }
{
    b == b' ' || b == b'\t'
}

/// The first character, and what stands behind it.
fn split_first_char(text: &str) -> Option<(char, &str)>
    ensures { MatchOption result (chars text.now ≡ [])
        (λ f. (chars text.now ≡ f.0 ∷ chars f.1.now) × (length f.1.now < length text.now)) }
{
    let mut chars = text.chars();
    match chars.next() {
        Some(c) => Some((c, chars.as_str())),
        None => None,
    }
}
