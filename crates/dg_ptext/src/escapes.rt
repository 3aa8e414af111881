//! What stands between the quotes of a string.
ghost use Rattle.std.specs.Prelude.{◌≡◌, ◌≤◌, ◌<◌, ◌+◌, ◌^◌, [], length, IfOk, IfSome};
ghost use Rattle.dg_ptext.specs.Token.{numeral, escape, named_escape, byte_of, unit, body};

use std::alloc::{AllocError, Global};
use std::marker::Model;

/// Digits: their value, and how many they are.
#[derive(Clone, Copy)]
pub(crate) struct Numeral {
    pub(crate) value: u32,
    pub(crate) taken: usize,
}

/// An escape: the byte that it gives, and how many bytes it has behind its backslash.
#[derive(Clone, Copy)]
pub(crate) struct Escape {
    pub(crate) value: u8,
    pub(crate) taken: usize,
}

/// Bytes. Contracts see the list.
#[derive(Drop)]
pub(crate) struct Bytes {
    bytes: Vec<u8>,
}

impl Model for Bytes {
    ghost use Rattle.std.specs.Prelude.{ℕ, List};

    ghost Value = { List ℕ };

    ghost view = { λ b. b.bytes.items };
}

impl Bytes {
    pub(crate) fn into_vec(self) -> Vec<u8>
        ensures { result.items ≡ self }
    {
        let Bytes { bytes } = self;
        bytes
    }
}

/// A string: its bytes, and how many bytes it was written with, its last quote among them.
#[derive(Drop)]
pub(crate) struct Body {
    pub(crate) bytes: Bytes,
    pub(crate) taken: usize,
}

// At most three digits of a base, as many as stand there.
fn read_numeral(base: u32, places: u32, bytes: &[u8]) -> Numeral
    requires base_from { 2 ≤ base }
    requires base_to { base ≤ 16 }
    requires few { places ≤ 3 }
    ensures numeral { result ≡ numeral base places 0 0 bytes.now }
    ensures within { result.taken ≤ length bytes.now }
{
    let mut found = Numeral { value: 0, taken: 0 };
    let mut left = places;
    let mut rest = bytes;
    while let Some((first, behind)) = rest.split_first() {
        if left == 0 {
            return found;
        }
        let Some(digit) = char::from(*first).to_digit(base) else {
            return found;
        };
        found = Numeral {
            value: found.value * base + digit,
            taken: found.taken + 1,
        };
        left -= 1;
        rest = behind;
    }
    found
}

// The byte that a letter or mark stands for.
fn named_escape(byte: u8) -> Option<u8>
    ensures { result ≡ named_escape byte }
{
    match byte {
        b'a' => Some(7),
        b'b' => Some(8),
        b'f' => Some(12),
        b'n' => Some(b'\n'),
        b'r' => Some(b'\r'),
        b't' => Some(b'\t'),
        b'v' => Some(11),
        b'?' | b'\\' | b'"' | b'\'' => Some(byte),
        _ => None,
    }
}

// The byte that a numeral is, and how many bytes stand before it.
fn byte_of(before: usize, numeral: Numeral) -> Option<Escape>
    requires { before + numeral.taken < 2 ^ 64 }
    ensures { result ≡ byte_of before numeral }
{
    if numeral.taken == 0 || numeral.value > 255 {
        return None;
    }
    Some(Escape {
        value: numeral.value as u8,
        taken: before + numeral.taken,
    })
}

// The escape behind a backslash.
#[tactic(auto, unfolding(crate::specs::Token::escape))]
fn read_escape(bytes: &[u8]) -> Option<Escape>
    ensures value { result ≡ escape bytes.now }
    ensures within { IfSome result (λ e. e.taken ≤ length bytes.now) }
{
    let (first, behind) = bytes.split_first()?;
    match named_escape(*first) {
        Some(value) => Some(Escape { value, taken: 1 }),
        None if *first == b'x' => byte_of(1, read_numeral(16, 2, behind)),
        None => byte_of(0, read_numeral(8, 3, bytes)),
    }
}

// A byte of a string's text: an escape, or a byte that stands for itself.
fn read_unit(first: u8, behind: &[u8]) -> Option<Escape>
    ensures value { result ≡ unit first behind.now }
    ensures within { IfSome result (λ e. e.taken ≤ length behind.now) }
{
    if first == b'\\' {
        return read_escape(behind);
    }
    Some(Escape {
        value: first,
        taken: 0,
    })
}

/// What stands up to the quote that ends a string; nothing where the string has no end, another escape or a line feed.
/// It takes time linear in what was taken.
pub(crate) fn string_body(
    alloc: Global,
    quote: u8,
    bytes: &[u8],
) -> Result<Option<Body>, AllocError>
    ensures value { IfOk result (λ found. found ≡ body quote [] 0 0 bytes.now) }
    ensures within { IfOk result (λ found. IfSome found (λ b. b.taken ≤ length bytes.now)) }
{
    let mut made = Vec::new(alloc);
    let mut taken = 0;
    let mut rest = bytes;
    while let Some((first, behind)) = rest.split_first() {
        if *first == quote {
            return Ok(Some(Body {
                bytes: Bytes { bytes: made },
                taken: taken + 1,
            }));
        }
        if *first == b'\n' {
            return Ok(None);
        }
        let Some(unit) = read_unit(*first, behind) else {
            return Ok(None);
        };
        made.push(unit.value)?;
        taken += 1 + unit.taken;
        rest = &behind[unit.taken..];
    }
    Ok(None)
}
