//! Quoted text.
ghost use Rattle.std.specs.Prelude.{◌≡◌, ◌++◌, IfOk, OnOk};
ghost use Rattle.dg_text.specs.Quoted.{escaped, quoted};

use std::alloc::{AllocError, Global};

/// The text between quotes, with `\"`, `\\`, `\n`, `\r` and `\t`, and a backslash and three octal
/// digits for each other byte below 32 and for 127. A script's quoted word of these bytes is the
/// text. It takes time linear in the text's length.
pub fn quoted(alloc: Global, text: &str) -> Result<Vec<u8>, AllocError>
    ensures { IfOk result (λ b. b.items ≡ quoted text.now) }
{
    let mut out = Vec::new(alloc);
    put_quoted(&mut out, text)?;
    Ok(out)
}

/// Puts the quoted text behind what is there, in time linear in the text. Where memory is refused, a first
/// part of it may stand there.
pub fn put_quoted(out: &mut Vec<u8>, text: &str) -> Result<(), AllocError>
    ensures { OnOk result (out.new.items ≡ out.old.items ++ quoted text.now) }
{
    out.push(b'"')?;
    for byte in text.as_bytes() {
        put_escaped(out, *byte)?;
    }
    out.push(b'"')?;
    Ok(())
}

#[tactic(auto, unfolding(crate::specs::Quoted::escaped))]
fn put_escaped(out: &mut Vec<u8>, byte: u8) -> Result<(), AllocError>
    ensures { OnOk result (out.new.items ≡ out.old.items ++ escaped byte) }
{
    match byte {
        b'"' => out.extend_from_slice(b"\\\""),
        b'\\' => out.extend_from_slice(b"\\\\"),
        b'\n' => out.extend_from_slice(b"\\n"),
        b'\r' => out.extend_from_slice(b"\\r"),
        b'\t' => out.extend_from_slice(b"\\t"),
        0..=31 | 127 => out.extend_from_slice(&[
            b'\\',
            b'0' + byte / 64,
            b'0' + byte / 8 % 8,
            b'0' + byte % 8,
        ]),
        _ => out.extend_from_slice(&[byte]),
    }
}
