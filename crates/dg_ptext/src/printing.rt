//! Printing a tree.
ghost use Rattle.std.specs.Prelude.{◌≡◌, ◌∷◌, ◌++◌, [], IfOk, OnOk};
ghost use Rattle.dg_ptext.specs.Printed.{printed, printed_field, printed_value};

use crate::tree::{Field, Tree, Value};
use dg_text::put_quoted;
use std::alloc::{AllocError, Global};

/// The bytes of a text. Contracts see the list.
pub type Bytes = sqlite_items::Items<u8>;

/// The one text of a tree: each field on a line of its own, two blanks before it for each message that it is in, as
/// `name: word`, `name: "text"`, or `name {`, the fields, and `}`. A tree that was read reads from it again, but for
/// its line numbers. It takes time linear in the text.
pub fn print_tree(alloc: Global, tree: &Tree) -> Result<Bytes, AllocError>
    ensures { IfOk result (λ text. text ≡ printed [] tree.now) }
{
    let mut out = Vec::new(alloc);
    print_fields(alloc, &mut out, &[], tree.as_slice())?;
    Ok(Bytes::from_vec(out))
}

// The fields of a message, behind its margin.
#[cycle(printing)]
fn print_fields(
    alloc: Global,
    out: &mut Vec<u8>,
    margin: &[u8],
    fields: &[Field],
) -> Result<(), AllocError>
    ensures { OnOk result (out.new.items ≡ out.old.items ++ printed margin.now fields.now) }
{
    for field in fields {
        out.extend_from_slice(margin)?;
        out.extend_from_slice(field.name.as_str().as_bytes())?;
        print_value(alloc, out, margin, &field.value)?;
    }
    Ok(())
}

// What stands behind a field's name, to the end of the field.
#[cycle(printing)]
fn print_value(
    alloc: Global,
    out: &mut Vec<u8>,
    margin: &[u8],
    value: &Value,
) -> Result<(), AllocError>
    ensures { OnOk result (out.new.items ≡ out.old.items ++ printed_value margin.now value.now) }
{
    match value {
        Value::Bare(word) => {
            out.extend_from_slice(b": ")?;
            out.extend_from_slice(word.as_str().as_bytes())?;
            out.push(b'\n')?;
        }
        Value::Quoted(text) => {
            out.extend_from_slice(b": ")?;
            put_quoted(out, text.as_str())?;
            out.push(b'\n')?;
        }
        Value::Message(fields) => {
            out.extend_from_slice(b" {\n")?;
            let mut inner = Vec::from_slice(alloc, margin)?;
            inner.extend_from_slice(b"  ")?;
            print_fields(alloc, out, inner.as_slice(), fields.as_slice())?;
            out.extend_from_slice(margin)?;
            out.extend_from_slice(b"}\n")?;
        }
    }
    Ok(())
}
