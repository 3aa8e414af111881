//! Fields behind those that are there.
ghost use Rattle.std.specs.Prelude.{◌≡◌, ◌++◌, ◌∷◌, [], IfOk, OnOk, length, map};
ghost use Rattle.std.specs.Ordering.{int_eq};
ghost use Rattle.dg_desc.specs.Trees.{field, bare, quoted, message, differing, unless_empty, vector_fields, vector_tree, quaternion_fields, position_tree, rotation_tree, scale3_tree, switch_tree, child_tree};

use crate::copying::copy_field;
use crate::descs::ChildDesc;
use crate::known::{FieldName, label_of};
use crate::lookups::ONE;
use dg_base::{Str, V3, V4};
use dg_ptext::{Field, Tree, Value};
use std::alloc::{AllocError, Global};

fn text(alloc: Global, words: &str) -> Result<Str, AllocError>
    ensures { IfOk result (λ text. text ≡ words.now) }
{
    Ok(Str::of(String::from_str(alloc, words)?))
}

fn put(alloc: Global, out: &mut Tree, name: FieldName, value: Value) -> Result<(), AllocError>
    ensures { OnOk result (out.new ≡ out.old ++ field name value ∷ []) }
{
    let name = text(alloc, label_of(name))?;
    out.push(Field {
        name,
        line: 0,
        value,
    })
}

pub(crate) fn put_bare(
    alloc: Global,
    out: &mut Tree,
    name: FieldName,
    word: &str,
) -> Result<(), AllocError>
    ensures { OnOk result (out.new ≡ out.old ++ bare name word.now ∷ []) }
{
    put(alloc, out, name, Value::Bare(text(alloc, word)?))
}

pub(crate) fn put_text(
    alloc: Global,
    out: &mut Tree,
    name: FieldName,
    words: &str,
) -> Result<(), AllocError>
    ensures { OnOk result (out.new ≡ out.old ++ quoted name words.now ∷ []) }
{
    put(alloc, out, name, Value::Quoted(text(alloc, words)?))
}

pub(crate) fn put_message(
    alloc: Global,
    out: &mut Tree,
    name: FieldName,
    fields: Tree,
) -> Result<(), AllocError>
    ensures { OnOk result (out.new ≡ out.old ++ message name fields ∷ []) }
{
    put(alloc, out, name, Value::Message(fields))
}

/// Fields as they are.
pub(crate) fn put_copies(alloc: Global, out: &mut Tree, fields: &[Field]) -> Result<(), AllocError>
    ensures { OnOk result (out.new ≡ out.old ++ fields.now) }
{
    for field in fields {
        out.push(copy_field(alloc, field)?)?;
    }
    Ok(())
}

// A number, unless it is the default.
fn put_differing(
    alloc: Global,
    out: &mut Tree,
    name: FieldName,
    other: i64,
    number: i64,
) -> Result<(), AllocError>
    ensures { OnOk result (out.new ≡ out.old ++ differing name other number) }
{
    if number == other {
        return Ok(());
    }
    put_bare(alloc, out, name, dg_decimal::print(number).as_str())
}

fn put_unless_empty(
    alloc: Global,
    out: &mut Tree,
    name: FieldName,
    fields: Tree,
) -> Result<(), AllocError>
    ensures { OnOk result (out.new ≡ out.old ++ unless_empty name fields) }
{
    if fields.is_empty() {
        return Ok(());
    }
    put_message(alloc, out, name, fields)
}

fn vector_fields(alloc: Global, other: i64, vector: V3) -> Result<Tree, AllocError>
    ensures { IfOk result (λ fields. fields ≡ vector_fields other vector) }
{
    let mut fields = Tree::new(alloc);
    put_differing(alloc, &mut fields, FieldName::X, other, vector.x)?;
    put_differing(alloc, &mut fields, FieldName::Y, other, vector.y)?;
    put_differing(alloc, &mut fields, FieldName::Z, other, vector.z)?;
    Ok(fields)
}

fn put_vector(
    alloc: Global,
    out: &mut Tree,
    name: FieldName,
    other: i64,
    vector: Option<V3>,
) -> Result<(), AllocError>
    ensures { OnOk result (out.new ≡ out.old ++ vector_tree name other vector) }
{
    match vector {
        None => Ok(()),
        Some(vector) => {
            let fields = vector_fields(alloc, other, vector)?;
            put_unless_empty(alloc, out, name, fields)
        }
    }
}

/// A position, in which only what isn't 0 stands, and which isn't there where all is 0.
pub(crate) fn put_position(
    alloc: Global,
    out: &mut Tree,
    position: Option<V3>,
) -> Result<(), AllocError>
    ensures { OnOk result (out.new ≡ out.old ++ position_tree position) }
{
    put_vector(alloc, out, FieldName::Position, 0, position)
}

/// A scale, in which only what isn't 1 stands, and which isn't there where all is 1.
pub(crate) fn put_scale3(
    alloc: Global,
    out: &mut Tree,
    scale3: Option<V3>,
) -> Result<(), AllocError>
    ensures { OnOk result (out.new ≡ out.old ++ scale3_tree scale3) }
{
    put_vector(alloc, out, FieldName::Scale3, ONE, scale3)
}

fn quaternion_fields(alloc: Global, rotation: V4) -> Result<Tree, AllocError>
    ensures { IfOk result (λ fields. fields ≡ quaternion_fields rotation) }
{
    let mut fields = Tree::new(alloc);
    put_differing(alloc, &mut fields, FieldName::X, 0, rotation.x)?;
    put_differing(alloc, &mut fields, FieldName::Y, 0, rotation.y)?;
    put_differing(alloc, &mut fields, FieldName::Z, 0, rotation.z)?;
    put_differing(alloc, &mut fields, FieldName::W, ONE, rotation.w)?;
    Ok(fields)
}

/// A rotation, in which only what differs from none stands, and which isn't there where nothing does.
pub(crate) fn put_rotation(
    alloc: Global,
    out: &mut Tree,
    rotation: Option<V4>,
) -> Result<(), AllocError>
    ensures { OnOk result (out.new ≡ out.old ++ rotation_tree rotation) }
{
    match rotation {
        None => Ok(()),
        Some(rotation) => {
            let fields = quaternion_fields(alloc, rotation)?;
            put_unless_empty(alloc, out, FieldName::Rotation, fields)
        }
    }
}

/// A switch, where it is on.
pub(crate) fn put_switch(
    alloc: Global,
    out: &mut Tree,
    name: FieldName,
    on: bool,
) -> Result<(), AllocError>
    ensures { OnOk result (out.new ≡ out.old ++ switch_tree name on) }
{
    if on {
        return put_bare(alloc, out, name, "1");
    }
    Ok(())
}

/// The children of an instance.
pub(crate) fn put_children(
    alloc: Global,
    out: &mut Tree,
    children: &[ChildDesc],
) -> Result<(), AllocError>
    ensures { OnOk result (out.new ≡ out.old ++ map child_tree children.now) }
{
    for child in children {
        put_text(alloc, out, FieldName::Children, child.id.as_str())?;
    }
    Ok(())
}
