//! The lines of build files.
ghost use Rattle.std.specs.Prelude.{◌≡◌, ◌++◌, cond, codes, OnOk};
ghost use Rattle.dg_text.specs.Quoted.{quoted};
ghost use Rattle.dg_report.specs.Parts.{label_text};
ghost use Rattle.dg_build.specs.Lines.{next_number, vec3_numbers, quat_numbers, line_begin, component_line, property_line, collection_line, object_line, child_line};

use dg_base::{Label, Names, PropVal, V3, V4};
use dg_geom::Transform;
use dg_report::{name_of, put_number, type_word};
use dg_text::put_quoted;
use itoa::Buffer;
use std::alloc::AllocError;

fn put_next(out: &mut Vec<u8>, number: &i64) -> Result<(), AllocError>
    ensures { OnOk result (out.new.items ≡ out.old.items ++ next_number number.now) }
{
    out.push(b' ')?;
    put_number(out, number)
}

fn put_vec3(out: &mut Vec<u8>, v: &V3) -> Result<(), AllocError>
    ensures { OnOk result (out.new.items ≡ out.old.items ++ vec3_numbers v.now) }
{
    put_next(out, &v.x)?;
    put_next(out, &v.y)?;
    put_next(out, &v.z)
}

fn put_quat(out: &mut Vec<u8>, v: &V4) -> Result<(), AllocError>
    ensures { OnOk result (out.new.items ≡ out.old.items ++ quat_numbers v.now) }
{
    put_next(out, &v.x)?;
    put_next(out, &v.y)?;
    put_next(out, &v.z)?;
    put_next(out, &v.w)
}

// A word, an id and a path.
fn put_line_begin(out: &mut Vec<u8>, word: &str, id: &str, path: &str) -> Result<(), AllocError>
    ensures { OnOk result (out.new.items ≡ out.old.items ++ line_begin word.now id.now path.now) }
{
    out.extend_from_slice(word.as_bytes())?;
    out.push(b' ')?;
    put_quoted(out, id)?;
    out.push(b' ')?;
    put_quoted(out, path)
}

/// The line of a component: its id, the path of what it is made of, and where it stands.
pub(crate) fn put_component_line(
    out: &mut Vec<u8>,
    id: &str,
    path: &str,
    place: &Transform,
) -> Result<(), AllocError>
    ensures { OnOk result (out.new.items ≡ out.old.items ++ component_line id.now path.now place.now) }
{
    put_line_begin(out, "component", id, path)?;
    put_vec3(out, &place.position)?;
    put_quat(out, &place.rotation)?;
    out.push(b'\n')?;
    Ok(())
}

/// The line of an open property: its name, its type word and its text.
pub(crate) fn put_property_line(
    out: &mut Vec<u8>,
    prop: &PropVal,
    names: &Names,
) -> Result<(), AllocError>
    ensures { OnOk result (out.new.items ≡ out.old.items ++ property_line names.now prop.now) }
{
    out.extend_from_slice(b"property ")?;
    put_name(out, prop.name, names)?;
    out.push(b' ')?;
    out.extend_from_slice(type_word(prop.ptype).as_bytes())?;
    out.push(b' ')?;
    put_quoted(out, prop.text.as_str())?;
    out.push(b'\n')?;
    Ok(())
}

// The quoted name of a label, which is its number where it has none.
fn put_name(out: &mut Vec<u8>, label: Label, names: &Names) -> Result<(), AllocError>
    ensures { OnOk result (out.new.items ≡ out.old.items ++ quoted (label_text names.now label)) }
{
    match name_of(label, names) {
        Some(name) => put_quoted(out, name),
        None => put_quoted(out, Buffer::new().format(label.0)),
    }
}

/// The line of a collection: its name, and whether it scales along z.
pub(crate) fn put_collection_line(
    out: &mut Vec<u8>,
    name: &str,
    along_z: bool,
) -> Result<(), AllocError>
    ensures { OnOk result (out.new.items ≡ out.old.items ++ collection_line name.now along_z) }
{
    out.extend_from_slice(b"collection ")?;
    put_quoted(out, name)?;
    put_flag(out, along_z)
}

fn put_flag(out: &mut Vec<u8>, flag: bool) -> Result<(), AllocError>
    ensures { OnOk result (out.new.items ≡ out.old.items ++ cond flag (codes " 1\n") (codes " 0\n")) }
{
    out.extend_from_slice(if flag { " 1\n" } else { " 0\n" }.as_bytes())
}

/// The line of an object in a collection: its id, the path of its text, and where it stands.
pub(crate) fn put_object_line(
    out: &mut Vec<u8>,
    id: &str,
    path: &str,
    place: &Transform,
) -> Result<(), AllocError>
    ensures { OnOk result (out.new.items ≡ out.old.items ++ object_line id.now path.now place.now) }
{
    put_line_begin(out, "object", id, path)?;
    put_vec3(out, &place.position)?;
    put_quat(out, &place.rotation)?;
    put_vec3(out, &place.scale)?;
    out.push(b'\n')?;
    Ok(())
}

/// The line of a child.
pub(crate) fn put_child_line(out: &mut Vec<u8>, id: &str) -> Result<(), AllocError>
    ensures { OnOk result (out.new.items ≡ out.old.items ++ child_line id.now) }
{
    out.extend_from_slice(b"child ")?;
    put_quoted(out, id)?;
    out.push(b'\n')?;
    Ok(())
}
