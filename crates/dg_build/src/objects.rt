//! The texts of objects.
ghost use Rattle.std.specs.Prelude.{◌≡◌, ◌++◌, map, flat_map, filter_map, Some, string_bytes, IfOk, OnOk};
ghost use Rattle.std.specs.Option.{option_copied, option_to_list};
ghost use Rattle.dg_base.specs.Rule.{prop_of};
ghost use Rattle.dg_build.specs.Contents.{content_of};
ghost use Rattle.dg_build.specs.Lines.{property_line};
ghost use Rattle.dg_build.specs.Objects.{built_path, component_lines, object_text};

use crate::contents::{Embedded, components_in, content_in, place_of};
use crate::lines::{put_component_line, put_property_line};
use crate::paths::{component_path, resource_path};
use dg_base::{Datum, Names};
use dg_kinds_coll::place_in;
use dg_kinds_go::{field_in, items_in, text_in};
use dg_labels::labels::{ID, PATH, PROPS};
use indexmap::IndexSet;
use std::alloc::{AllocError, Global};

/// The text of an object, whose embedded components are among these contents.
pub(crate) fn object_text(
    alloc: Global,
    stem: &str,
    contents: &IndexSet<Embedded<'_>>,
    names: &Names,
    object: Option<&Datum>,
) -> Result<Vec<u8>, AllocError>
    ensures { IfOk result (λ v. v.items ≡ object_text stem.now (map content_of contents.now.keys) names.now (option_copied object.entry)) }
{
    let mut out = Vec::new(alloc);
    out.extend_from_slice(b"object\n")?;
    put_components(
        alloc,
        &mut out,
        stem,
        contents,
        names,
        components_in(object),
    )?;
    Ok(out)
}

fn put_components(
    alloc: Global,
    out: &mut Vec<u8>,
    stem: &str,
    contents: &IndexSet<Embedded<'_>>,
    names: &Names,
    components: &[Datum],
) -> Result<(), AllocError>
    ensures { OnOk result (out.new.items ≡ out.old.items ++ flat_map (component_lines stem.now (map content_of contents.now.keys) names.now) components.now) }
{
    for component in components {
        put_component(alloc, out, stem, contents, names, component)?;
    }
    Ok(())
}

fn put_component(
    alloc: Global,
    out: &mut Vec<u8>,
    stem: &str,
    contents: &IndexSet<Embedded<'_>>,
    names: &Names,
    component: &Datum,
) -> Result<(), AllocError>
    ensures { OnOk result (out.new.items ≡ out.old.items ++ component_lines stem.now (map content_of contents.now.keys) names.now component.now) }
{
    let path = built_path(alloc, stem, contents, component)?;
    let id = text_in(field_in(Some(component), ID));
    put_component_line(out, id, &path, &place_in(Some(component)))?;
    put_property_lines(out, items_in(field_in(Some(component), PROPS)), names)
}

// The path of an embedded component's content, or of what a resource is built as.
fn built_path(
    alloc: Global,
    stem: &str,
    contents: &IndexSet<Embedded<'_>>,
    component: &Datum,
) -> Result<String, AllocError>
    ensures { IfOk result (λ s. string_bytes s ≡ built_path stem.now (map content_of contents.now.keys) component.now) }
{
    match content_in(component) {
        Some(content) => component_path(alloc, stem, place_of(contents, content), content.kind),
        None => resource_path(alloc, text_in(field_in(Some(component), PATH))),
    }
}

fn put_property_lines(out: &mut Vec<u8>, props: &[Datum], names: &Names) -> Result<(), AllocError>
    ensures { OnOk result (out.new.items ≡ out.old.items ++ flat_map (property_line names.now) (filter_map prop_of props.now)) }
{
    for item in props {
        put_item_line(out, item, names)?;
    }
    Ok(())
}

// The line of a value that is an open property.
fn put_item_line(out: &mut Vec<u8>, item: &Datum, names: &Names) -> Result<(), AllocError>
    ensures { OnOk result (out.new.items ≡ out.old.items ++ flat_map (property_line names.now) (option_to_list (prop_of item.now))) }
{
    match item {
        Datum::Prop(prop) => put_property_line(out, prop, names),
        _ => Ok(()),
    }
}
