//! What is built: the objects of a value, and the different contents of the embedded components in them.
ghost use Rattle.std.specs.Prelude.{◌≡◌, ◌++◌, [], map, flat_map, filter_map, Some, IfOk, OnOk};
ghost use Rattle.std.specs.Option.{option_copied, option_map, option_to_list};
ghost use Rattle.indexmap.specs.IndexSet.{insert_all};
ghost use Rattle.dg_build.specs.Firsts.{firsts, place_of};
ghost use Rattle.dg_build.specs.Contents.{path_in, entries_in, object_in, components_in, same_content, same_embedded, content_in, contents_of, contents_in, content_of};

use crate::paths::is_of_collection;
use dg_base::Datum;
use dg_kinds_go::{field_in, items_in, text_in};
use dg_labels::labels::{COMPONENTS, DATA, ENTRIES, OBJECT, PATH, TYPE};
use indexmap::IndexSet;
use std::alloc::{AllocError, Global};

/// The content of an embedded component: its type and its data.
#[derive(Clone, Copy, PartialEq, Eq, Hash, Debug)]
pub(crate) struct Embedded<'a> {
    pub(crate) kind: &'a str,
    pub(crate) body: &'a str,
}

/// The path of the file that is built.
pub(crate) fn path_in(built: &Datum) -> &str
    ensures { result.now ≡ path_in built.now }
{
    text_in(field_in(Some(built), PATH))
}

/// The entries of a collection.
pub(crate) fn entries_in(built: &Datum) -> &[Datum]
    ensures { result.now ≡ entries_in built.now }
{
    items_in(field_in(Some(built), ENTRIES))
}

/// The object of an entry.
pub(crate) fn object_in(entry: &Datum) -> Option<&Datum>
    ensures { option_copied result ≡ object_in entry.now }
{
    field_in(Some(entry), OBJECT)
}

/// The components of an object.
pub(crate) fn components_in(object: Option<&Datum>) -> &[Datum]
    ensures { result.now ≡ components_in (option_copied object.entry) }
{
    items_in(field_in(object, COMPONENTS))
}

/// The content of a component that is embedded.
pub(crate) fn content_in(component: &Datum) -> Option<Embedded<'_>>
    ensures { option_map content_of result ≡ content_in component.now }
{
    match field_in(Some(component), DATA) {
        Some(body) => Some(Embedded {
            kind: text_in(field_in(Some(component), TYPE)),
            body: text_in(Some(body)),
        }),
        None => None,
    }
}

/// The different contents in the order of their first appearance. For n components it takes time linear in n and
/// in the bytes of their contents, on average.
pub(crate) fn different_contents(
    alloc: Global,
    built: &Datum,
) -> Result<IndexSet<Embedded<'_>>, AllocError>
    ensures { IfOk result (λ s. map content_of s.keys ≡ firsts same_content (contents_in built.now)) }
{
    let contents = contents_in(alloc, built)?;
    let once = each_once(alloc, contents.as_slice())?;
    Ok(once)
}

fn each_once<'a>(
    alloc: Global,
    contents: &[Embedded<'a>],
) -> Result<IndexSet<Embedded<'a>>, AllocError>
    ensures { IfOk result (λ s. s.keys ≡ insert_all same_embedded [] contents.now) }
{
    let mut once = IndexSet::new(alloc);
    for content in contents {
        once.insert(*content)?;
    }
    Ok(once)
}

// All contents in order, equal ones too.
fn contents_in(alloc: Global, built: &Datum) -> Result<Vec<Embedded<'_>>, AllocError>
    ensures { IfOk result (λ v. map content_of v.items ≡ contents_in built.now) }
{
    let mut all = Vec::new(alloc);
    push_contents_in(&mut all, built)?;
    Ok(all)
}

fn push_contents_in<'a>(all: &mut Vec<Embedded<'a>>, built: &'a Datum) -> Result<(), AllocError>
    ensures { OnOk result (map content_of all.new.items ≡ map content_of all.old.items ++ contents_in built.now) }
{
    if is_of_collection(path_in(built)) {
        push_all_contents(all, entries_in(built))
    } else {
        push_contents(all, Some(built))
    }
}

fn push_all_contents<'a>(
    all: &mut Vec<Embedded<'a>>,
    entries: &'a [Datum],
) -> Result<(), AllocError>
    ensures { OnOk result (map content_of all.new.items ≡ map content_of all.old.items ++ flat_map (λ e. contents_of (object_in e)) entries.now) }
{
    for entry in entries {
        push_contents(all, object_in(entry))?;
    }
    Ok(())
}

fn push_contents<'a>(
    all: &mut Vec<Embedded<'a>>,
    object: Option<&'a Datum>,
) -> Result<(), AllocError>
    ensures { OnOk result (map content_of all.new.items ≡ map content_of all.old.items ++ contents_of (option_copied object.entry)) }
{
    push_each(all, components_in(object))
}

fn push_each<'a>(all: &mut Vec<Embedded<'a>>, components: &'a [Datum]) -> Result<(), AllocError>
    ensures { OnOk result (map content_of all.new.items ≡ map content_of all.old.items ++ filter_map content_in components.now) }
{
    for component in components {
        push_content(all, component)?;
    }
    Ok(())
}

fn push_content<'a>(all: &mut Vec<Embedded<'a>>, component: &'a Datum) -> Result<(), AllocError>
    ensures { OnOk result (map content_of all.new.items ≡ map content_of all.old.items ++ option_to_list (content_in component.now)) }
{
    match content_in(component) {
        Some(content) => {
            all.push(content)?;
            Ok(())
        }
        None => Ok(()),
    }
}

/// The place of a content among the different ones.
pub(crate) fn place_of(contents: &IndexSet<Embedded<'_>>, content: Embedded<'_>) -> usize
    ensures { result ≡ place_of same_content (map content_of contents.now.keys) (content_of content.entry) }
{
    contents.get_index_of(&content).unwrap_or(0)
}
