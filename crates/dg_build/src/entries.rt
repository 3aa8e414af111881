//! The text of a collection.
ghost use Rattle.std.specs.Prelude.{◌≡◌, ◌++◌, map, flat_map, Some, IfOk, OnOk};
ghost use Rattle.dg_kinds_go.specs.Values.{text_in};
ghost use Rattle.dg_build.specs.Contents.{content_of};
ghost use Rattle.dg_build.specs.Targets.{entries_with_texts};
ghost use Rattle.dg_build.specs.Lines.{child_line};
ghost use Rattle.dg_build.specs.Entries.{entry_of, entry_lines, collection_text};

use crate::contents::{Embedded, object_in};
use crate::lines::{put_child_line, put_collection_line, put_object_line};
use crate::objects::object_text;
use crate::paths::object_path;
use crate::texts::place_of;
use dg_base::{Datum, Names};
use dg_kinds_coll::{flag_in, place_in};
use dg_kinds_go::{field_in, items_in, text_in};
use dg_labels::labels::{CHILDREN, ID, NAME, SCALE_ALONG_Z};
use indexmap::IndexSet;
use std::alloc::{AllocError, Global};

/// An entry of a collection, with its object's text.
#[derive(Debug, Drop)]
pub(crate) struct Entry<'a> {
    pub(crate) entry: &'a Datum,
    pub(crate) text: Vec<u8>,
}

/// The entries, each with its object's text.
pub(crate) fn entries_with_texts<'a>(
    alloc: Global,
    stem: &str,
    contents: &IndexSet<Embedded<'_>>,
    names: &Names,
    entries: &'a [Datum],
) -> Result<Vec<Entry<'a>>, AllocError>
    ensures { IfOk result (λ v. map entry_of v.items ≡ entries_with_texts stem.now (map content_of contents.now.keys) names.now entries.now) }
{
    let mut all = Vec::with_capacity(alloc, entries.len())?;
    for entry in entries {
        let text = object_text(alloc, stem, contents, names, object_in(entry))?;
        all.push(Entry { entry, text })?;
    }
    Ok(all)
}

/// The text of a collection, whose objects' texts are among these.
pub(crate) fn collection_text(
    alloc: Global,
    stem: &str,
    texts: &IndexSet<&[u8]>,
    built: &Datum,
    entries: &[Entry<'_>],
) -> Result<Vec<u8>, AllocError>
    ensures { IfOk result (λ v. v.items ≡ collection_text stem.now (map (λ t. t.now) texts.now.keys) built.now (map entry_of entries.now)) }
{
    let mut out = Vec::new(alloc);
    let name = text_in(field_in(Some(built), NAME));
    put_collection_line(
        &mut out,
        name,
        flag_in(field_in(Some(built), SCALE_ALONG_Z)),
    )?;
    put_entries(alloc, &mut out, stem, texts, entries)?;
    Ok(out)
}

fn put_entries(
    alloc: Global,
    out: &mut Vec<u8>,
    stem: &str,
    texts: &IndexSet<&[u8]>,
    entries: &[Entry<'_>],
) -> Result<(), AllocError>
    ensures { OnOk result (out.new.items ≡ out.old.items ++ flat_map (entry_lines stem.now (map (λ t. t.now) texts.now.keys)) (map entry_of entries.now)) }
{
    for entry in entries {
        put_entry(alloc, out, stem, texts, entry)?;
    }
    Ok(())
}

fn put_entry(
    alloc: Global,
    out: &mut Vec<u8>,
    stem: &str,
    texts: &IndexSet<&[u8]>,
    entry: &Entry<'_>,
) -> Result<(), AllocError>
    ensures { OnOk result (out.new.items ≡ out.old.items ++ entry_lines stem.now (map (λ t. t.now) texts.now.keys) (entry_of entry.now)) }
{
    let path = object_path(alloc, stem, place_of(texts, entry.text.as_slice()))?;
    let from = Some(entry.entry);
    put_object_line(out, text_in(field_in(from, ID)), &path, &place_in(from))?;
    put_children(out, items_in(field_in(from, CHILDREN)))
}

fn put_children(out: &mut Vec<u8>, children: &[Datum]) -> Result<(), AllocError>
    ensures { OnOk result (out.new.items ≡ out.old.items ++ flat_map child_line (map (λ c. text_in (Some c)) children.now)) }
{
    for child in children {
        put_child_line(out, text_in(Some(child)))?;
    }
    Ok(())
}

/// The texts of the entries' objects, in order.
pub(crate) fn texts_of<'a>(
    alloc: Global,
    entries: &'a [Entry<'_>],
) -> Result<Vec<&'a [u8]>, AllocError>
    ensures { IfOk result (λ v. map (λ t. t.now) v.items ≡ map (λ e. e.1) (map entry_of entries.now)) }
{
    let mut all = Vec::with_capacity(alloc, entries.len())?;
    for entry in entries {
        all.push(entry.text.as_slice())?;
    }
    Ok(all)
}
