//! The build files in order.
ghost use Rattle.std.specs.Prelude.{◌≡◌, ◌++◌, [], ◌∷◌, map, string_bytes, IfOk, OnOk};
ghost use Rattle.dg_build.specs.Contents.{content_of};
ghost use Rattle.dg_build.specs.Paths.{component_path, object_path};
ghost use Rattle.dg_build.specs.Entries.{entry_of};
ghost use Rattle.dg_build.specs.Targets.{targets, target, component_targets, object_targets, collection_targets, game_object_targets, whole_targets};

use crate::contents::{Embedded, different_contents, entries_in, path_in};
use crate::entries::{Entry, collection_text, entries_with_texts, texts_of};
use crate::objects::object_text;
use crate::paths::{
    collection_path, component_path, game_object_path, is_of_collection, object_path, stem_of,
};
use crate::target::{Target, Targets};
use crate::texts::different_texts;
use dg_base::{Datum, Names, Str};
use indexmap::IndexSet;
use sqlite_items::Items;
use std::alloc::{AllocError, Global};

/// The build files of a value of an output `build`, in order: the different contents of embedded components, by
/// type and data, in the order of their first appearance; then for a collection the different texts of its
/// objects likewise; and last the text of the collection or the game object.
///
/// Each object's text is written once for each entry, so on average it takes time linear in the value and in
/// what is written for all its entries, beside the lookups of interned names, and as much memory.
pub fn targets(alloc: Global, built: &Datum, names: &Names) -> Result<Targets, AllocError>
    ensures { IfOk result (λ all. all ≡ targets built.now names.now) }
{
    let stem = stem_of(path_in(built));
    let contents = different_contents(alloc, built)?;
    let mut all = Targets::new(alloc);
    put_component_targets(alloc, &mut all, stem, &contents)?;
    put_whole(alloc, &mut all, stem, &contents, names, built)?;
    Ok(all)
}

// The files behind those of components.
fn put_whole(
    alloc: Global,
    all: &mut Targets,
    stem: &str,
    contents: &IndexSet<Embedded<'_>>,
    names: &Names,
    built: &Datum,
) -> Result<(), AllocError>
    ensures { OnOk result (all.new ≡ all.old ++ whole_targets stem.now (map content_of contents.now.keys) names.now built.now) }
{
    if is_of_collection(path_in(built)) {
        let entries = entries_with_texts(alloc, stem, contents, names, entries_in(built))?;
        put_collection_targets(alloc, all, stem, built, entries.as_slice())
    } else {
        put_game_object_target(alloc, all, stem, contents, names, built)
    }
}

fn put_target(all: &mut Targets, path: String, bytes: Vec<u8>) -> Result<(), AllocError>
    ensures { OnOk result (all.new ≡ all.old ++ target (string_bytes path) bytes.items ∷ []) }
{
    all.push(Target {
        path: Str::of(path),
        bytes: Items::from_vec(bytes),
    })
}

fn put_component_targets(
    alloc: Global,
    all: &mut Targets,
    stem: &str,
    contents: &IndexSet<Embedded<'_>>,
) -> Result<(), AllocError>
    ensures { OnOk result (all.new ≡ all.old ++ component_targets stem.now (map content_of contents.now.keys)) }
{
    for (number, content) in contents.as_slice().iter().enumerate() {
        put_component_target(alloc, all, stem, number, *content)?;
    }
    Ok(())
}

fn put_component_target(
    alloc: Global,
    all: &mut Targets,
    stem: &str,
    number: usize,
    content: Embedded<'_>,
) -> Result<(), AllocError>
    ensures { OnOk result (all.new ≡ all.old ++ target (component_path stem.now number content.entry.kind.now) content.entry.body.now ∷ []) }
{
    let path = component_path(alloc, stem, number, content.kind)?;
    put_target(all, path, Vec::from_slice(alloc, content.body.as_bytes())?)
}

fn put_object_targets(
    alloc: Global,
    all: &mut Targets,
    stem: &str,
    texts: &IndexSet<&[u8]>,
) -> Result<(), AllocError>
    ensures { OnOk result (all.new ≡ all.old ++ object_targets stem.now (map (λ t. t.now) texts.now.keys)) }
{
    for (number, text) in texts.as_slice().iter().enumerate() {
        put_object_target(alloc, all, stem, number, text)?;
    }
    Ok(())
}

fn put_object_target(
    alloc: Global,
    all: &mut Targets,
    stem: &str,
    number: usize,
    text: &[u8],
) -> Result<(), AllocError>
    ensures { OnOk result (all.new ≡ all.old ++ target (object_path stem.now number) text.now ∷ []) }
{
    let path = object_path(alloc, stem, number)?;
    put_target(all, path, Vec::from_slice(alloc, text)?)
}

fn put_collection_targets(
    alloc: Global,
    all: &mut Targets,
    stem: &str,
    built: &Datum,
    entries: &[Entry<'_>],
) -> Result<(), AllocError>
    ensures { OnOk result (all.new ≡ all.old ++ collection_targets stem.now built.now (map entry_of entries.now)) }
{
    let every = texts_of(alloc, entries)?;
    let texts = different_texts(alloc, every.as_slice())?;
    put_object_targets(alloc, all, stem, &texts)?;
    let text = collection_text(alloc, stem, &texts, built, entries)?;
    let path = collection_path(alloc, stem)?;
    put_target(all, path, text)?;
    Ok(())
}

fn put_game_object_target(
    alloc: Global,
    all: &mut Targets,
    stem: &str,
    contents: &IndexSet<Embedded<'_>>,
    names: &Names,
    built: &Datum,
) -> Result<(), AllocError>
    ensures { OnOk result (all.new ≡ all.old ++ game_object_targets stem.now (map content_of contents.now.keys) names.now built.now) }
{
    let text = object_text(alloc, stem, contents, names, Some(built))?;
    put_target(all, game_object_path(alloc, stem)?, text)
}
