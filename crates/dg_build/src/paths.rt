//! The paths of build files.
ghost use Rattle.std.specs.Prelude.{◌≡◌, string_bytes, IfOk};
ghost use Rattle.dg_build.specs.Paths.{is_of_collection, without_ending, stem_of, component_path, object_path, resource_path, collection_path, game_object_path};

use dg_text::ends_in;
use std::alloc::{AllocError, Global};

/// Whether a path is that of a collection's file.
pub(crate) fn is_of_collection(path: &str) -> bool
    ensures { result ≡ is_of_collection path.now }
{
    ends_in(path, ".collection")
}

/// A path without its ending.
pub(crate) fn stem_of(path: &str) -> &str
    ensures { result.now ≡ stem_of path.now }
{
    if is_of_collection(path) {
        without_ending(path, ".collection")
    } else {
        without_ending(path, ".go")
    }
}

fn without_ending<'a>(path: &'a str, ending: &str) -> &'a str
    ensures { result.now ≡ without_ending path.now ending.now }
{
    match path.strip_suffix(ending) {
        Some(rest) => rest,
        None => path,
    }
}

/// The path of the content of this type with this number.
pub(crate) fn component_path(
    alloc: Global,
    stem: &str,
    number: usize,
    kind: &str,
) -> Result<String, AllocError>
    ensures { IfOk result (λ s. string_bytes s ≡ component_path stem.now number kind.now) }
{
    format!(in alloc; "{stem}_component_{number}.{kind}c")
}

/// The path of the object's text with this number.
pub(crate) fn object_path(alloc: Global, stem: &str, number: usize) -> Result<String, AllocError>
    ensures { IfOk result (λ s. string_bytes s ≡ object_path stem.now number) }
{
    format!(in alloc; "{stem}_object_{number}.goc")
}

/// The path of what a resource is built as.
pub(crate) fn resource_path(alloc: Global, path: &str) -> Result<String, AllocError>
    ensures { IfOk result (λ s. string_bytes s ≡ resource_path path.now) }
{
    format!(in alloc; "{path}c")
}

/// The path of a collection's text.
pub(crate) fn collection_path(alloc: Global, stem: &str) -> Result<String, AllocError>
    ensures { IfOk result (λ s. string_bytes s ≡ collection_path stem.now) }
{
    format!(in alloc; "{stem}.collectionc")
}

/// The path of a game object's text.
pub(crate) fn game_object_path(alloc: Global, stem: &str) -> Result<String, AllocError>
    ensures { IfOk result (λ s. string_bytes s ≡ game_object_path stem.now) }
{
    format!(in alloc; "{stem}.goc")
}
