//! Words that are paths.
ghost use Rattle.std.specs.Prelude.{◌≡◌, IfOk, string_bytes, count_by, option_map};
ghost use Rattle.dg_base.specs.Refusal.{Gives};
ghost use Rattle.dg_words.specs.Paths.{rooted, path_of, is_at, is_built, is_formatted, built_path_of, formatted_path_of};

use crate::task::Usage;
use dg_base::{Refusal, Str};
use dg_text::{ends_in, is_project_path};
use std::alloc::{AllocError, Global};

/// The most bytes of a path that is built, with its slash.
const BUILT_BYTES: usize = 16_382;

/// The most `@` of a path that is built.
const BUILT_MARKS: usize = 64;

/// The endings of the files that can be formatted.
const GAME_OBJECT: &str = ".go";

const COLLECTION: &str = ".collection";

/// The path, with a slash before it where it has none.
fn rooted(alloc: Global, path: &str) -> Result<String, AllocError>
    ensures { IfOk result (λ p. string_bytes p ≡ rooted path.now) }
{
    match path.as_bytes().first() {
        Some(b'/') => String::from_str(alloc, path),
        _ => {
            let mut rooted = String::from_str(alloc, "/")?;
            rooted.push_str(path)?;
            Ok(rooted)
        }
    }
}

/// The project path that a word is, with a slash before it where it has none.
pub(crate) fn path_of(alloc: Global, text: Option<&str>) -> Result<Str, Refusal<Usage>>
    ensures { Gives (λ p. p) result (path_of (option_map (λ s. s.now) text.entry)) }
{
    let Some(text) = text else {
        return Err(Refusal::Because(Usage));
    };
    let path = rooted(alloc, text)?;
    if is_project_path(alloc, path.as_str())? {
        Ok(Str::of(path))
    } else {
        Err(Refusal::Because(Usage))
    }
}

/// How many `@` a path has.
fn marks_in(path: &[u8]) -> usize
    ensures { result ≡ count_by is_at path.now }
{
    path.iter().filter(|b| **b == b'@').count()
}

/// Whether a path can be built, by its length and its `@`.
fn is_built(path: &str) -> bool
    ensures { result ≡ is_built path.now }
{
    path.len() <= BUILT_BYTES && marks_in(path.as_bytes()) <= BUILT_MARKS
}

/// The path that `build` takes.
pub(crate) fn built_path_of(alloc: Global, text: Option<&str>) -> Result<Str, Refusal<Usage>>
    ensures { Gives (λ p. p) result (built_path_of (option_map (λ s. s.now) text.entry)) }
{
    let path = path_of(alloc, text)?;
    if is_built(path.as_str()) {
        Ok(path)
    } else {
        Err(Refusal::Because(Usage))
    }
}

/// Whether a path is that of a file that can be formatted, by its ending.
fn is_formatted(path: &str) -> bool
    ensures { result ≡ is_formatted path.now }
{
    ends_in(path, GAME_OBJECT) || ends_in(path, COLLECTION)
}

/// The path that `format` takes.
pub(crate) fn formatted_path_of(alloc: Global, text: Option<&str>) -> Result<Str, Refusal<Usage>>
    ensures { Gives (λ p. p) result (formatted_path_of (option_map (λ s. s.now) text.entry)) }
{
    let path = path_of(alloc, text)?;
    if is_formatted(path.as_str()) {
        Ok(path)
    } else {
        Err(Refusal::Because(Usage))
    }
}
