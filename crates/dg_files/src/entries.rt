//! Files with their bytes, as they are kept in memory.
ghost use Rattle.std.specs.Prelude.{◌≡◌, ◌++◌, ℕ, IfOk, OnOk, OnErr};
ghost use Rattle.std.specs.Option.{option_map};
ghost use Rattle.dg_files.specs.Tree.{are_distinct, bytes_at, listed, written};
ghost use Rattle.dg_files.specs.Kept.{tree_of, place_in};

use super::files::Paths;
use super::listed::is_listed;
use dg_base::Str;
use sqlite_items::at;
use std::alloc::{AllocError, Global};

/// How many files stand before that of the path, which is all of them where there is none.
pub fn place_in(files: &[(String, Vec<u8>)], path: &str) -> usize
    ensures { result ≡ place_in (tree_of files.now) path.now }
{
    for (place, file) in files.iter().enumerate() {
        if file.0.as_str() == path {
            return place;
        }
    }
    files.len()
}

/// The bytes of the file at the path.
pub fn bytes_at<'a>(files: &'a [(String, Vec<u8>)], path: &str) -> Option<&'a [u8]>
    ensures { option_map (λ b. b.now) result ≡ bytes_at (tree_of files.now) path.now }
{
    match at(files, place_in(files, path)) {
        Some(file) => Some(file.1.as_slice()),
        None => None,
    }
}

/// Whether no path stands twice, in time quadratic in the number of the files.
pub fn are_distinct(files: &[(String, Vec<u8>)]) -> bool
    ensures { result ≡ are_distinct (tree_of files.now) }
{
    let mut rest = files;
    while let Some((file, others)) = rest.split_first() {
        if bytes_at(others, &file.0).is_some() {
            return false;
        }
        rest = others;
    }
    true
}

/// The paths that a listing gives.
pub fn listed_paths(alloc: Global, files: &[(String, Vec<u8>)]) -> Result<Paths, AllocError>
    ensures { IfOk result (λ paths. paths ≡ listed (tree_of files.now)) }
{
    let mut paths = Paths::new(alloc);
    for file in files {
        if is_listed(&file.0) {
            paths.push(Str::of(file.0.clone()?))?;
        }
    }
    Ok(paths)
}

/// Puts the bytes at the path.
pub fn put_bytes(
    alloc: Global,
    files: &mut Vec<(String, Vec<u8>)>,
    path: &str,
    bytes: &[u8],
) -> Result<(), AllocError>
    ensures ok { OnOk result (tree_of files.new.items ≡ written (tree_of files.old.items) path.now bytes.now) }
    ensures err { OnErr result (files.new.items ≡ files.old.items) }
{
    let place = place_in(files, path);
    let kept = Vec::from_slice(alloc, bytes)?;
    if place < files.len() {
        files[place].1 = kept;
    } else {
        let name = String::from_str(alloc, path)?;
        files.push((name, kept))?;
    }
    Ok(())
}
