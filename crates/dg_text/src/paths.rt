//! Project paths.
ghost use Rattle.std.specs.Prelude.{◌≡◌, map, IfOk};
ghost use Rattle.std.specs.List.{slice_split, list_all};
ghost use Rattle.dg_text.specs.Paths.{is_slash, is_segment, are_segments, is_project_path, ends_in};

use std::alloc::{AllocError, Global};

/// Whether a path begins with a slash, and what stands behind each of its slashes, up to the next one or
/// the end, is not empty, not one point and not two points. It takes time linear in the path.
pub fn is_project_path(alloc: Global, path: &str) -> Result<bool, AllocError>
    ensures { IfOk result (λ b. b ≡ is_project_path path.now) }
{
    let parts = parts_of(alloc, path.as_bytes())?;
    Ok(are_segments(parts.as_slice()))
}

fn parts_of(alloc: Global, path: &[u8]) -> Result<Vec<&[u8]>, AllocError>
    ensures { IfOk result (λ v. map (λ s. s.now) v.items ≡ slice_split is_slash path.now) }
{
    path.split(|b| *b == b'/').collect(alloc)
}

fn are_segments(parts: &[&[u8]]) -> bool
    ensures { result ≡ are_segments (map (λ s. s.now) parts.now) }
{
    match parts {
        [before, segments @ ..] => before.is_empty()
            && !segments.is_empty()
            && all_segments(segments),
        [] => false,
    }
}

fn all_segments(segments: &[&[u8]]) -> bool
    ensures { result ≡ list_all is_segment (map (λ s. s.now) segments.now) }
{
    for segment in segments {
        if !is_segment(segment) {
            return false;
        }
    }
    true
}

fn is_segment(segment: &[u8]) -> bool
    ensures { result ≡ is_segment segment.now }
{
    !segment.is_empty() && segment != b".".as_slice() && segment != b"..".as_slice()
}

/// Whether the last bytes of a path are this ending.
pub fn ends_in(path: &str, ending: &str) -> bool
    ensures { result ≡ ends_in path.now ending.now }
{
    path.as_bytes().ends_with(ending.as_bytes())
}
