//! Paths in order.
ghost use Rattle.std.specs.Prelude.{◌≡◌, ◌++◌, filter, IfOk, OnOk, map, string_bytes};
ghost use Rattle.dg_text.specs.Paths.{is_project_path};
ghost use Rattle.dg_sources.specs.Sorting.{sorted, text_before};
ghost use Rattle.dg_sources.specs.Project.{project_paths};

use crate::source::Reads;
use dg_base::Str;
use dg_text::is_project_path;
use std::alloc::{AllocError, Global};

/// The project paths among those that are listed, in the order of their texts. It takes time linear in the texts times
/// the logarithm of their number.
pub(crate) fn project_paths(alloc: Global, listed: &[Str]) -> Result<Reads<Str>, AllocError>
    ensures { IfOk result (λ paths. paths ≡ project_paths listed.now) }
{
    let mut texts = texts_of(alloc, listed)?;
    sort_texts(&mut texts)?;
    strs_of(alloc, texts.as_slice())
}

fn texts_of(alloc: Global, listed: &[Str]) -> Result<Vec<String>, AllocError>
    ensures { IfOk result (λ texts. map string_bytes texts.items ≡ filter is_project_path listed.now) }
{
    let mut texts = Vec::new(alloc);
    for path in listed {
        if is_project_path(alloc, path.as_str())? {
            texts.push(String::from_str(alloc, path.as_str())?)?;
        }
    }
    Ok(texts)
}

fn sort_texts(texts: &mut Vec<String>) -> Result<(), AllocError>
    ensures { OnOk result (map string_bytes texts.new.items ≡ sorted text_before (map string_bytes texts.old.items)) }
{
    texts.sort()?;
    Ok(())
}

fn strs_of(alloc: Global, texts: &[String]) -> Result<Reads<Str>, AllocError>
    ensures { IfOk result (λ paths. paths ≡ map string_bytes texts.now) }
{
    let mut paths = Reads::new(alloc);
    for text in texts {
        paths.push(Str::of(String::from_str(alloc, text.as_str())?))?;
    }
    Ok(paths)
}
