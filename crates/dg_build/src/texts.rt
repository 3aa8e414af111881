//! The different texts of a collection's objects.
ghost use Rattle.std.specs.Prelude.{◌≡◌, [], map, bytes_eq, IfOk};
ghost use Rattle.indexmap.specs.IndexSet.{insert_all};
ghost use Rattle.dg_build.specs.Firsts.{firsts, place_of};

use indexmap::IndexSet;
use std::alloc::{AllocError, Global};

/// The different texts in the order of their first appearance, in time linear in their bytes on average.
pub(crate) fn different_texts<'a>(
    alloc: Global,
    texts: &[&'a [u8]],
) -> Result<IndexSet<&'a [u8]>, AllocError>
    ensures { IfOk result (λ s. map (λ t. t.now) s.keys ≡ firsts bytes_eq (map (λ t. t.now) texts.now)) }
{
    let once = each_once(alloc, texts)?;
    Ok(once)
}

fn each_once<'a>(alloc: Global, texts: &[&'a [u8]]) -> Result<IndexSet<&'a [u8]>, AllocError>
    ensures { IfOk result (λ s. s.keys ≡ insert_all (λ a b. bytes_eq a.now b.now) [] texts.now) }
{
    let mut once = IndexSet::new(alloc);
    for text in texts {
        once.insert(*text)?;
    }
    Ok(once)
}

/// The place of a text among the different ones.
pub(crate) fn place_of(texts: &IndexSet<&[u8]>, text: &[u8]) -> usize
    ensures { result ≡ place_of bytes_eq (map (λ t. t.now) texts.now.keys) text.now }
{
    texts.get_index_of(&text).unwrap_or(0)
}
