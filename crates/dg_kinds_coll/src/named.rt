//! The ids that instances name as their children, as a set.
ghost use Rattle.std.specs.Prelude.{◌≡◌, ◌||◌, ℕ, List, Some, map, bytes_eq, IfOk, OnOk};
ghost use Rattle.std.specs.List.{list_any};
ghost use Rattle.dg_kinds_go.specs.Values.{good_in, text_in};
ghost use Rattle.dg_kinds_coll.specs.Collections.{has_text, is_named};

use dg_base::{Datum, Held};
use dg_kinds_go::{field_in, good_in, items_in, text_in};
use dg_labels::labels::CHILDREN;
use std::alloc::{AllocError, Global};
use std::collections::BTreeSet;

/// All ids that some of the instances names among its children. For c of them it takes time c log c.
pub(crate) fn named_children(
    alloc: Global,
    instances: &[Held],
) -> Result<BTreeSet<&str>, AllocError>
    ensures { IfOk result (λ set. (id : List ℕ) → has_text set id ≡ is_named (map good_in instances.now) id) }
{
    let mut named: BTreeSet<&str> = BTreeSet::new(alloc);
    for held in instances {
        let children = items_in(field_in(good_in(held.answer()), CHILDREN));
        put_texts(&mut named, children)?;
    }
    Ok(named)
}

fn put_texts<'a>(named: &mut BTreeSet<&'a str>, texts: &'a [Datum]) -> Result<(), AllocError>
    ensures { OnOk result ((id : List ℕ) → has_text named.new id ≡ (list_any (λ c. bytes_eq c id) (map (λ t. text_in (Some t)) texts.now) || has_text named.old id)) }
{
    for text in texts {
        match named.insert(text_in(Some(text))) {
            Ok(_) => {}
            Err(_) => return Err(AllocError),
        }
    }
    Ok(())
}
