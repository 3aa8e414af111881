//! The answers by endpoint, in a map that snapshots share.
ghost use Rattle.std.specs.Prelude.{◌≡◌, ◌<◌, ◌∷◌, IfOk, OnOk, IsTrue, length, slice_get};
ghost use Rattle.std.specs.Option.{option_copied};
ghost use Rattle.dg_base.specs.Order.{ends_rise};
ghost use Rattle.dg_cache.specs.Entries.{ends_of, ends_once, in_order, others, value_in, without};
ghost use Rattle.dg_cache.specs.Layout.{entries_from, leaving};

use crate::Entry;
use dg_base::{Endpoint, Held};
use dg_pmap::{Kept, PMap};
use std::alloc::{AllocError, Global};

/// The answers by endpoint. A share of the map is had in constant time, and none changes through
/// another.
pub(crate) type Values = PMap<Endpoint, Kept<Held>>;

/// In logarithmic time.
pub(crate) fn get(values: &Values, at: Endpoint) -> Option<&Held>
    ensures { option_copied result ≡ value_in (entries_from values.now) at }
{
    match values.get(&at) {
        Some(kept) => Some(kept.value()),
        None => None,
    }
}

/// Puts an entry in place of the one of its endpoint, and drops the entry of another one, if one is
/// named. In logarithmic time.
pub(crate) fn put(
    values: &mut Values,
    alloc: Global,
    entry: Entry,
    gone: Option<Endpoint>,
) -> Result<(), AllocError>
    requires { IsTrue (ends_rise (ends_of (entries_from values.old))) }
    ensures { OnOk result (entries_from values.new ≡ in_order (entry ∷ others entry.at (leaving gone (entries_from values.old)))) }
{
    leave(values, gone)?;
    insert(values, alloc, entry)
}

fn leave(values: &mut Values, gone: Option<Endpoint>) -> Result<(), AllocError>
    requires { IsTrue (ends_once (ends_of (entries_from values.old))) }
    ensures { OnOk result (entries_from values.new ≡ leaving gone (entries_from values.old)) }
{
    match gone {
        Some(end) => take_out(values, end),
        None => Ok(()),
    }
}

fn insert(values: &mut Values, alloc: Global, entry: Entry) -> Result<(), AllocError>
    requires { IsTrue (ends_rise (ends_of (entries_from values.old))) }
    ensures { OnOk result (entries_from values.new ≡ in_order (entry ∷ others entry.at (entries_from values.old))) }
{
    let kept = Kept::new(alloc, entry.value)?;
    values.insert(entry.at, kept)?;
    Ok(())
}

/// Takes an endpoint's entry out. In logarithmic time.
pub(crate) fn take_out(values: &mut Values, at: Endpoint) -> Result<(), AllocError>
    requires { IsTrue (ends_once (ends_of (entries_from values.old))) }
    ensures { OnOk result (entries_from values.new ≡ others at (entries_from values.old)) }
{
    values.remove(&at)?;
    Ok(())
}

/// Takes the entries of some endpoints out, in logarithmic time for each of these.
pub(crate) fn take_out_all(values: &mut Values, gone: &[Endpoint]) -> Result<(), AllocError>
    requires { IsTrue (ends_once (ends_of (entries_from values.old))) }
    ensures { OnOk result (entries_from values.new ≡ without gone.now (entries_from values.old)) }
{
    for end in gone.iter() {
        take_out(values, *end)?;
    }
    Ok(())
}

/// The entries, shared, in endpoint order.
pub(crate) fn entries_of(values: &Values, alloc: Global) -> Result<Vec<Entry>, AllocError>
    ensures { IfOk result (λ v. v.items ≡ entries_from values.now) }
{
    let mut entries = Vec::with_capacity(alloc, values.len())?;
    for place in 0..values.len() {
        if let Some(entry) = entry_at(values, place)? {
            entries.push(entry)?;
        }
    }
    Ok(entries)
}

fn entry_at(values: &Values, place: usize) -> Result<Option<Entry>, AllocError>
    ensures { IfOk result (λ x. x ≡ slice_get (entries_from values.now) place) }
{
    match values.at(place) {
        Some((at, kept)) => {
            let value = kept.value().share()?;
            Ok(Some(Entry { at: *at, value }))
        }
        None => Ok(None),
    }
}
