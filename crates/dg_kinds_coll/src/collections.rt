//! Collections and their builds.
ghost use Rattle.std.specs.Prelude.{◌≡◌, ◌++◌, map, IfOk, OnOk};
ghost use Rattle.std.specs.Option.{option_copied};
ghost use Rattle.dg_kinds_go.specs.Values.{good_in};
ghost use Rattle.dg_kinds_coll.specs.Collections.{has_text, instance_entry, instance_entries, sub_entries, flat_ids, flat_value, coll_flat, is_collection_path, coll_value, coll_build};

use crate::entries::entry_of;
use crate::named::named_children;
use crate::places::place_in;
use dg_base::{ArgVal, Datum, FaultCode, Fields, Held, Items, Made};
use dg_kinds_go::{
    answers_at, copied, field_in, good_in, has_equals, ids_of, items_in, push_field, push_item,
    text_in, value_at,
};
use dg_labels::labels::{ENTRIES, ID, NAME, PATH, SCALE_ALONG_Z};
use dg_text::{ends_in, is_project_path};
use std::alloc::{AllocError, Global};
use std::collections::BTreeSet;

/// `Collection.flat`: DuplicateId where two of the ids of its instances and of the collections in it are
/// equal, else the entries: one for each instance, which is a child where some instance names its id,
/// and then those of the collections in it. For n ids and c children it takes time n log n + (n + c) log
/// c, and else time linear in the entries.
pub fn coll_flat(alloc: Global, args: &[ArgVal]) -> Result<Made, AllocError>
    ensures { IfOk result (λ m. m ≡ coll_flat args.now) }
{
    let ids = flat_ids(alloc, args)?;
    if has_equals(alloc, ids.as_slice())? {
        return Ok(Made::Fault(FaultCode::DuplicateId));
    }
    let value = flat_value(alloc, args)?;
    Ok(Made::good(value))
}

fn flat_ids(alloc: Global, args: &[ArgVal]) -> Result<Vec<&str>, AllocError>
    ensures { IfOk result (λ v. map (λ t. t.now) v.items ≡ flat_ids args.now) }
{
    let mut ids = ids_of(alloc, answers_at(args, 0))?;
    let mut others = ids_of(alloc, answers_at(args, 1))?;
    ids.append(&mut others)?;
    Ok(ids)
}

fn flat_value(alloc: Global, args: &[ArgVal]) -> Result<Datum, AllocError>
    ensures { IfOk result (λ d. d ≡ flat_value args.now) }
{
    let mut entries = instance_entries(alloc, answers_at(args, 0))?;
    push_sub_entries(alloc, &mut entries, answers_at(args, 1))?;
    Ok(Datum::List(entries))
}

fn instance_entries(alloc: Global, instances: &[Held]) -> Result<Items, AllocError>
    ensures { IfOk result (λ all. all ≡ instance_entries (map good_in instances.now)) }
{
    let named = named_children(alloc, instances)?;
    entries_by(alloc, &named, instances)
}

fn entries_by(
    alloc: Global,
    named: &BTreeSet<&str>,
    instances: &[Held],
) -> Result<Items, AllocError>
    ensures { IfOk result (λ all. all ≡ map (instance_entry (has_text named.now)) (map good_in instances.now)) }
{
    let mut all = Items::new(alloc);
    for held in instances {
        let entry = instance_entry(alloc, named, good_in(held.answer()))?;
        push_item(&mut all, entry)?;
    }
    Ok(all)
}

fn instance_entry(
    alloc: Global,
    named: &BTreeSet<&str>,
    instance: Option<&Datum>,
) -> Result<Datum, AllocError>
    ensures { IfOk result (λ d. d ≡ instance_entry (has_text named.now) (option_copied instance.entry)) }
{
    let child = named.contains(text_in(field_in(instance, ID)));
    entry_of(alloc, "/", child, &place_in(instance), instance)
}

fn push_sub_entries(alloc: Global, all: &mut Items, subs: &[Held]) -> Result<(), AllocError>
    ensures { OnOk result (all.new ≡ all.old ++ sub_entries (map good_in subs.now)) }
{
    for held in subs {
        let entries = items_in(field_in(good_in(held.answer()), ENTRIES));
        push_copies(alloc, all, entries)?;
    }
    Ok(())
}

fn push_copies(alloc: Global, all: &mut Items, items: &[Datum]) -> Result<(), AllocError>
    ensures { OnOk result (all.new ≡ all.old ++ items.now) }
{
    for item in items {
        push_item(all, item.copy(alloc)?)?;
    }
    Ok(())
}

/// `Collection.build`: the path, the name, whether it scales along z, and the entries, or BadName where
/// the path isn't a project path that ends in `.collection`.
pub fn coll_build(alloc: Global, args: &[ArgVal]) -> Result<Made, AllocError>
    ensures { IfOk result (λ m. m ≡ coll_build args.now) }
{
    if is_collection_path(alloc, text_in(value_at(args, 0)))? {
        let value = coll_value(alloc, args)?;
        Ok(Made::good(value))
    } else {
        Ok(Made::Fault(FaultCode::BadName))
    }
}

fn is_collection_path(alloc: Global, path: &str) -> Result<bool, AllocError>
    ensures { IfOk result (λ b. b ≡ is_collection_path path.now) }
{
    let is_path = is_project_path(alloc, path)?;
    Ok(is_path && ends_in(path, ".collection"))
}

fn coll_value(alloc: Global, args: &[ArgVal]) -> Result<Datum, AllocError>
    ensures { IfOk result (λ d. d ≡ coll_value args.now) }
{
    let mut fields = Fields::new(alloc);
    push_field(&mut fields, PATH, copied(alloc, value_at(args, 0))?)?;
    push_field(&mut fields, NAME, copied(alloc, value_at(args, 1))?)?;
    push_field(
        &mut fields,
        SCALE_ALONG_Z,
        copied(alloc, value_at(args, 2))?,
    )?;
    push_field(&mut fields, ENTRIES, copied(alloc, value_at(args, 3))?)?;
    Ok(Datum::Rec(fields))
}
