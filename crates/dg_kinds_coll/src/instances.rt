//! Instances of game objects and of collections.
ghost use Rattle.std.specs.Prelude.{◌≡◌, Some, map, string_bytes, IfOk};
ghost use Rattle.dg_kinds_go.specs.Values.{good_in, or_nil};
ghost use Rattle.dg_kinds_coll.specs.Instances.{go_instance_value, go_instance_with, go_instance, prefix_of, sub_value, coll_instance_with, coll_instance};

use crate::entries::moved_entries;
use crate::places::place_at;
use dg_base::{ArgVal, Datum, FaultCode, Fields, Held, Items, Made};
use dg_kinds_go::{
    answers_at, copied, good_in, items_in, push_field, push_item, text_in, value_at,
};
use dg_labels::labels::{CHILDREN, ENTRIES, ID, OBJECT, POSITION, ROTATION, SCALE3};
use std::alloc::{AllocError, Global};

/// `GoInstance.instance`: NoResource without a source, else the id, the place, the children's ids and
/// the game object.
pub fn go_instance(alloc: Global, args: &[ArgVal]) -> Result<Made, AllocError>
    ensures { IfOk result (λ m. m ≡ go_instance args.now) }
{
    match value_at(args, 4) {
        Some(object) => {
            let value = go_instance_value(alloc, args, object)?;
            Ok(Made::good(value))
        }
        None => Ok(Made::Fault(FaultCode::NoResource)),
    }
}

fn go_instance_value(alloc: Global, args: &[ArgVal], object: &Datum) -> Result<Datum, AllocError>
    ensures { IfOk result (λ d. d ≡ go_instance_value args.now object.now) }
{
    let mut fields = Fields::new(alloc);
    push_field(&mut fields, ID, copied(alloc, value_at(args, 0))?)?;
    push_field(&mut fields, POSITION, copied(alloc, value_at(args, 1))?)?;
    push_field(&mut fields, ROTATION, copied(alloc, value_at(args, 2))?)?;
    push_field(&mut fields, SCALE3, copied(alloc, value_at(args, 3))?)?;
    let children = copied_values(alloc, answers_at(args, 5))?;
    push_field(&mut fields, CHILDREN, Datum::List(children))?;
    push_field(&mut fields, OBJECT, object.copy(alloc)?)?;
    Ok(Datum::Rec(fields))
}

fn copied_values(alloc: Global, answers: &[Held]) -> Result<Items, AllocError>
    ensures { IfOk result (λ all. all ≡ map or_nil (map good_in answers.now)) }
{
    let mut all = Items::new(alloc);
    for held in answers {
        push_item(&mut all, copied(alloc, good_in(held.answer()))?)?;
    }
    Ok(all)
}

/// `CollInstance.instance`: NoResource without a source, Range where the numbers of an entry that moves
/// along are out of range, else the id and the source's entries in their order, each with `/`, the id
/// before its own id and its children's ids. It takes time linear in the entries and their children.
pub fn coll_instance(alloc: Global, args: &[ArgVal]) -> Result<Made, AllocError>
    ensures { IfOk result (λ m. m ≡ coll_instance args.now) }
{
    match value_at(args, 4) {
        Some(flat) => coll_instance_with(alloc, args, flat),
        None => Ok(Made::Fault(FaultCode::NoResource)),
    }
}

fn coll_instance_with(alloc: Global, args: &[ArgVal], flat: &Datum) -> Result<Made, AllocError>
    ensures { IfOk result (λ m. m ≡ coll_instance_with args.now (Some flat.now)) }
{
    let prefix = prefix_of(alloc, text_in(value_at(args, 0)))?;
    let place = place_at(args);
    match moved_entries(alloc, prefix.as_str(), &place, items_in(Some(flat)))? {
        Some(entries) => {
            let value = sub_value(alloc, args, entries)?;
            Ok(Made::good(value))
        }
        None => Ok(Made::Fault(FaultCode::Range)),
    }
}

fn prefix_of(alloc: Global, id: &str) -> Result<String, AllocError>
    ensures { IfOk result (λ t. string_bytes t ≡ prefix_of id.now) }
{
    let mut prefix = String::from_str(alloc, "/")?;
    prefix.push_str(id)?;
    Ok(prefix)
}

fn sub_value(alloc: Global, args: &[ArgVal], entries: Items) -> Result<Datum, AllocError>
    ensures { IfOk result (λ d. d ≡ sub_value args.now entries) }
{
    let mut fields = Fields::new(alloc);
    push_field(&mut fields, ID, copied(alloc, value_at(args, 0))?)?;
    push_field(&mut fields, ENTRIES, Datum::List(entries))?;
    Ok(Datum::Rec(fields))
}
