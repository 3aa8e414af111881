//! Game objects and their builds.
ghost use Rattle.std.specs.Prelude.{◌≡◌, map, IfOk};
ghost use Rattle.dg_kinds_go.specs.Values.{good_in, or_nil};
ghost use Rattle.dg_kinds_go.specs.Objects.{has_equals, id_in, object_value, go_object, is_go_path, go_build};

use crate::values::{
    answers_at, copied, field_in, good_in, push_field, push_item, text_in, value_at,
};
use dg_base::{ArgVal, Datum, FaultCode, Fields, Held, Items, Made};
use dg_labels::labels::{COMPONENTS, ID, PATH};
use dg_text::{ends_in, is_project_path};
use std::alloc::{AllocError, Global};
use std::collections::BTreeSet;

/// `GameObject.object`: DuplicateId where two components have equal ids, else the path and the
/// components in order.
pub fn go_object(alloc: Global, args: &[ArgVal]) -> Result<Made, AllocError>
    ensures { IfOk result (λ m. m ≡ go_object args.now) }
{
    let ids = ids_of(alloc, answers_at(args, 1))?;
    if has_equals(alloc, ids.as_slice())? {
        return Ok(Made::Fault(FaultCode::DuplicateId));
    }
    let value = object_value(alloc, args)?;
    Ok(Made::good(value))
}

fn object_value(alloc: Global, args: &[ArgVal]) -> Result<Datum, AllocError>
    ensures { IfOk result (λ d. d ≡ object_value args.now) }
{
    let mut fields = Fields::new(alloc);
    push_field(&mut fields, PATH, copied(alloc, value_at(args, 0))?)?;
    let components = copied_all(alloc, answers_at(args, 1))?;
    push_field(&mut fields, COMPONENTS, Datum::List(components))?;
    Ok(Datum::Rec(fields))
}

fn copied_all(alloc: Global, answers: &[Held]) -> Result<Items, AllocError>
    ensures { IfOk result (λ all. all ≡ map or_nil (map good_in answers.now)) }
{
    let mut all = Items::new(alloc);
    for held in answers {
        push_item(&mut all, copied(alloc, good_in(held.answer()))?)?;
    }
    Ok(all)
}

/// The ids of records, in their order.
pub fn ids_of(alloc: Global, records: &[Held]) -> Result<Vec<&str>, AllocError>
    ensures { IfOk result (λ v. map (λ t. t.now) v.items ≡ map id_in (map good_in records.now)) }
{
    let mut ids = Vec::new(alloc);
    for held in records {
        ids.push(id_of(held))?;
    }
    Ok(ids)
}

fn id_of(held: &Held) -> &str
    ensures { result.now ≡ id_in (good_in held.now) }
{
    text_in(field_in(good_in(held.answer()), ID))
}

/// Whether two of the texts are equal. They are looked for in a sorted set, in time n log n.
pub fn has_equals(alloc: Global, texts: &[&str]) -> Result<bool, AllocError>
    ensures { IfOk result (λ b. b ≡ has_equals (map (λ t. t.now) texts.now)) }
{
    let mut seen: BTreeSet<&str> = BTreeSet::new(alloc);
    for text in texts {
        match seen.insert(*text) {
            Ok(true) => {}
            Ok(false) => return Ok(true),
            Err(_) => return Err(AllocError),
        }
    }
    Ok(false)
}

// Whether a path can be that of a game object's file.
fn is_go_path(alloc: Global, path: &str) -> Result<bool, AllocError>
    ensures { IfOk result (λ b. b ≡ is_go_path path.now) }
{
    let is_path = is_project_path(alloc, path)?;
    Ok(is_path && ends_in(path, ".go"))
}

/// `GameObject.build`: the object, or BadName where its path isn't a project path that ends in `.go`.
pub fn go_build(alloc: Global, args: &[ArgVal]) -> Result<Made, AllocError>
    ensures { IfOk result (λ m. m ≡ go_build args.now) }
{
    let object = value_at(args, 0);
    if is_go_path(alloc, text_in(field_in(object, PATH)))? {
        let value = copied(alloc, object)?;
        Ok(Made::good(value))
    } else {
        Ok(Made::Fault(FaultCode::BadName))
    }
}
