//! Reading the files.
ghost use Rattle.std.specs.Prelude.{◌≡◌, IfOk};
ghost use Rattle.dg_base.specs.Refusal.{Gives};
ghost use Rattle.dg_desc.specs.Descs.{go_of, coll_of, go_reading, coll_reading};

use crate::check::fault_of;
use crate::descs::{CollDesc, GoDesc};
use crate::known::{FieldName, Message};
use crate::lookups::{last_value, switch_in, text_of, unknown};
use crate::part::all_of;
use crate::refusal::DescCode;
use dg_base::Refusal;
use dg_ptext::{Field, Tree};
use std::alloc::{AllocError, Global};

/// The game object that a tree says, in time linear in the tree. Refused is the first fault that is met when the fields are
/// gone through in order, each message's own fields before those that follow it: a field with a value of another
/// form, or, at the end of a message, the first required field that isn't there.
pub fn read_go(alloc: Global, tree: &Tree) -> Result<GoDesc, Refusal<DescCode>>
    ensures { Gives (λ x. x) result (go_reading tree.now) }
{
    let fields = tree.as_slice();
    match fault_of(Message::Go, 1, fields) {
        Some(fault) => Err(Refusal::Because(fault)),
        None => Ok(go_of(alloc, fields)?),
    }
}

/// The collection that a tree says, in time linear in the tree. Refused is the first fault that is met when the fields are
/// gone through in order, each message's own fields before those that follow it: a field with a value of another
/// form, or, at the end of a message, the first required field that isn't there.
pub fn read_coll(alloc: Global, tree: &Tree) -> Result<CollDesc, Refusal<DescCode>>
    ensures { Gives (λ x. x) result (coll_reading tree.now) }
{
    let fields = tree.as_slice();
    match fault_of(Message::Coll, 1, fields) {
        Some(fault) => Err(Refusal::Because(fault)),
        None => Ok(coll_of(alloc, fields)?),
    }
}

fn go_of(alloc: Global, fields: &[Field]) -> Result<GoDesc, AllocError>
    ensures { IfOk result (λ desc. desc ≡ go_of fields.now) }
{
    Ok(GoDesc {
        components: all_of(alloc, FieldName::Components, fields)?,
        embedded_components: all_of(alloc, FieldName::EmbeddedComponents, fields)?,
        unknown: unknown(alloc, Message::Go, fields)?,
    })
}

fn coll_of(alloc: Global, fields: &[Field]) -> Result<CollDesc, AllocError>
    ensures { IfOk result (λ desc. desc ≡ coll_of fields.now) }
{
    Ok(CollDesc {
        name: text_of(alloc, FieldName::Name, fields)?,
        scale_along_z: switch_in(last_value(FieldName::ScaleAlongZ, fields)),
        instances: all_of(alloc, FieldName::Instances, fields)?,
        embedded_instances: all_of(alloc, FieldName::EmbeddedInstances, fields)?,
        collection_instances: all_of(alloc, FieldName::CollectionInstances, fields)?,
        unknown: unknown(alloc, Message::Coll, fields)?,
    })
}
