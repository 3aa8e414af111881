//! Resources of files.
ghost use Rattle.std.specs.Prelude.{◌≡◌, map, IfOk};
ghost use Rattle.dg_base.specs.declared.datum.Datum.TheVariants as datum;
ghost use Rattle.dg_kinds_go.specs.Files.{props_value, resource_value, file_resource, script_resource};

use crate::values::{copied, props_at, push_field, push_item, value_at};
use dg_base::{ArgVal, Datum, Fields, Items, Made, PropVal};
use dg_labels::labels::{PATH, PROPS};
use std::alloc::{AllocError, Global};

/// `ResourceFile.resource`: the path and no properties.
pub fn file_resource(alloc: Global, args: &[ArgVal]) -> Result<Made, AllocError>
    ensures { IfOk result (λ m. m ≡ file_resource args.now) }
{
    let path = copied(alloc, value_at(args, 0))?;
    Ok(Made::good(resource_value(alloc, path, &[])?))
}

/// `ScriptFile.resource`: the path and the open values, in label order.
pub fn script_resource(alloc: Global, args: &[ArgVal]) -> Result<Made, AllocError>
    ensures { IfOk result (λ m. m ≡ script_resource args.now) }
{
    let path = copied(alloc, value_at(args, 0))?;
    Ok(Made::good(resource_value(alloc, path, props_at(args, 1))?))
}

fn resource_value(alloc: Global, path: Datum, props: &[PropVal]) -> Result<Datum, AllocError>
    ensures { IfOk result (λ d. d ≡ resource_value path props.now) }
{
    let props = prop_items(alloc, props)?;
    let mut fields = Fields::new(alloc);
    push_field(&mut fields, PATH, path)?;
    push_field(&mut fields, PROPS, Datum::List(props))?;
    Ok(Datum::Rec(fields))
}

fn prop_items(alloc: Global, props: &[PropVal]) -> Result<Items, AllocError>
    ensures { IfOk result (λ all. all ≡ map datum.Prop props.now) }
{
    let mut all = Items::new(alloc);
    for prop in props {
        push_item(&mut all, Datum::Prop(prop.copy()?))?;
    }
    Ok(all)
}
