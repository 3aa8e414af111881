//! Components, of a resource and embedded.
ghost use Rattle.std.specs.Prelude.{◌≡◌, map, filter_map, IfOk, cond};
ghost use Rattle.std.specs.Option.{option_copied, option_map};
ghost use Rattle.dg_base.specs.declared.datum.Datum.TheVariants as datum;
ghost use Rattle.dg_base.specs.Rule.{prop_of};
ghost use Rattle.dg_kinds_go.specs.Components.{number_of_ptype, same_ptype, own_named, placed, replaced, declared_in, ref_record, ref_with, ref_component, is_type_byte, is_type_name, embedded_value, embedded_component};

use crate::values::{
    copied, field_in, items_in, props_at, push_field, push_item, text_in, value_at,
};
use dg_base::{ArgVal, Datum, FaultCode, Fields, Items, Made, PType, PropVal};
use dg_labels::labels::{DATA, ID, PATH, POSITION, PROPS, ROTATION, TYPE};
use std::alloc::{AllocError, Global};

/// `ComponentRef.component`: NoResource without a resource, PropType where an own open value has
/// another type than the declared property of its name. An own value is looked for along the list of
/// them for each declared property.
pub fn ref_component(alloc: Global, args: &[ArgVal]) -> Result<Made, AllocError>
    ensures { IfOk result (λ m. m ≡ ref_component args.now) }
{
    match value_at(args, 3) {
        Some(resource) => ref_with(alloc, args, resource),
        None => Ok(Made::Fault(FaultCode::NoResource)),
    }
}

fn ref_with(alloc: Global, args: &[ArgVal], resource: &Datum) -> Result<Made, AllocError>
    ensures { IfOk result (λ m. m ≡ ref_with args.now (Some resource.now)) }
{
    let declared = items_in(field_in(Some(resource), PROPS));
    match replaced(alloc, props_at(args, 4), declared)? {
        Some(props) => {
            let value = ref_record(alloc, args, resource, props)?;
            Ok(Made::good(value))
        }
        None => Ok(Made::Fault(FaultCode::PropType)),
    }
}

fn ref_record(
    alloc: Global,
    args: &[ArgVal],
    resource: &Datum,
    props: Items,
) -> Result<Datum, AllocError>
    ensures { IfOk result (λ d. d ≡ ref_record args.now resource.now props) }
{
    let mut fields = Fields::new(alloc);
    push_field(&mut fields, ID, copied(alloc, value_at(args, 0))?)?;
    let path = copied(alloc, field_in(Some(resource), PATH))?;
    push_field(&mut fields, PATH, path)?;
    push_field(&mut fields, POSITION, copied(alloc, value_at(args, 1))?)?;
    push_field(&mut fields, ROTATION, copied(alloc, value_at(args, 2))?)?;
    push_field(&mut fields, PROPS, Datum::List(props))?;
    Ok(Datum::Rec(fields))
}

// The declared properties, each replaced by its own value; None where a type differs.
fn replaced(alloc: Global, own: &[PropVal], declared: &[Datum]) -> Result<Option<Items>, AllocError>
    ensures { IfOk result (λ r. r ≡ option_map (map datum.Prop) (replaced own.now (filter_map prop_of declared.now))) }
{
    let mut all = Items::new(alloc);
    for item in declared {
        if let Datum::Prop(prop) = item {
            match placed(prop, own_named(own, prop)) {
                Some(prop) => push_item(&mut all, Datum::Prop(prop.copy()?))?,
                None => return Ok(None),
            }
        }
    }
    Ok(Some(all))
}

fn placed<'a>(prop: &'a PropVal, own: Option<&'a PropVal>) -> Option<&'a PropVal>
    ensures { option_copied result ≡ placed prop.now (option_copied own.entry) }
{
    match own {
        None => Some(prop),
        Some(own) => {
            if same_ptype(own.ptype, prop.ptype) {
                Some(own)
            } else {
                None
            }
        }
    }
}

fn own_named<'a>(own: &'a [PropVal], prop: &PropVal) -> Option<&'a PropVal>
    ensures { option_copied result ≡ own_named own.now prop.now }
{
    for value in own {
        if value.name.0 == prop.name.0 {
            return Some(value);
        }
    }
    None
}

fn same_ptype(a: PType, b: PType) -> bool
    ensures { result ≡ same_ptype a b }
{
    number_of_ptype(a) == number_of_ptype(b)
}

fn number_of_ptype(ptype: PType) -> u8
    ensures { result ≡ number_of_ptype ptype }
{
    match ptype {
        PType::Number => 1,
        PType::Hash => 2,
        PType::Url => 3,
        PType::Vector3 => 4,
        PType::Vector4 => 5,
        PType::Quat => 6,
        PType::Boolean => 7,
    }
}

/// `ComponentEmbedded.component`: BadName where the type has a character that isn't a to z, 0 to 9
/// or `_`.
pub fn embedded_component(alloc: Global, args: &[ArgVal]) -> Result<Made, AllocError>
    ensures { IfOk result (λ m. m ≡ embedded_component args.now) }
{
    if is_type_name(text_in(value_at(args, 1))) {
        let value = embedded_value(alloc, args)?;
        Ok(Made::good(value))
    } else {
        Ok(Made::Fault(FaultCode::BadName))
    }
}

fn embedded_value(alloc: Global, args: &[ArgVal]) -> Result<Datum, AllocError>
    ensures { IfOk result (λ d. d ≡ embedded_value args.now) }
{
    let mut fields = Fields::new(alloc);
    push_field(&mut fields, ID, copied(alloc, value_at(args, 0))?)?;
    push_field(&mut fields, TYPE, copied(alloc, value_at(args, 1))?)?;
    push_field(&mut fields, DATA, copied(alloc, value_at(args, 2))?)?;
    push_field(&mut fields, POSITION, copied(alloc, value_at(args, 3))?)?;
    push_field(&mut fields, ROTATION, copied(alloc, value_at(args, 4))?)?;
    Ok(Datum::Rec(fields))
}

/// Whether a text has the characters a to z, 0 to 9 and `_` alone.
pub fn is_type_name(text: &str) -> bool
    ensures { result ≡ is_type_name text.now }
{
    text.as_bytes().iter().all(|b| is_type_byte(*b))
}

fn is_type_byte(b: u8) -> bool
    ensures { result ≡ is_type_byte b }
{
    (b'a' <= b && b <= b'z') || (b'0' <= b && b <= b'9') || b == b'_'
}
