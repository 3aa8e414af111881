//! Values.
ghost use Rattle.std.specs.Prelude.{◌≡◌, ◌^◌, ◌-◌, min, IfOk};
ghost use Rattle.dg_base.specs.Role.{is_prop_named};
ghost use Rattle.dg_base.specs.Weight.{weight, weights_of, field_weights_of};

use crate::{Label, Str};
use std::alloc::{AllocError, Global};

/// A vector of three numbers, in nanounits (billionths).
#[derive(Clone, Copy, PartialEq, Eq, Debug)]
pub struct V3 {
    pub x: i64,
    pub y: i64,
    pub z: i64,
}

/// A vector of four numbers, in nanounits.
#[derive(Clone, Copy, PartialEq, Eq, Debug)]
pub struct V4 {
    pub x: i64,
    pub y: i64,
    pub z: i64,
    pub w: i64,
}

/// The type of an open property.
#[derive(Clone, Copy, PartialEq, Eq, Debug)]
pub enum PType {
    Number,
    Hash,
    Url,
    Vector3,
    Vector4,
    Quat,
    Boolean,
}

/// The value of an open property: its interned name, its type and its text.
#[derive(Debug, Drop)]
pub struct PropVal {
    pub name: Label,
    pub ptype: PType,
    pub text: Str,
}

/// A list of values. Contracts see the list.
pub type Items = sqlite_items::Items<Datum>;

/// A list of labelled values. Contracts see the list.
pub type Fields = sqlite_items::Items<FieldOf>;

/// A labelled value: a field of a record, or a node's own value.
#[derive(Debug, Drop)]
#[cycle(datum)]
pub struct FieldOf {
    pub label: Label,
    pub value: Datum,
}

/// A value. Numbers are in nanounits.
#[derive(Debug, Drop)]
#[cycle(datum)]
pub enum Datum {
    Nil,
    Flag(bool),
    Dec(i64),
    Text(Str),
    Vec3(V3),
    Quat(V4),
    Prop(PropVal),
    List(Items),
    Rec(Fields),
}

impl PropVal {
    /// An equal value of its own.
    pub fn copy(&self) -> Result<PropVal, AllocError>
        ensures { IfOk result (λ p. p ≡ self.now) }
    {
        Ok(PropVal {
            name: self.name,
            ptype: self.ptype,
            text: self.text.copy()?,
        })
    }
}

impl Datum {
    /// Whether this is an open property of the name.
    pub fn is_prop_named(&self, name: Label) -> bool
        ensures { result ≡ is_prop_named name self.now }
    {
        match self {
            Datum::Prop(prop) => prop.name.0 == name.0,
            _ => false,
        }
    }

    /// An equal value of its own, in time linear in its weight.
    #[cycle(datum_copy)]
    pub fn copy(&self, alloc: Global) -> Result<Datum, AllocError>
        ensures { IfOk result (λ d. d ≡ self.now) }
    {
        Ok(match self {
            Datum::Nil => Datum::Nil,
            Datum::Flag(flag) => Datum::Flag(*flag),
            Datum::Dec(number) => Datum::Dec(*number),
            Datum::Text(text) => Datum::Text(text.copy()?),
            Datum::Vec3(vector) => Datum::Vec3(*vector),
            Datum::Quat(vector) => Datum::Quat(*vector),
            Datum::Prop(prop) => Datum::Prop(prop.copy()?),
            Datum::List(items) => Datum::List(copy_items(alloc, items.as_slice())?),
            Datum::Rec(fields) => Datum::Rec(copy_fields(alloc, fields.as_slice())?),
        })
    }

    /// 16, plus the bytes of its text, plus the weights of its members; `u64::MAX` where that is more.
    #[cycle(datum_weight)]
    pub fn weight(&self) -> u64
        ensures { result ≡ min (weight self.now) (2 ^ 64 - 1) }
    {
        match self {
            Datum::Nil => 16,
            Datum::Flag(_) => 16,
            Datum::Dec(_) => 16,
            Datum::Text(text) => 16 + text.as_str().len() as u64,
            Datum::Vec3(_) => 16,
            Datum::Quat(_) => 16,
            Datum::Prop(prop) => 16 + prop.text.as_str().len() as u64,
            Datum::List(items) => weight_of_items(items.as_slice()).saturating_add(16),
            Datum::Rec(fields) => weight_of_fields(fields.as_slice()).saturating_add(16),
        }
    }
}

#[cycle(datum_copy)]
fn copy_items(alloc: Global, items: &[Datum]) -> Result<Items, AllocError>
    ensures { IfOk result (λ all. all ≡ items.now) }
{
    let mut all = Items::new(alloc);
    for item in items {
        if all.push(item.copy(alloc)?).is_err() {
            return Err(AllocError);
        }
    }
    Ok(all)
}

#[cycle(datum_copy)]
fn copy_fields(alloc: Global, fields: &[FieldOf]) -> Result<Fields, AllocError>
    ensures { IfOk result (λ all. all ≡ fields.now) }
{
    let mut all = Fields::new(alloc);
    for field in fields {
        let value = field.value.copy(alloc)?;
        if all
            .push(FieldOf {
                label: field.label,
                value,
            })
            .is_err()
        {
            return Err(AllocError);
        }
    }
    Ok(all)
}

#[cycle(datum_weight)]
fn weight_of_items(items: &[Datum]) -> u64
    ensures { result ≡ min (weights_of items.now) (2 ^ 64 - 1) }
{
    let mut all = 0u64;
    for item in items {
        all = all.saturating_add(item.weight());
    }
    all
}

#[cycle(datum_weight)]
fn weight_of_fields(fields: &[FieldOf]) -> u64
    ensures { result ≡ min (field_weights_of fields.now) (2 ^ 64 - 1) }
{
    let mut all = 0u64;
    for field in fields {
        all = all.saturating_add(field.value.weight());
    }
    all
}
