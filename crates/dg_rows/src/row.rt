//! What a label is to a kind.
ghost use Rattle.std.specs.Prelude.{◌≡◌, Some};
ghost use Rattle.dg_rows.specs.Rows.{role_of, datum_of, type_of};
ghost use Rattle.dg_rows.specs.Read.{plain_entry};

use dg_base::{ArgSpec, Datum, Label, Role, Str, Ty, V3, V4};
use std::alloc::Global;

/// A value that stands there where none was set: its type, and the value. A text is the empty one.
#[derive(Clone, Copy, Debug)]
pub enum Preset {
    Number(i64),
    Text,
    Flag(bool),
    Vec3(V3),
    Quat(V4),
}

impl Preset {
    /// The type that it says.
    pub fn type_of(&self) -> Ty
        ensures { result ≡ type_of self.now }
    {
        match self {
            Preset::Number(_) => Ty::Number,
            Preset::Text => Ty::Text,
            Preset::Flag(_) => Ty::Flag,
            Preset::Vec3(_) => Ty::Vec3,
            Preset::Quat(_) => Ty::Quat,
        }
    }

    /// The value itself. It takes no memory.
    pub fn datum_of(&self, alloc: Global) -> Datum
        ensures { result ≡ datum_of self.now }
    {
        match self {
            Preset::Number(number) => Datum::Dec(*number),
            Preset::Text => Datum::Text(Str::of(String::new(alloc))),
            Preset::Flag(flag) => Datum::Flag(*flag),
            Preset::Vec3(vector) => Datum::Vec3(*vector),
            Preset::Quat(vector) => Datum::Quat(*vector),
        }
    }
}

/// What a label is to a kind. `A` holds the arguments of an output.
#[derive(Clone, Copy, Debug)]
pub enum Entry<A> {
    /// A property and its default.
    Property(Preset),
    /// An input that takes one source.
    Single(Ty),
    /// An input that takes one source, and the value that stands in for a bad one.
    Substituted(Preset),
    /// An input that takes several sources.
    Array(Ty),
    /// An input that takes one source, whose node it owns.
    Owned(Ty),
    /// An input that takes several sources, whose nodes it owns.
    OwnedArray(Ty),
    /// An output and its arguments.
    Output(Ty, A),
    /// An output that is kept in the shared cache, and its arguments.
    Cached(Ty, A),
}

/// What one label is to a kind.
#[derive(Clone, Copy, Debug)]
pub struct Row<A>(pub Label, pub Entry<A>);

/// What a label is to a kind, as a schema's code has it.
pub type StaticEntry = Entry<&'static [ArgSpec]>;

/// The rows of a kind, in the order of their labels.
pub type Rows = &'static [Row<&'static [ArgSpec]>];

impl StaticEntry {
    pub(crate) fn role(&self) -> Role
        ensures { result ≡ role_of (Some (plain_entry self.now)) }
    {
        match self {
            Entry::Property(preset) => Role::Property(preset.type_of()),
            Entry::Single(ty) => input(*ty, false, false, false),
            Entry::Substituted(preset) => input(preset.type_of(), false, false, true),
            Entry::Array(ty) => input(*ty, true, false, false),
            Entry::Owned(ty) => input(*ty, false, true, false),
            Entry::OwnedArray(ty) => input(*ty, true, true, false),
            Entry::Output(ty, _) => Role::Output {
                ty: *ty,
                cached: false,
            },
            Entry::Cached(ty, _) => Role::Output {
                ty: *ty,
                cached: true,
            },
        }
    }
}

fn input(ty: Ty, array: bool, cascade: bool, substitute: bool) -> Role
    ensures { result ≡ Role.Input ty array cascade substitute }
{
    Role::Input {
        ty,
        array,
        cascade,
        substitute,
    }
}
