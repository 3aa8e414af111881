//! Schemas: the kinds of nodes, what their labels are, and what their outputs give.
ghost use Rattle.std.specs.Prelude.{◌≡◌, ◌+◌, IfOk};
ghost use Rattle.dg_base.specs.Role.{is_given, is_output, is_cached, is_array, cascades, given, taken, has_type};
ghost use Rattle.dg_base.specs.Value.{made_good};

use crate::{Datum, Held, Kind, Label, Props, Steps};
use std::alloc::{AllocError, Global};
use std::sync::ledger::Ledger;

/// What a value is for. The two ends of an arc have the same type.
#[derive(Clone, Copy, PartialEq, Eq, Debug)]
pub enum Ty {
    Number,
    Text,
    Flag,
    Vec3,
    Quat,
    Resource,
    Component,
    Object,
    Instance,
    Sub,
    Flat,
    Build,
}

/// What a label is to a kind. An input that is an array takes several sources. A cascading input
/// owns its sources' nodes. Where an input has a substitute, that stands in for a bad source.
/// Only cached outputs are kept in the shared cache.
#[derive(Clone, Copy, PartialEq, Eq, Debug)]
pub enum Role {
    Nothing,
    Property(Ty),
    Output {
        ty: Ty,
        cached: bool,
    },
    Input {
        ty: Ty,
        array: bool,
        cascade: bool,
        substitute: bool,
    },
}

impl Ty {
    /// Whether a value is of this type. The types from `Resource` on have no values that could be set.
    pub fn has(self, value: &Datum) -> bool
        ensures { result ≡ has_type self value.now }
    {
        match self {
            Ty::Number => matches!(value, Datum::Dec(_)),
            Ty::Text => matches!(value, Datum::Text(_)),
            Ty::Flag => matches!(value, Datum::Flag(_)),
            Ty::Vec3 => matches!(value, Datum::Vec3(_)),
            Ty::Quat => matches!(value, Datum::Quat(_)),
            _ => false,
        }
    }
}

impl Role {
    /// Whether this is a property or an output, which can be asked for.
    pub fn is_given(self) -> bool
        ensures { result ≡ is_given self }
    {
        matches!(self, Role::Property(_) | Role::Output { .. })
    }

    pub fn is_output(self) -> bool
        ensures { result ≡ is_output self }
    {
        matches!(self, Role::Output { .. })
    }

    /// Whether this is an output that is kept in the shared cache.
    pub fn is_cached(self) -> bool
        ensures { result ≡ is_cached self }
    {
        match self {
            Role::Output { cached, .. } => cached,
            _ => false,
        }
    }

    /// The type that a property or output gives.
    pub fn given(self) -> Option<Ty>
        ensures { result ≡ given self }
    {
        match self {
            Role::Property(ty) => Some(ty),
            Role::Output { ty, .. } => Some(ty),
            _ => None,
        }
    }

    /// The type that an input takes.
    pub fn taken(self) -> Option<Ty>
        ensures { result ≡ taken self }
    {
        match self {
            Role::Input { ty, .. } => Some(ty),
            _ => None,
        }
    }

    /// Whether this is an input that takes several sources.
    pub fn is_array(self) -> bool
        ensures { result ≡ is_array self }
    {
        match self {
            Role::Input { array, .. } => array,
            _ => false,
        }
    }

    /// Whether this is an input that owns the nodes of its sources.
    pub fn cascades(self) -> bool
        ensures { result ≡ cascades self }
    {
        match self {
            Role::Input { cascade, .. } => cascade,
            _ => false,
        }
    }
}

/// Where an output's argument comes from: a property or output of its own node, an input, or all
/// open values.
#[derive(Clone, Copy, PartialEq, Eq, Debug)]
pub enum ArgSpec {
    Own(Label),
    Input(Label),
    Open,
}

/// A list of shared answers. Contracts see the list.
pub type Helds = sqlite_items::Items<Held>;

/// An argument as a production gets it: nothing (a single input without a source), a substitute,
/// one answer, the answers of an array, or the open values in label order.
#[derive(Debug, Drop)]
pub enum ArgVal {
    Nil,
    Sub(Datum),
    One(Held),
    Many(Helds),
    Open(Props),
}

/// What a production gives.
#[derive(Debug, Drop)]
pub enum Made {
    Good(Datum),
    Fault(crate::FaultCode),
}

impl Made {
    /// A good value.
    pub fn good(value: Datum) -> Made
        ensures { result ≡ made_good value }
    {
        Made::Good(value)
    }
}

/// The kinds of nodes that a project has. The engine is generic over it.
pub trait Schema {
    ghost use Rattle.dg_base.specs.Tables.{Tables, AreTables};

    ghost tables: { Tables };

    /// The labels of a kind, each once.
    fn labels(kind: Kind) -> &'static [Label]
        ensures { result.now ≡ tables.labels kind };

    /// What a label is to a kind; `Nothing` for a label that isn't the kind's.
    fn role(kind: Kind, label: Label) -> Role
        ensures { result ≡ tables.role kind label };

    /// Whether nodes of the kind have open properties.
    fn is_open(kind: Kind) -> bool
        ensures { result ≡ tables.is_open kind };

    /// The arguments of an output, in order.
    fn args(kind: Kind, label: Label) -> &'static [ArgSpec]
        ensures { result.now ≡ tables.args kind label };

    /// The value of a property that has no own value.
    fn default(alloc: Global, kind: Kind, label: Label) -> Result<Datum, AllocError>
        ensures { IfOk result (λ d. d ≡ tables.preset kind label) };

    /// The value that stands in for a bad source of an input that has one.
    fn substitute(alloc: Global, kind: Kind, label: Label) -> Result<Datum, AllocError>
        ensures { IfOk result (λ d. d ≡ tables.substitute kind label) };

    /// The value of an output for these arguments. Counts one step, also where memory is refused.
    fn produce<L: Ledger>(
        alloc: Global,
        kind: Kind,
        label: Label,
        args: &[ArgVal],
        steps: &mut Steps<L>,
    ) -> Result<Made, AllocError>
        ensures made { IfOk result (λ m. m ≡ tables.produce kind label args.now) }
        ensures steps { steps.new ≡ steps.old + 1 };

    ghost laws: { AreTables tables };
}
