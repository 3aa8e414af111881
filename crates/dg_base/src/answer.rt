//! Answers: what an endpoint has, or why it has nothing.
ghost use Rattle.std.specs.Prelude.{◌≡◌, List, IfOk};
ghost use Rattle.dg_base.specs.Value.{good};

use crate::{Datum, Endpoint};
use std::alloc::{AllocError, Global};
use std::marker::Model;
use std::sync::Arc;

/// Why an endpoint has no good value.
#[derive(Clone, Copy, PartialEq, Eq, Debug)]
pub enum FaultCode {
    NoEndpoint,
    Defective,
    Range,
    NoResource,
    DuplicateId,
    PropType,
    BadName,
    TooLong,
}

/// A fault and the endpoint where it arose.
#[derive(Clone, Copy, PartialEq, Eq, Debug)]
pub struct Fault {
    pub at: Endpoint,
    pub code: FaultCode,
}

/// A list of faults. Contracts see the list.
#[derive(Debug, Drop)]
pub struct Faults {
    faults: Vec<Fault>,
}

impl Model for Faults {
    ghost use Rattle.std.specs.Prelude.{List};
    ghost use Rattle.dg_base.specs.declared.answer.Fault.{Fault};

    ghost Value = { List Fault };

    ghost view = { λ s. s.faults.items };
}

impl Faults {
    pub fn of(faults: Vec<Fault>) -> Faults
        ensures { result ≡ faults.items }
    {
        Faults { faults }
    }

    pub fn as_slice(&self) -> &[Fault]
        ensures { result.now ≡ self.now }
    {
        &self.faults
    }
}

/// What an endpoint answers: a good value, faults, or that a cycle can be reached from it.
#[derive(Debug, Drop)]
pub enum Answer {
    Good(Datum),
    Bad(Faults),
    Cycle,
}

impl Answer {
    /// A good answer.
    pub fn good(value: Datum) -> Answer
        ensures { result ≡ good value }
    {
        Answer::Good(value)
    }
}

/// An answer that several owners share. Contracts see the answer.
#[derive(Debug, Drop)]
pub struct Held {
    inner: Arc<Answer, Global>,
}

impl Model for Held {
    ghost use Rattle.dg_base.specs.declared.answer.Answer.{Answer};
    ghost use Rattle.dg_base.specs.contracts.datum.Datum as datum_type;
    ghost use Rattle.std.specs.Coded.{codes};

    ghost Value = { Answer };

    ghost coded = { Prim.hlevel (codes, datum_type.the_row.coded) };

    ghost view = { λ h. h.inner.value };
}

impl Held {
    pub fn of(alloc: Global, answer: Answer) -> Result<Held, AllocError>
        ensures { IfOk result (λ h. h ≡ answer) }
    {
        match Arc::new(alloc, answer) {
            Ok(inner) => Ok(Held { inner }),
            Err(_) => Err(AllocError),
        }
    }

    pub fn answer(&self) -> &Answer
        ensures { result.now ≡ self.now }
    {
        &self.inner
    }

    /// The same answer once more, in constant time. It is refused where the count of owners is full.
    pub fn share(&self) -> Result<Held, AllocError>
        ensures { IfOk result (λ h. h ≡ self.now) }
    {
        Ok(Held {
            inner: Arc::try_clone(&self.inner)?,
        })
    }
}
