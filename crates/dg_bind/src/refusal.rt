//! Why the words of a transaction are no steps.
ghost use Rattle.std.specs.Prelude.{◌≡◌};
ghost use Rattle.dg_bind.specs.Outcome.{at_step};

use dg_base::Refusal;

/// What the words of a step name that isn't there.
#[derive(Clone, Copy, PartialEq, Eq, Debug)]
pub enum Missing {
    /// A name that is neither bound nor that of a new node of the steps before.
    NoName,
    /// A label that isn't the schema's.
    NoLabel,
}

/// The first step that misses a name or a label, counted from 1, and which of them.
#[derive(Clone, Copy, PartialEq, Eq, Debug)]
pub struct MissingAt {
    pub step: u32,
    pub missing: Missing,
}

/// The refusal of the transaction whose step has this number.
pub(crate) fn at_step(number: u32, refusal: Refusal<Missing>) -> Refusal<MissingAt>
    ensures { result ≡ at_step number refusal }
{
    match refusal {
        Refusal::Because(missing) => Refusal::Because(MissingAt {
            step: number,
            missing,
        }),
        Refusal::NoMemory => Refusal::NoMemory,
    }
}
