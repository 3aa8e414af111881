//! What the world answers to the events of a play. Where memory was wanted the play ends.
ghost use Rattle.std.specs.Prelude.{◌≡◌, IfOk, OnOk};
ghost use Rattle.dg_cache.specs.declared.cache.EvictEnd.TheVariants as evict_end;
ghost use Rattle.dg_world.specs.declared.event.Outcome.TheVariants as outcome;
ghost use Rattle.dg_alone.specs.Outcomes.{IsOfChange, IsOfEvaluation, IsOfPin, IsOfPublication, IsPublishedWhole, change_outcome};

use dg_base::{Held, NodeId, Refusal};
use dg_cache::{EvictEnd, Evicted};
use dg_desk::{Followed, PublishEnd, Published};
use dg_editor::EditCause;
use dg_world::Outcome;
use sqlite_items::Items;
use std::alloc::AllocError;

/// The nodes that an edit, an undo or a redo made, or why it is refused.
pub(crate) fn change_of(answer: Outcome) -> Result<Result<Items<NodeId>, EditCause>, AllocError>
    requires { IsOfChange answer }
    ensures { IfOk result (λ r. answer ≡ change_outcome r) }
{
    match answer {
        Outcome::Edited {
            made,
            followed: Followed::Kept,
        } => Ok(Ok(made)),
        Outcome::Edited { .. } => Err(AllocError),
        Outcome::Refused(Refusal::Because(cause)) => Ok(Err(cause)),
        Outcome::Refused(Refusal::NoMemory) => Err(AllocError),
        _ => unreachable!(),
    }
}

/// The number of a pin.
pub(crate) fn pinned_of(answer: Outcome) -> Result<u32, AllocError>
    requires { IsOfPin answer }
    ensures { IfOk result (λ n. answer ≡ outcome.Pinned n) }
{
    match answer {
        Outcome::Pinned(number) => Ok(number),
        Outcome::NoMemory => Err(AllocError),
        _ => unreachable!(),
    }
}

/// The value that was evaluated, and the number of its offer.
pub(crate) fn answered_of(answer: Outcome) -> Result<(Held, u32), AllocError>
    requires { IsOfEvaluation answer }
    ensures { IfOk result (λ r. answer ≡ outcome.Answered r.0 r.1) }
{
    match answer {
        Outcome::Answered { held, offer } => Ok((held, offer)),
        Outcome::NoMemory => Err(AllocError),
        _ => unreachable!(),
    }
}

/// What was published, where all that is kept of it was put.
pub(crate) fn published_of(answer: Outcome) -> Result<Published, AllocError>
    requires { IsOfPublication answer }
    ensures { IfOk result (IsPublishedWhole answer) }
{
    match answer {
        Outcome::Published(published) => match published.end {
            PublishEnd::All => Ok(published),
            _ => Err(AllocError),
        },
        Outcome::NoMemory => Err(AllocError),
        _ => unreachable!(),
    }
}

/// Whether all entries went that should.
pub(crate) fn evicted_of(answer: Evicted) -> Result<(), AllocError>
    ensures { OnOk result (answer.end ≡ evict_end.All) }
{
    match answer.end {
        EvictEnd::All => Ok(()),
        EvictEnd::NoMemory => Err(AllocError),
    }
}

/// A pin was dropped, of which it is known that it was live.
pub(crate) fn dropped_of(answer: Outcome)
    requires { answer ≡ outcome.Dropped }
{
    match answer {
        Outcome::Dropped => {}
        _ => unreachable!(),
    }
}
