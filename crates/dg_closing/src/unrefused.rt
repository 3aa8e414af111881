//! Whether the history has a record of wanting memory.
ghost use Rattle.std.specs.Prelude.{◌≡◌, IsTrue};
ghost use Rattle.dg_asks.specs.Told.{AreUnrefused, is_unrefused};

use dg_cache::EvictEnd;
use dg_desk::{EventOf, Followed, PublishEnd, What};
use dg_line::Mark;

/// Whether no record is one of wanting memory.
pub(crate) fn are_unrefused<M: Mark>(history: &[EventOf<M>]) -> bool
    ensures { IsTrue result → AreUnrefused history.now }
{
    for event in history {
        if !is_unrefused(event) {
            return false;
        }
    }
    true
}

fn is_unrefused<M: Mark>(event: &EventOf<M>) -> bool
    ensures { result ≡ is_unrefused event.now.what }
{
    match &event.what {
        What::Follow(_, Followed::Cleared) => false,
        What::Follow(_, _) => true,
        What::Publish(_, answer) => match answer.end {
            PublishEnd::NoMemory => false,
            _ => true,
        },
        What::Evict(_, answer) => match answer.end {
            EvictEnd::All => true,
            EvictEnd::NoMemory => false,
        },
        What::Settle(_) => true,
    }
}
