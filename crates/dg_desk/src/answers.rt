//! How the desk answers a publication and an eviction.
ghost use Rattle.std.specs.Prelude.{◌≡◌, ◌≤◌, None, Some};
ghost use Rattle.dg_cache.specs.declared.cache.EvictEnd.TheVariants as evict_end;
ghost use Rattle.dg_desk.specs.declared.event.PublishEnd.TheVariants as publish_end;
ghost use Rattle.dg_desk.specs.Acts.{IsPut};
ghost use Rattle.dg_desk.specs.Desks.{is_refused};

use crate::{PublishEnd, Published};
use dg_cache::{EvictEnd, Evicted};

/// None is gone, for want of memory.
pub(crate) fn none_evicted() -> Evicted
    ensures { result ≡ record { gone = 0; end = evict_end.NoMemory } }
{
    Evicted {
        gone: 0,
        end: EvictEnd::NoMemory,
    }
}

/// Whether memory was wanted before an entry was dropped.
pub(crate) fn is_refused(answer: &Evicted) -> bool
    ensures { result ≡ is_refused answer.now }
{
    match answer.end {
        EvictEnd::All => false,
        EvictEnd::NoMemory => answer.gone == 0,
    }
}

/// Nothing was published, for want of memory.
pub(crate) fn refused() -> Published
    ensures { result ≡ record { place = None; kept = 0; late = 0; done = 0; end = publish_end.NoMemory } }
{
    Published {
        place: None,
        kept: 0,
        late: 0,
        done: 0,
        end: PublishEnd::NoMemory,
    }
}

/// No listed revision has the offer's index.
pub(crate) fn unknown_answer(place: usize, index: usize) -> Published
    ensures { result ≡ record { place = Some place; kept = 0; late = 0; done = 0; end = publish_end.Unknown index } }
{
    Published {
        place: Some(place),
        kept: 0,
        late: 0,
        done: 0,
        end: PublishEnd::Unknown { index },
    }
}

/// So many of all entries are kept, and so many of these were put.
pub(crate) fn put_answer(place: usize, all: usize, kept: usize, done: usize) -> Published
    requires kept { kept ≤ all }
    requires done { done ≤ kept }
    ensures put { IsPut all kept result result.end }
    ensures place { result.place ≡ Some place }
    ensures done { result.done ≡ done }
{
    let late = all - kept;
    if done == kept {
        return Published {
            place: Some(place),
            kept,
            late,
            done,
            end: PublishEnd::All,
        };
    }
    Published {
        place: Some(place),
        kept,
        late,
        done,
        end: PublishEnd::NoMemory,
    }
}
