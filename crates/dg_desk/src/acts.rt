//! What acts do to the cache.
ghost use Rattle.std.specs.Prelude.{◌≡◌, ◌≤◌, IfOk, OnOk, OnErr, length, take};
ghost use Rattle.dg_cache.specs.Entries.{put_all, put_entry, touched};
ghost use Rattle.dg_cache.specs.Caches.{holding};
ghost use Rattle.dg_desk.specs.Acts.{entries_followed, IsFollowedBy};
ghost use Rattle.dg_desk.specs.Machine.{unchanged};

use crate::Followed;
use dg_base::Endpoint;
use dg_cache::{Cache, Entry};
use dg_line::{Mark, Ticket};
use std::alloc::{AllocError, Global};

/// Drops what is dirty where the desk meets the link, and else all.
pub(crate) fn follow_cache(
    cache: &mut Cache,
    meets: bool,
    had: usize,
    wanted: usize,
    dirty: &[Endpoint],
) -> Followed
    ensures answer { IsFollowedBy meets had wanted result }
    ensures cache { cache.new ≡ holding cache.old (entries_followed dirty.now cache.old.entries result) }
{
    if !meets {
        cache.clear();
        return Followed::Restarted { had, wanted };
    }
    match cache.retain_outside(dirty) {
        Ok(()) => Followed::Kept,
        Err(_) => {
            cache.clear();
            Followed::Cleared
        }
    }
}

/// The entries whose endpoints have the same counter now, shared.
pub(crate) fn unchanged_of<M: Mark>(
    alloc: Global,
    then: &Ticket<M>,
    now: &Ticket<M>,
    entries: &[Entry],
) -> Result<Vec<Entry>, AllocError>
    ensures { IfOk result (λ v. v.items ≡ unchanged (M.seen then.now.revision) (M.seen now.now.revision) entries.now) }
{
    let mut kept = Vec::new(alloc);
    for entry in entries.iter() {
        if M::counter(now.revision(), entry.at) == M::counter(then.revision(), entry.at) {
            kept.push(entry.share()?)?;
        }
    }
    Ok(kept)
}

/// Puts the hits that are there to the front, in order.
pub(crate) fn touch_all(cache: &mut Cache, hits: &[Endpoint])
    ensures { cache.new ≡ holding cache.old (touched hits.now cache.old.entries) }
{
    for hit in hits.iter() {
        let _ = cache.touch(*hit);
    }
}

/// Puts entries in order, as long as there is memory, and answers how many.
#[tactic(auto, using(crate::proofs::Caching::put_all_more))]
pub(crate) fn put_all(cache: &mut Cache, entries: &[Entry]) -> usize
    ensures cache { cache.new ≡ holding cache.old (put_all cache.old.capacity (take result entries.now) cache.old.entries) }
    ensures most { result ≤ length entries.now }
{
    for done in 0..entries.len() {
        if put_one(cache, &entries[done]).is_err() {
            return done;
        }
    }
    entries.len()
}

fn put_one(cache: &mut Cache, entry: &Entry) -> Result<(), AllocError>
    ensures ok { OnOk result (cache.new ≡ holding cache.old (put_entry cache.old.capacity entry.now cache.old.entries)) }
    ensures err { OnErr result (cache.new ≡ cache.old) }
{
    let value = entry.value.share()?;
    cache.put(entry.at, value)
}
