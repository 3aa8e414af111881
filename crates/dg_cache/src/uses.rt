//! Callers: threads share a cache and its snapshots.
use crate::{Cache, Snapshot};

fn is_shared<X: Send + Sync>(_shared: &X) {}

pub(crate) fn shares_snapshot(snapshot: &Snapshot) {
    is_shared(snapshot);
}

pub(crate) fn shares_cache(cache: &Cache) {
    is_shared(cache);
}
