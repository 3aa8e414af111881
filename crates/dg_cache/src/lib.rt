//! A bounded cache of answers, most recent first. [`Cache`] keeps an answer for each of at most as many
//! endpoints as its capacity, and drops the one that was longest unused when another comes. A [`Snapshot`]
//! is all that a cache has at a time, shared with it: neither changes through the other.
//!
//! Contracts see a cache as its capacity and the list of its [`Entry`]s, most recent first, and a snapshot as
//! its entries in endpoint order. `specs/Entries.antt` says what each call makes of the list.
#![tactic(auto)]

// An endpoint with its answer.
mod entry;
// The answers by endpoint, in a map that is shared.
mod snapshot;
mod values;
// The endpoints by their last use, and the cache.
mod cache;
mod recent;
// Tests and callers.
#[cfg(test)]
mod tests;
#[cfg(test)]
mod uses;

pub use cache::{Cache, EvictEnd, Evicted};
pub use entry::Entry;
pub use snapshot::Snapshot;
