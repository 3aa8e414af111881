//! What is done at a desk, and how it answers.
use dg_cache::Evicted;
use dg_line::{Link, Ticket};
use dg_offer::Offer;

/// How many passes there may be: sixteen workers and who owns them.
pub const PASSES: usize = 17;

/// How a desk followed a link.
#[derive(Clone, Copy, Debug, PartialEq, Eq)]
pub enum Followed {
    /// The entries outside of what is dirty are kept.
    Kept,
    /// The desk was at another index than the link begins at. It starts anew at the link's end.
    Restarted { had: usize, wanted: usize },
    /// For want of memory no entry is kept.
    Cleared,
}

/// Why a publication ended.
#[derive(Clone, Copy, Debug, PartialEq, Eq)]
pub enum PublishEnd {
    /// All that is kept was put.
    All,
    /// No listed revision has the offer's index.
    Unknown { index: usize },
    NoMemory,
}

/// How an offer was published: its place in the history, how many of its entries are kept and how many came
/// late, and how many of those kept were put.
#[derive(Clone, Copy, Debug, PartialEq, Eq)]
pub struct Published {
    pub place: Option<usize>,
    pub kept: usize,
    pub late: usize,
    pub done: usize,
    pub end: PublishEnd,
}

/// What was done: a follow of a link, a publication of an offer, an eviction, or a fresh start at a ticket.
#[derive(Drop)]
pub enum What<K, O, T> {
    Follow(K, Followed),
    Publish(O, Published),
    Evict(u32, Evicted),
    Settle(T),
}

/// A record of what was done: the pass that did it, the number of earlier records with this pass, and what it
/// was.
#[derive(Drop)]
pub struct DeskEvent<K, O, T> {
    pub pass: u32,
    pub nth: usize,
    pub what: What<K, O, T>,
}

/// The records of a desk whose tickets have a mark.
pub type EventOf<M> = DeskEvent<Link<M>, Offer<M>, Ticket<M>>;
