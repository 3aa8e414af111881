//! What happens in a world, and what it answers.
use dg_base::{Endpoint, Held, NodeId, Refusal, Step};
use dg_cache::Evicted;
use dg_desk::{Followed, Published};
use dg_editor::EditCause;
use sqlite_items::Items;

/// What happens. Pins and offers are named by their numbers, which are given from 0 on and never again.
#[derive(Drop)]
pub enum Event {
    Edit(Items<Step>),
    Undo,
    Redo,
    /// A pin at the current revision.
    Pin,
    /// The evaluation of an endpoint at a pin's revision.
    Evaluate { pin: u32, endpoint: Endpoint },
    /// An offer is published, perhaps not for the first time.
    Publish { offer: u32 },
    /// So many entries are evicted, or all where there are fewer.
    Evict { most: u32 },
    Drop { pin: u32 },
}

/// What an event answers.
#[derive(Drop)]
pub enum Outcome {
    /// The nodes that were made, and how the desk followed. Undo and redo make none.
    Edited {
        made: Items<NodeId>,
        followed: Followed,
    },
    Refused(Refusal<EditCause>),
    Pinned(u32),
    /// The value, and the number of the offer that it left.
    Answered {
        held: Held,
        offer: u32,
    },
    Published(Published),
    Evicted(Evicted),
    Dropped,
    /// No live pin has the number.
    NoPin,
    /// No offer has the number.
    NoOffer,
    /// Nothing changed, for want of memory. So it is also where all numbers of pins or offers were given, or a count
    /// of productions has more than 64 bits.
    NoMemory,
}
