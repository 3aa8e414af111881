//! The offers that evaluations leave.
ghost use Rattle.std.specs.Prelude.{◌≡◌, ◌<◌};
ghost use Rattle.dg_line.specs.Revisions.{Seen};
ghost use Rattle.dg_offer.specs.Offers.{AreValues};

use crate::crowd::Open;
use crate::editing::Go;
use dg_base::{Endpoint, Label, NodeId, Schema, Steps};
use dg_cache::Snapshot;
use dg_eval::Context;
use dg_kinds_go::GoKinds;
use dg_line::{LineName, Mark, Revision, Shown, Ticket};
use dg_offer::Offer;
use dg_room::{Pass, RoomName};
use std::alloc::{AllocError, Global};
use std::marker::Brand;
use std::sync::Wait;
use std::sync::ledger::{Blank, Ledger};

/// What a sum gives.
pub(crate) fn total_of(node: u32) -> Endpoint {
    Endpoint {
        node: NodeId(node),
        label: Label(4),
    }
}

fn offered<S: Schema, M: Mark<Of = Revision<S>>, L: Ledger>(
    alloc: Global,
    ticket: Ticket<M>,
    known: Snapshot,
    ask: u32,
    at: Endpoint,
    blank: Blank,
) -> Result<Offer<M>, AllocError>
    requires tables { M.tables ≡ S.tables }
    requires seen { (r : Seen) → M.seen r ≡ r }
    requires known { AreValues S.tables ticket.revision.graph known }
    requires name { blank.name ≡ L.name }
    requires parts { blank.parts ≡ L.parts }
    requires some { 0 < blank.parts }
{
    let mut steps = Steps::<L>::open(blank);
    let mut context = Context::<S, M>::open(alloc, ticket, known);
    let _held = context.evaluate(at, &mut steps)?;
    Ok(context.offer(ask, at))
}

/// What an evaluation at a ticket offers, with what the room's desk knows of it.
pub(crate) fn asked<J: LineName, K: RoomName, R: Wait + Drop>(
    rt: &R,
    alloc: Global,
    room: &Open<J, K, R>,
    pass: &Pass<K>,
    ticket: Ticket<Shown<Go, J>>,
    ask: u32,
    at: Endpoint,
) -> Result<Offer<Shown<Go, J>>, AllocError> {
    let known = room.snapshot(rt, pass, &ticket)?;
    offered::<GoKinds, Shown<Go, J>, Brand>(alloc, ticket, known, ask, at, Blank::new(1))
}

/// What an evaluation at a ticket offers, with nothing known.
pub(crate) fn asked_alone<J: LineName>(
    alloc: Global,
    ticket: Ticket<Shown<Go, J>>,
    at: Endpoint,
) -> Result<Offer<Shown<Go, J>>, AllocError> {
    offered::<GoKinds, Shown<Go, J>, Brand>(alloc, ticket, Snapshot::none(), 0, at, Blank::new(1))
}
