//! One ask.
ghost use Rattle.std.specs.Prelude.{◌≡◌, ◌<◌, IfOk};
ghost use Rattle.dg_base.specs.Value.{value_at};
ghost use Rattle.dg_line.specs.Revisions.{Seen};
ghost use Rattle.dg_offer.specs.Offers.{AreValues};
ghost use Rattle.dg_worker.specs.Workers.{IsOfferOf, IsSolved, Publishes};

use crate::job::{Job, JobMark, JobRoom};
use dg_asks::{Asking, Solved};
use dg_base::{Schema, Steps};
use dg_cache::Snapshot;
use dg_eval::Context;
use dg_kinds_coll::Defold;
use dg_line::{LineName, Mark, Revision};
use dg_offer::Offer;
use dg_room::{Pass, RoomName};
use std::alloc::{AllocError, Global};
use std::marker::Brand;
use std::sync::Wait;
use std::sync::ledger::{Blank, Ledger};

// An ask that was evaluated, and what its evaluation offers.
#[derive(Drop)]
struct Found<M: Mark> {
    solved: Solved<M>,
    offer: Offer<M>,
}

// The answer to an ask, over what is known at its revision. Its productions are not counted.
fn evaluated<S: Schema, M: Mark<Of = Revision<S>>, L: Ledger>(
    alloc: Global,
    job: Job<M>,
    known: Snapshot,
    blank: Blank,
) -> Result<Found<M>, AllocError>
    requires tables { M.tables ≡ S.tables }
    requires seen { (r : Seen) → M.seen r ≡ r }
    requires known { AreValues S.tables job.asking.ticket.revision.graph known }
    requires name { blank.name ≡ L.name }
    requires parts { blank.parts ≡ L.parts }
    requires some { 0 < blank.parts }
    ensures solved { IfOk result (λ f. IsSolved job f.solved) }
    ensures offer { IfOk result (λ f. IsOfferOf job f.offer) }
{
    let mut steps = Steps::<L>::open(blank);
    let Job {
        ask,
        asking: Asking { ticket, at },
    } = job;
    let kept = ticket.share()?;
    let mut context = Context::<S, M>::open(alloc, ticket, known);
    let held = context.evaluate(at, &mut steps)?;
    let offer = context.offer(ask, at);
    Ok(Found {
        solved: Solved::of(ask, kept, at, held),
        offer,
    })
}

/// Evaluates an ask at its revision, with what the cache knows of it, and publishes what was found. The lock is held
/// for the look at the cache and for the publication, each for itself.
pub(crate) fn solve<J: LineName, K: RoomName, R: Wait + Drop>(
    rt: &R,
    alloc: Global,
    room: &JobRoom<J, K, R>,
    pass: &mut Pass<K>,
    job: Job<JobMark<J>>,
) -> Result<Solved<JobMark<J>>, AllocError>
    ensures solved { IfOk result (IsSolved job) }
    ensures pass { Publishes pass.old pass.new }
{
    let known = room.snapshot(rt, pass, &job.asking.ticket)?;
    let found = evaluated::<Defold, JobMark<J>, Brand>(alloc, job, known, Blank::new(1))?;
    let Found { solved, offer } = found;
    let _ = room.publish(rt, pass, offer);
    Ok(solved)
}
