//! A look at an endpoint: whether it is open, finished or known.
ghost use Rattle.std.specs.Prelude.{◌≡◌, true, IfOk, OnOk, Some};
ghost use Rattle.dg_base.specs.Order.{is_end_among};
ghost use Rattle.dg_cache.specs.Entries.{ends_of, value_in};
ghost use Rattle.dg_eval.specs.Frames.{answer_met, hits_after};

use crate::end_set::EndSet;
use crate::results::Results;
use dg_base::{Answer, Endpoint, Held};
use dg_cache::Snapshot;
use std::alloc::{AllocError, Global};

/// The value of an endpoint that is open, finished or known. One that is open is a cycle. A known one that
/// is neither is noted among the hits.
pub(crate) fn look(
    alloc: Global,
    is_open: bool,
    results: &Results,
    known: &Snapshot,
    hits: &mut EndSet,
    at: Endpoint,
) -> Result<Option<Held>, AllocError>
    ensures answer { IfOk result (λ o. o ≡ answer_met is_open results.now known.now at) }
    ensures hits { OnOk result (hits.new ≡ hits_after is_open results.now known.now hits.old at) }
{
    if is_open {
        return Ok(Some(Held::of(alloc, Answer::Cycle)?));
    }
    if let Some(answer) = results.find(at) {
        return Ok(Some(answer.share()?));
    }
    match known.get(at) {
        None => Ok(None),
        Some(answer) => {
            hits.note(at)?;
            Ok(Some(answer.share()?))
        }
    }
}

/// The value of an endpoint that is finished.
pub(crate) fn finished(results: &Results, at: Endpoint) -> Result<Held, AllocError>
    requires { is_end_among (ends_of results.now) at ≡ true }
    ensures { IfOk result (λ a. value_in results.now at ≡ Some a) }
{
    match results.find(at) {
        Some(answer) => Ok(answer.share()?),
        None => unreachable!(),
    }
}
