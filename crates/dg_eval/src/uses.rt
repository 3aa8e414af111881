//! Callers: one evaluation, and three, in contexts of their own.
ghost use Rattle.std.specs.Prelude.{◌≡◌, ◌+◌, [], IfOk, OnOk};
ghost use Rattle.dg_base.specs.First.{first_tables, total};
ghost use Rattle.dg_base.specs.Value.{value_at};
ghost use Rattle.dg_base.specs.Worked.{at};
ghost use Rattle.dg_eval.specs.Contexts.{opened_at, productions_due};
ghost use Rattle.dg_eval.specs.Worked.{chained};

use crate::Context;
use dg_base::{Endpoint, Held, Label, NodeId, Schema, Steps};
use dg_cache::Snapshot;
use dg_line::{Mark, Revision, Ticket};
use std::alloc::{AllocError, Global};
use std::sync::ledger::Ledger;

// The value of an endpoint in a context of its own, without a snapshot.
pub(crate) fn evaluate_alone<S: Schema, M: Mark<Of = Revision<S>>, L: Ledger>(
    alloc: Global,
    ticket: &Ticket<M>,
    at: Endpoint,
    steps: &mut Steps<L>,
) -> Result<Held, AllocError>
    ensures answer { IfOk result (λ a. a ≡ value_at S.tables ticket.now.revision.graph at) }
    ensures steps { OnOk result (steps.new ≡ steps.old + productions_due S.tables (opened_at ticket.now []) at) }
{
    let mut context = Context::<S, M>::open(alloc, ticket.share()?, Snapshot::none());
    Ok(context.evaluate(at, steps)?)
}

fn total_of(node: u32) -> Endpoint
    ensures { result ≡ at node total }
{
    Endpoint {
        node: NodeId(node),
        label: Label(4),
    }
}

// In a graph of a number, a sum of it and a sum of that: the value of the last sum takes two productions, that
// of the first one, and that of the last again two, since each context is its own.
pub(crate) fn evaluate_thrice<S: Schema, M: Mark<Of = Revision<S>>, L: Ledger>(
    alloc: Global,
    ticket: &Ticket<M>,
    steps: &mut Steps<L>,
) -> Result<(), AllocError>
    requires tables { S.tables ≡ first_tables }
    requires graph { ticket.now.revision.graph ≡ chained }
    ensures { OnOk result (steps.new ≡ steps.old + 5) }
{
    evaluate_alone::<S, M, L>(alloc, ticket, total_of(3), steps)?;
    evaluate_alone::<S, M, L>(alloc, ticket, total_of(2), steps)?;
    evaluate_alone::<S, M, L>(alloc, ticket, total_of(3), steps)?;
    Ok(())
}
