//! How the revisions of an editor follow one another.
ghost use Rattle.std.specs.Prelude.{◌≡◌, ◌+◌, ◌<◌, ◌≤◌, ◌∷◌, ◌++◌, [], IfOk, OnOk, IsTrue, vec_len, vec_capacity};
ghost use Rattle.dg_base.specs.declared.limits.TheConstants.{REVISIONS};
ghost use Rattle.dg_base.specs.Refusal.{Gives};
ghost use Rattle.dg_base.specs.Sound.{IsSound, ids_below};
ghost use Rattle.dg_base.specs.Transact.{applied};
ghost use Rattle.dg_touch.specs.Laws.{RulesAgreeOutside};
ghost use Rattle.dg_line.specs.Revisions.{Seen, followed};
ghost use Rattle.dg_line.specs.Tickets.{Pin};
ghost use Rattle.dg_editor.specs.Machine.{as_cause};

use crate::EditCause;
use dg_base::{Endpoint, Refusal, Schema, Step};
use dg_line::{Line, Link, Mark, Revision, Ticket, follow};
use dg_tx::{Applied, apply};
use dg_view::Graph;
use std::alloc::{AllocError, Global};
use std::mem;

/// A transaction on the graph of a revision.
pub(crate) fn applied_to<S: Schema>(
    alloc: Global,
    here: &Revision<S>,
    steps: &[Step],
) -> Result<Applied<S>, Refusal<EditCause>>
    requires some { 1 ≤ here.now.next }
    requires below { IsTrue (ids_below here.now.graph here.now.next) }
    ensures applied { Gives (λ a. record { graph = a.graph; next = a.next; made = a.made; touched = a.touched }) result (as_cause (applied S.tables here.now.graph here.now.next steps.now)) }
    ensures new_below { IfOk result (λ a. IsTrue (ids_below a.graph a.next)) }
    ensures later { IfOk result (λ a. here.now.next ≤ a.next) }
    ensures changes { IfOk result (λ a. RulesAgreeOutside S.tables here.now.graph a.graph a.touched) }
{
    match apply(alloc, here.graph(), here.next(), steps) {
        Ok(applied) => Ok(applied),
        Err(Refusal::Because(refused)) => Err(Refusal::Because(EditCause::Refused(refused))),
        Err(Refusal::NoMemory) => Err(Refusal::NoMemory),
    }
}

/// Adds the next revision to the line, and answers the link to it and its ticket. Room is made for the
/// ticket of the one before.
pub(crate) fn add_revision<S: Schema, N: Line<Revision<S>>>(
    alloc: Global,
    line: &mut N,
    here: &Ticket<N::Mark>,
    passed: &mut Vec<Ticket<N::Mark>>,
    graph: Graph<S>,
    next: u32,
    touched: &[Endpoint],
) -> Result<(Link<N::Mark>, Ticket<N::Mark>), AllocError>
    requires tables { N.Mark.tables ≡ S.tables }
    requires seen { (r : Seen) → N.Mark.seen r ≡ r }
    requires room { here.now.revision.number + 1 < REVISIONS }
    requires agree { RulesAgreeOutside S.tables here.now.revision.graph graph touched.now }
    ensures stays { (t : Pin Seen N.Mark) → N.is_of line.old t → N.is_of line.new t }
    ensures of { IfOk result (λ r. N.is_of line.new r.1) }
    ensures from { IfOk result (λ r. r.0.from ≡ here.now) }
    ensures to { IfOk result (λ r. r.0.to ≡ r.1) }
    ensures revision { IfOk result (λ r. r.1.revision ≡ followed S.tables here.now.revision graph next touched.now) }
    ensures passed { passed.new.items ≡ passed.old.items }
    ensures room { OnOk result (vec_len passed.new < vec_capacity passed.new) }
{
    passed.reserve(1)?;
    let link = follow(alloc, line, here, graph, next, touched)?;
    let to = link.to().share()?;
    Ok((link, to))
}

/// Goes on to a ticket, and keeps the one before. It takes no memory.
pub(crate) fn go_to<M: Mark>(here: &mut Ticket<M>, passed: &mut Vec<Ticket<M>>, to: Ticket<M>)
    requires { vec_len passed.old < vec_capacity passed.old }
    ensures here { here.new ≡ to }
    ensures passed { passed.new.items ≡ passed.old.items ++ here.old ∷ [] }
{
    let from = mem::replace(here, to);
    passed.push_reserved(from);
}
