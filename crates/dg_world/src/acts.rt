//! What an event does to the desk, and what it learns from it.
ghost use Rattle.std.specs.Prelude.{◌≡◌, ◌≤◌, ◌+◌, IfOk, OnOk, filter, length};
ghost use Rattle.std.specs.List.{Contains};
ghost use Rattle.dg_base.specs.Evaluation.{productions};
ghost use Rattle.dg_base.specs.Value.{value_at};
ghost use Rattle.dg_line.specs.Links.{IsLink};
ghost use Rattle.dg_line.specs.Revisions.{Seen};
ghost use Rattle.dg_line.specs.Tickets.{Pin};
ghost use Rattle.dg_desk.specs.declared.event.What.TheVariants as what;
ghost use Rattle.dg_desk.specs.Coherent.{IsRight};
ghost use Rattle.dg_desk.specs.Desks.{is_step, recorded, state_of};
ghost use Rattle.dg_world.specs.Laws.{HasSources};
ghost use Rattle.dg_world.specs.Steps.{IsMet, given_of, known_of, offer_of, walk_of};

use dg_base::{Endpoint, Held, Schema, Steps};
use dg_desk::{Desk, Followed};
use dg_editor::Editor;
use dg_eval::Context;
use dg_line::{Line, Link, Mark, Revision, Ticket};
use dg_offer::Offer;
use std::alloc::{AllocError, Global};
use std::sync::ledger::Ledger;

/// The desk follows a link that begins at its revision.
pub(crate) fn follow<S: Schema, N: Line<Revision<S>> + Drop>(
    editor: &Editor<S, N>,
    desk: &mut Desk<N::Mark>,
    link: Link<N::Mark>,
) -> Followed
    requires line { (p : Pin Seen N.Mark) → Contains (state_of N.Mark.seen desk.old).list p → N.is_of editor.now.line p }
    requires from { (state_of N.Mark.seen desk.old).now ≡ link.from }
    requires number { (N.Mark.seen desk.old.opened.revision).number + length (filter (λ e. is_step e.what) desk.old.history) ≡ (N.Mark.seen link.from.revision).number }
    ensures link { IsLink S.tables (N.Mark.seen link.from.revision) (N.Mark.seen link.to.revision) link.dirty }
    ensures here { N.is_of editor.now.line editor.now.here }
    ensures met { IsMet result }
    ensures desk { desk.new ≡ recorded N.Mark.seen desk.old (what.Follow link result) }
{
    editor.is_editor();
    desk.is_desk();
    link.is_link();
    desk.follow(editor.line(), link)
}

/// What an evaluation found: the value, what it offers, and how many productions it took.
#[derive(Drop)]
pub struct Found<M: Mark> {
    pub held: Held,
    pub offer: Offer<M>,
    pub made: u64,
}

/// That the desk's revision is that of a ticket with its index, for proofs.
fn agree<S: Schema, N: Line<Revision<S>> + Drop>(
    line: &N,
    desk: &Desk<N::Mark>,
    ticket: &Ticket<N::Mark>,
)
    requires line { (p : Pin Seen N.Mark) → Contains (state_of N.Mark.seen desk.now).list p → N.is_of line.now p }
    requires ticket { N.is_of line.now ticket.now }
    ensures { (state_of N.Mark.seen desk.now).now.index ≡ ticket.now.index → (state_of N.Mark.seen desk.now).now.revision ≡ ticket.now.revision }
{
    let now = desk.now();
    if now.index() == ticket.index() {
        line.agrees(now, ticket);
    }
}

/// What the desk gives for a ticket, for proofs.
fn gives<S: Schema, N: Line<Revision<S>> + Drop>(
    line: &N,
    desk: &Desk<N::Mark>,
    ticket: &Ticket<N::Mark>,
)
    requires line { (p : Pin Seen N.Mark) → Contains (state_of N.Mark.seen desk.now).list p → N.is_of line.now p }
    requires ticket { N.is_of line.now ticket.now }
    ensures same { (state_of N.Mark.seen desk.now).now.index ≡ ticket.now.index → (state_of N.Mark.seen desk.now).now.revision ≡ ticket.now.revision }
    ensures listed { Contains (state_of N.Mark.seen desk.now).list ticket.now → given_of N.Mark.seen desk.now ticket.now ≡ known_of N.Mark.seen desk.now ticket.now }
{
    desk.is_desk();
    agree::<S, N>(line, desk, ticket);
}

/// Evaluates an endpoint at the revision of a ticket, with what the desk knows of it. The desk and the ticket are of the
/// line. Where the desk lists the ticket, what it knows goes by the revision's number.
pub fn evaluated<S: Schema, N: Line<Revision<S>> + Drop, L: Ledger>(
    alloc: Global,
    line: &N,
    desk: &Desk<N::Mark>,
    ticket: &Ticket<N::Mark>,
    number: u32,
    at: Endpoint,
    steps: &mut Steps<L>,
) -> Result<Found<N::Mark>, AllocError>
    requires tables { N.Mark.tables ≡ S.tables }
    requires seen { (r : Seen) → N.Mark.seen r ≡ r }
    requires line { (p : Pin Seen N.Mark) → Contains (state_of N.Mark.seen desk.now).list p → N.is_of line.now p }
    requires ticket { N.is_of line.now ticket.now }
    ensures held { IfOk result (λ f. f.held ≡ value_at S.tables ticket.now.revision.graph at) }
    ensures offer { IfOk result (λ f. f.offer ≡ offer_of S.tables number ticket.now at (walk_of S.tables ticket.now.revision.graph (given_of N.Mark.seen desk.now ticket.now) at)) }
    ensures sources { IfOk result (λ f. HasSources N.Mark.seen desk.now.history f.offer) }
    ensures right { IfOk result (λ f. IsRight N.Mark.seen S.tables f.offer) }
    ensures made { IfOk result (λ f. f.made ≡ productions S.tables ticket.now.revision.graph (walk_of S.tables ticket.now.revision.graph (given_of N.Mark.seen desk.now ticket.now) at).listed) }
    ensures steps { OnOk result (steps.new ≡ steps.old + productions S.tables ticket.now.revision.graph (walk_of S.tables ticket.now.revision.graph (given_of N.Mark.seen desk.now ticket.now) at).listed) }
    ensures most { steps.new ≤ steps.old + productions S.tables ticket.now.revision.graph (walk_of S.tables ticket.now.revision.graph (given_of N.Mark.seen desk.now ticket.now) at).listed }
    ensures listed { Contains (state_of N.Mark.seen desk.now).list ticket.now → given_of N.Mark.seen desk.now ticket.now ≡ known_of N.Mark.seen desk.now ticket.now }
{
    desk.is_desk();
    gives::<S, N>(line, desk, ticket);
    let known = desk.snapshot(line, ticket)?;
    let mut context = Context::<S, N::Mark>::open(alloc, ticket.share()?, known);
    let held = context.evaluate(at, steps)?;
    let made = context.made();
    let offer = context.offer(number, at);
    offer.is_offer();
    Ok(Found { held, offer, made })
}

/// Evaluates an endpoint at the revision of a ticket that the desk lists, with what the desk knows of it.
pub(crate) fn evaluated_listed<S: Schema, N: Line<Revision<S>> + Drop, L: Ledger>(
    alloc: Global,
    line: &N,
    desk: &Desk<N::Mark>,
    ticket: &Ticket<N::Mark>,
    number: u32,
    at: Endpoint,
    steps: &mut Steps<L>,
) -> Result<Found<N::Mark>, AllocError>
    requires tables { N.Mark.tables ≡ S.tables }
    requires seen { (r : Seen) → N.Mark.seen r ≡ r }
    requires line { (p : Pin Seen N.Mark) → Contains (state_of N.Mark.seen desk.now).list p → N.is_of line.now p }
    requires ticket { Contains (state_of N.Mark.seen desk.now).list ticket.now }
    ensures held { IfOk result (λ f. f.held ≡ value_at S.tables ticket.now.revision.graph at) }
    ensures offer { IfOk result (λ f. f.offer ≡ offer_of S.tables number ticket.now at (walk_of S.tables ticket.now.revision.graph (known_of N.Mark.seen desk.now ticket.now) at)) }
    ensures sources { IfOk result (λ f. HasSources N.Mark.seen desk.now.history f.offer) }
    ensures right { IfOk result (λ f. IsRight N.Mark.seen S.tables f.offer) }
    ensures made { IfOk result (λ f. f.made ≡ productions S.tables ticket.now.revision.graph (walk_of S.tables ticket.now.revision.graph (known_of N.Mark.seen desk.now ticket.now) at).listed) }
    ensures steps { OnOk result (steps.new ≡ steps.old + productions S.tables ticket.now.revision.graph (walk_of S.tables ticket.now.revision.graph (known_of N.Mark.seen desk.now ticket.now) at).listed) }
    ensures most { steps.new ≤ steps.old + productions S.tables ticket.now.revision.graph (walk_of S.tables ticket.now.revision.graph (known_of N.Mark.seen desk.now ticket.now) at).listed }
{
    evaluated::<S, N, L>(alloc, line, desk, ticket, number, at, steps)
}
