//! Evaluations at one revision, over a snapshot.
ghost use Rattle.std.specs.Prelude.{◌≡◌, ◌≤◌, ◌+◌, length, take, IfOk, OnOk};
ghost use Rattle.dg_base.specs.Value.{value_at};
ghost use Rattle.dg_line.specs.Revisions.{Seen};
ghost use Rattle.dg_offer.specs.Offers.{AreValues};
ghost use Rattle.dg_eval.specs.Contexts.{opened_at, walked, walked_on, productions_due, offered};

use crate::end_set::EndSet;
use crate::evaluating::evaluate;
use crate::results::Results;
use dg_base::{Endpoint, Held, Schema, Steps};
use dg_cache::Snapshot;
use dg_line::{Mark, Revision, Ticket};
use dg_offer::Offer;
use std::alloc::{AllocError, Global};
use std::marker::Model;
use std::sync::ledger::Ledger;

/// Evaluations at a ticket's revision, over a snapshot: what was finished, and which entries of the snapshot
/// were used.
#[derive(Drop)]
pub struct Context<S: Schema, M: Mark<Of = Revision<S>>> {
    alloc: Global,
    ticket: Ticket<M>,
    known: Snapshot,
    results: Results,
    hits: EndSet,
    made: u64,
}

impl<S: Schema, M: Mark<Of = Revision<S>>> Model for Context<S, M> {
    ghost use Rattle.dg_line.specs.Revisions.{Seen, seen_code};
    ghost use Rattle.dg_offer.specs.Offers.{AreValues};
    ghost use Rattle.dg_eval.specs.Contexts.{Evaluating, evaluating_code};

    ghost Value = { Evaluating Seen M };

    ghost coded = { evaluating_code seen_code M.code };

    ghost view = { λ c. record { ticket = c.ticket; known = c.known; results = c.results; hits = c.hits; made = c.made } };

    ghost invariant = { λ c. AreValues S.tables c.ticket.revision.graph c.known × AreValues S.tables c.ticket.revision.graph c.results };
}

impl<S: Schema, M: Mark<Of = Revision<S>>> Context<S, M> {
    /// A context that has evaluated nothing yet. It takes no memory.
    pub fn open(alloc: Global, ticket: Ticket<M>, snapshot: Snapshot) -> Context<S, M>
        requires { AreValues S.tables ticket.revision.graph snapshot }
        ensures { result ≡ opened_at ticket snapshot }
    {
        Context {
            alloc,
            ticket,
            known: snapshot,
            results: Results::new(alloc),
            hits: EndSet::new(alloc),
            made: 0,
        }
    }

    /// The value of an endpoint at the ticket's revision. Each endpoint that is finished on the way is kept,
    /// also where memory is refused, and each entry of the snapshot that is met is a hit. In time linear in
    /// what is met, each with the cost of its rule and its production.
    pub fn evaluate<L: Ledger>(
        &mut self,
        at: Endpoint,
        steps: &mut Steps<L>,
    ) -> Result<Held, AllocError>
        ensures answer { IfOk result (λ a. a ≡ value_at S.tables self.old.ticket.revision.graph at) }
        ensures ticket { self.new.ticket ≡ self.old.ticket }
        ensures known { self.new.known ≡ self.old.known }
        ensures right { AreValues S.tables self.new.ticket.revision.graph self.new.results }
        ensures kept { take (length self.old.results) self.new.results ≡ self.old.results }
        ensures walk { OnOk result (walked self.new ≡ walked_on S.tables self.old at) }
        ensures steps { OnOk result (steps.new ≡ steps.old + productions_due S.tables self.old at) }
        ensures made { OnOk result (self.new.made ≡ self.old.made + productions_due S.tables self.old at) }
        ensures most { steps.new ≤ steps.old + productions_due S.tables self.old at }
    {
        let graph = self.ticket.revision().graph();
        let results = &mut self.results;
        let hits = &mut self.hits;
        let made = &mut self.made;
        evaluate::<S, L>(
            self.alloc,
            graph,
            &self.known,
            results,
            hits,
            made,
            at,
            steps,
        )
    }

    /// How many productions the answered evaluations took.
    pub fn made(&self) -> u64
        ensures { result ≡ self.now.made }
    {
        self.made
    }

    /// What the evaluation of an endpoint offers to a shared cache, where it was the only one and was
    /// answered: the cached outputs that were finished, in that order, and the entries of the snapshot that
    /// were used. It takes no memory.
    pub fn offer(self, ask: u32, at: Endpoint) -> Offer<M>
        requires tables { M.tables ≡ S.tables }
        requires seen { (r : Seen) → M.seen r ≡ r }
        requires evaluated { walked self ≡ walked_on S.tables (opened_at self.ticket self.known) at }
        ensures { result ≡ offered S.tables self ask at }
    {
        let Context {
            ticket,
            results,
            hits,
            ..
        } = self;
        let entries = results.into_cached(ticket.revision().graph());
        Offer::of(ask, ticket, at, entries, hits.into_vec())
    }
}
