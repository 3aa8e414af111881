//! What an evaluation offers to a cache.
ghost use Rattle.std.specs.Prelude.{◌≡◌, IfOk};
ghost use Rattle.dg_offer.specs.Offers.{IsOffer};

use dg_base::Endpoint;
use dg_cache::Entry;
use dg_line::{Mark, Ticket};
use std::alloc::{AllocError, Global};
use std::marker::Model;

/// What one evaluation of an endpoint at a revision found: the cached outputs that it evaluated, with their
/// answers, and the known endpoints that it used instead of evaluating them.
#[derive(Drop)]
pub struct Offer<M: Mark> {
    ask: u32,
    ticket: Ticket<M>,
    endpoint: Endpoint,
    entries: Vec<Entry>,
    hits: Vec<Endpoint>,
}

impl<M: Mark> Model for Offer<M> {
    ghost use Rattle.dg_offer.specs.Offers.{IsOffer, Offered, offered_code};

    ghost Value = { Offered M.Of M };

    ghost coded = { offered_code M.Of.code M.code };

    ghost view = { λ o. record { ask = o.ask; ticket = o.ticket; endpoint = o.endpoint; entries = o.entries.items; hits = o.hits.items } };

    ghost invariant = { λ o. IsOffer M.tables (M.seen o.ticket.revision).graph o.endpoint o.entries.items o.hits.items };
}

impl<M: Mark> Offer<M> {
    /// What an evaluation of an endpoint found, under the number of who asked.
    pub fn of(
        ask: u32,
        ticket: Ticket<M>,
        endpoint: Endpoint,
        entries: Vec<Entry>,
        hits: Vec<Endpoint>,
    ) -> Offer<M>
        requires { IsOffer M.tables (M.seen ticket.revision).graph endpoint entries.items hits.items }
        ensures { result ≡ record { ask = ask; ticket = ticket; endpoint = endpoint; entries = entries.items; hits = hits.items } }
    {
        Offer {
            ask,
            ticket,
            endpoint,
            entries,
            hits,
        }
    }

    /// That an offer is right, for proofs. It does nothing.
    pub fn is_offer(&self)
        ensures { IsOffer M.tables (M.seen self.now.ticket.revision).graph self.now.endpoint self.now.entries self.now.hits }
    {
        let _ = &self.ask;
    }

    /// The number of who asked.
    pub fn ask(&self) -> u32
        ensures { result ≡ self.now.ask }
    {
        self.ask
    }

    /// The revision that was evaluated at.
    pub fn ticket(&self) -> &Ticket<M>
        ensures { result.now ≡ self.now.ticket }
    {
        &self.ticket
    }

    /// The endpoint that was asked for.
    pub fn endpoint(&self) -> Endpoint
        ensures { result ≡ self.now.endpoint }
    {
        self.endpoint
    }

    /// The cached outputs that were evaluated, with their answers, each after those that it depends on.
    pub fn entries(&self) -> &[Entry]
        ensures { result.now ≡ self.now.entries }
    {
        self.entries.as_slice()
    }

    /// The known endpoints that were used, each once, in the order in which they were met.
    pub fn hits(&self) -> &[Endpoint]
        ensures { result.now ≡ self.now.hits }
    {
        self.hits.as_slice()
    }

    /// An equal offer. Linear in the entries and hits; answers are shared.
    pub fn copy(&self, alloc: Global) -> Result<Offer<M>, AllocError>
        ensures { IfOk result (λ o. o ≡ self.now) }
    {
        let ticket = self.ticket.share()?;
        let entries = entries_of(alloc, &self.entries)?;
        let hits = hits_of(alloc, &self.hits)?;
        Ok(Offer {
            ask: self.ask,
            ticket,
            endpoint: self.endpoint,
            entries,
            hits,
        })
    }
}

fn entries_of(alloc: Global, entries: &[Entry]) -> Result<Vec<Entry>, AllocError>
    ensures { IfOk result (λ v. v.items ≡ entries.now) }
{
    let mut all = Vec::new(alloc);
    for entry in entries {
        all.push(entry.share()?)?;
    }
    Ok(all)
}

fn hits_of(alloc: Global, hits: &[Endpoint]) -> Result<Vec<Endpoint>, AllocError>
    ensures { IfOk result (λ v. v.items ≡ hits.now) }
{
    hits.iter().map(|end| *end).collect(alloc)
}
