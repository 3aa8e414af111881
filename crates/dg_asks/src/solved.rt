//! An ask that was evaluated.
ghost use Rattle.std.specs.Prelude.{◌≡◌};
ghost use Rattle.dg_base.specs.Value.{value_at};

use dg_base::{Endpoint, Held};
use dg_line::{Mark, Ticket};
use std::marker::Model;

/// The number of an ask, its revision and endpoint, and its answer. The answer is the endpoint's value there by plain
/// evaluation, which the type keeps.
#[derive(Drop)]
pub struct Solved<M: Mark> {
    ask: u32,
    ticket: Ticket<M>,
    at: Endpoint,
    value: Held,
}

impl<M: Mark> Model for Solved<M> {
    ghost use Rattle.std.specs.Prelude.{◌≡◌};
    ghost use Rattle.dg_base.specs.Value.{value_at};
    ghost use Rattle.dg_asks.specs.Asks.{Answering, answering_code};

    ghost Value = { Answering M.Of M };

    ghost coded = { answering_code M.Of.code M.code };

    ghost view = { λ s. record { ask = s.ask; ticket = s.ticket; at = s.at; answer = s.value } };

    ghost invariant = { λ s. s.value ≡ value_at M.tables (M.seen s.ticket.revision).graph s.at };
}

impl<M: Mark> Solved<M> {
    /// The answer to an ask.
    pub fn of(ask: u32, ticket: Ticket<M>, at: Endpoint, value: Held) -> Solved<M>
        requires { value ≡ value_at M.tables (M.seen ticket.revision).graph at }
        ensures { result ≡ record { ask = ask; ticket = ticket; at = at; answer = value } }
    {
        Solved {
            ask,
            ticket,
            at,
            value,
        }
    }

    /// The number of the ask.
    pub fn ask(&self) -> u32
        ensures { result ≡ self.now.ask }
    {
        self.ask
    }

    /// The revision.
    pub fn ticket(&self) -> &Ticket<M>
        ensures { result.now ≡ self.now.ticket }
    {
        &self.ticket
    }

    /// The endpoint.
    pub fn at(&self) -> Endpoint
        ensures { result ≡ self.now.at }
    {
        self.at
    }

    /// The answer.
    pub fn value(&self) -> &Held
        ensures answer { result.now ≡ self.now.answer }
        ensures value { result.now ≡ value_at M.tables (M.seen self.now.ticket.revision).graph self.now.at }
    {
        &self.value
    }

    /// The number, the revision, the endpoint and the answer.
    pub fn parts(self) -> (u32, Ticket<M>, Endpoint, Held)
        ensures ask { result.0 ≡ self.ask }
        ensures ticket { result.1 ≡ self.ticket }
        ensures at { result.2 ≡ self.at }
        ensures answer { result.3 ≡ self.answer }
        ensures value { result.3 ≡ value_at M.tables (M.seen self.ticket.revision).graph self.at }
    {
        let Solved {
            ask,
            ticket,
            at,
            value,
        } = self;
        (ask, ticket, at, value)
    }
}
