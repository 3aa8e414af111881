//! What stands for an answer.
ghost use Rattle.std.specs.Prelude.{◌≡◌};
ghost use Rattle.std.specs.Arc.{arc_value};

use dg_base::Endpoint;
use dg_kinds_coll::Defold;
use dg_line::Revision;
use std::alloc::Global;
use std::marker::Model;
use std::sync::Arc;

/// An ask whose answer is still to come.
#[derive(Drop)]
pub struct Awaited {
    revision: Arc<Revision<Defold>, Global>,
    at: Endpoint,
}

impl Model for Awaited {
    ghost use Rattle.std.specs.Arc.{arc_value};
    ghost use Rattle.dg_asks.specs.Asks.{Ask, ask_code};

    ghost Value = { Ask };

    ghost coded = { ask_code };

    ghost view = { λ a. record { revision = arc_value a.revision; at = a.at } };
}

impl Awaited {
    /// An endpoint at a revision.
    pub fn of(revision: Arc<Revision<Defold>, Global>, at: Endpoint) -> Awaited
        ensures { result ≡ record { revision = arc_value revision; at = at } }
    {
        Awaited { revision, at }
    }

    /// The revision.
    pub fn revision(&self) -> &Revision<Defold>
        ensures { result.now ≡ self.now.revision }
    {
        &self.revision
    }

    /// The endpoint.
    pub fn at(&self) -> Endpoint
        ensures { result ≡ self.now.at }
    {
        self.at
    }
}
