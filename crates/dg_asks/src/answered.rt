//! Answers of a script's questions.
ghost use Rattle.std.specs.Prelude.{◌≡◌, IfOk};
ghost use Rattle.std.specs.Arc.{arc_value};
ghost use Rattle.dg_base.specs.Value.{value_at};
ghost use Rattle.dg_kinds_coll.specs.Defold.{defold_tables};

use dg_base::{Endpoint, Held};
use dg_kinds_coll::Defold;
use dg_line::Revision;
use std::alloc::Global;
use std::marker::Model;
use std::sync::Arc;

/// The answer of an endpoint at a revision. It is the endpoint's value there by plain evaluation, which the
/// type keeps.
#[derive(Drop)]
pub struct Answered {
    revision: Arc<Revision<Defold>, Global>,
    at: Endpoint,
    value: Held,
}

impl Model for Answered {
    ghost use Rattle.std.specs.Prelude.{◌≡◌};
    ghost use Rattle.std.specs.Arc.{arc_value};
    ghost use Rattle.dg_base.specs.Value.{value_at};
    ghost use Rattle.dg_kinds_coll.specs.Defold.{defold_tables};
    ghost use Rattle.dg_asks.specs.Asks.{Ask, ask_code};

    ghost Value = { Ask };

    ghost coded = { ask_code };

    ghost view = { λ a. record { revision = arc_value a.revision; at = a.at } };

    ghost invariant = { λ a. a.value ≡ value_at defold_tables (arc_value a.revision).graph a.at };
}

impl Answered {
    /// The value of an endpoint at a revision.
    pub fn of(revision: Arc<Revision<Defold>, Global>, at: Endpoint, value: Held) -> Answered
        requires { value ≡ value_at defold_tables (arc_value revision).graph at }
        ensures { result ≡ record { revision = arc_value revision; at = at } }
    {
        Answered {
            revision,
            at,
            value,
        }
    }

    /// The value.
    pub fn value(&self) -> &Held
        ensures { result.now ≡ value_at defold_tables self.now.revision.graph self.now.at }
    {
        &self.value
    }

    /// The revision.
    pub fn revision(&self) -> &Revision<Defold>
        ensures { result.now ≡ self.now.revision }
    {
        &self.revision
    }

    /// The endpoint.
    pub fn at(&self) -> Endpoint
        ensures { result ≡ self.now.at }
    {
        self.at
    }
}
