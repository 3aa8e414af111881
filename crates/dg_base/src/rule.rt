//! Rules: how the value of an endpoint is found.
ghost use Rattle.std.specs.Prelude.{◌≡◌, List};

use crate::{Datum, Endpoint, Kind, Label, NodeId, PropVal};
use smallvec::SmallVec;
use std::alloc::Global;
use std::marker::Model;

/// A list of endpoints. Contracts see the list.
pub type Ends = sqlite_items::Items<Endpoint>;

/// A list of open values. Contracts see the list.
pub type Props = sqlite_items::Items<PropVal>;

/// Where one argument of an output comes from: an endpoint of the same node, the sources of an
/// input, or the node's open values.
#[derive(Debug, Drop)]
pub enum ArgRule {
    Own(Endpoint),
    Input { input: Label, sources: Ends },
    Open(Props),
}

/// What fills the unused places of an `ArgRules`.
impl Default for ArgRule {
    fn default() -> ArgRule {
        ArgRule::Own(Endpoint {
            node: NodeId(0),
            label: Label(0),
        })
    }
}

/// The arguments of an output. Contracts see the list.
#[derive(Debug, Drop)]
pub struct ArgRules {
    rules: SmallVec<ArgRule, 4>,
}

impl Model for ArgRules {
    ghost use Rattle.std.specs.Prelude.{List};
    ghost use Rattle.dg_base.specs.declared.rule.ArgRule.{ArgRule};

    ghost Value = { List ArgRule };

    ghost view = { λ s. s.rules.items };
}

impl ArgRules {
    pub fn of(rules: SmallVec<ArgRule, 4>) -> ArgRules
        ensures { result ≡ rules.items }
    {
        ArgRules { rules }
    }

    pub fn as_slice(&self) -> &[ArgRule]
        ensures { result.now ≡ self.now }
    {
        self.rules.as_slice()
    }
}

/// How the value of an endpoint is found.
#[derive(Debug, Drop)]
pub enum Rule {
    Absent,
    Defective,
    Own(Datum),
    From(Endpoint),
    Default(Datum),
    Call {
        kind: Kind,
        label: Label,
        args: ArgRules,
    },
}
