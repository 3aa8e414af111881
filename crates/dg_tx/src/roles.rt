//! What a label is to a node, and whether a node has open properties.
ghost use Rattle.std.specs.Prelude.{◌≡◌};
ghost use Rattle.dg_base.specs.Chain.{kind_of};
ghost use Rattle.dg_base.specs.Sound.{role_at};
ghost use Rattle.dg_base.specs.Steps.{is_open_kind};

use dg_base::{Label, NodeId, Role, Schema};
use dg_view::Graph;

/// What a label is to a node; `Nothing` where there is no such node.
pub(crate) fn role_at<S: Schema>(graph: &Graph<S>, node: NodeId, label: Label) -> Role
    ensures { result ≡ role_at S.tables graph.now node label }
{
    match graph.kind(node) {
        Some(kind) => S::role(kind, label),
        None => Role::Nothing,
    }
}

/// Whether a node has open properties.
pub(crate) fn is_open<S: Schema>(graph: &Graph<S>, node: NodeId) -> bool
    ensures { result ≡ is_open_kind S.tables (kind_of graph.now node) }
{
    match graph.kind(node) {
        Some(kind) => S::is_open(kind),
        None => false,
    }
}
