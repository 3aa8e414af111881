//! Which endpoints are cached outputs.
ghost use Rattle.std.specs.Prelude.{◌≡◌};
ghost use Rattle.dg_base.specs.Role.{is_cached};
ghost use Rattle.dg_base.specs.Evaluation.{is_cached_at};

use dg_base::{Endpoint, Role, Schema};
use dg_view::Graph;

/// Whether an endpoint is a cached output.
pub(crate) fn is_cached<S: Schema>(graph: &Graph<S>, at: Endpoint) -> bool
    ensures { result ≡ is_cached_at S.tables graph.now at }
{
    match graph.kind(at.node) {
        None => false,
        Some(kind) => is_cached_role(S::role(kind, at.label)),
    }
}

fn is_cached_role(role: Role) -> bool
    ensures { result ≡ is_cached role }
{
    match role {
        Role::Output { cached, .. } => cached,
        _ => false,
    }
}
