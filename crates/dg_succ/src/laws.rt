//! What holds of the least lists: each function here has an empty body, and its contract states the law.
ghost use Rattle.dg_succ.specs.Laws.{LeastClosuresAreOne, DirtyIsAClosure};

use dg_base::Schema;

/// There is only one least list in endpoint order that holds some endpoints and follows the pairs.
pub fn least_closures_are_one()
    ensures { LeastClosuresAreOne }
{}

/// What is dirty in any graph is the least list over the pairs that lead from each dependency of an
/// endpoint of the graph to that endpoint.
pub fn dirty_is_a_closure<S: Schema>()
    ensures { DirtyIsAClosure S.tables }
{}
