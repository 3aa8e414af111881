//! Laws of the walk of an evaluation: each function here has an empty body, and its contract states what
//! holds of every schema and every graph.
ghost use Rattle.dg_walks.specs.Laws.{HitsAreEnough};

use dg_base::Schema;

/// A walk of which the hits of another one alone are known lists the same, and has the same hits. So what
/// an evaluation offers says by itself that it is whole.
pub fn hits_are_enough<S: Schema>()
    ensures { HitsAreEnough S.tables }
{}
