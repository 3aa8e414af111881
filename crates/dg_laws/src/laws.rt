//! Laws of the definitions: each function here has an empty body, and its contract states what holds
//! of every schema and every graph, or of every sound one.
ghost use Rattle.dg_base.specs.Laws.{MoreFuelIsTheSame, ValuesFollowRules, CyclesAreCycles, DeletionTakesTheLeast, DirtyIsTheLeast, WeightsAddUp};

use dg_base::Schema;

/// A weight is 16, the bytes of a text, and the weights of the members of a list or a record.
pub fn weights_add_up()
    ensures { WeightsAddUp }
{}

/// An endpoint's value is that of any fuel from one more than the number of endpoints on, so no
/// value depends on how much more there was.
pub fn more_fuel_is_the_same<S: Schema>()
    ensures { MoreFuelIsTheSame S.tables }
{}

/// In a sound graph an endpoint's value is what its rule makes of the values of its dependencies.
pub fn values_follow_rules<S: Schema>()
    ensures { ValuesFollowRules S.tables }
{}

/// In every graph an endpoint that leads to itself along dependencies is a cycle, and so is each that
/// leads to it.
pub fn cycles_are_cycles<S: Schema>()
    ensures { CyclesAreCycles S.tables }
{}

/// What goes when a node is deleted is the least set that holds the node, the override nodes of its
/// members and what its members own, in id order.
pub fn deletion_takes_the_least<S: Schema>()
    ensures { DeletionTakesTheLeast S.tables }
{}

/// What is dirty in any graph is the least list that holds what was touched and every endpoint of the
/// graph with a dependency in it, in endpoint order, each once.
pub fn dirty_is_the_least<S: Schema>()
    ensures { DirtyIsTheLeast S.tables }
{}
