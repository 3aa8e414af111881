//! Laws of what is touched: each function here has an empty body, and its contract states what holds of
//! every schema and every graph, or of every transaction that is accepted.
ghost use Rattle.dg_touch.specs.Laws.{RulesReadChains, RulesAgreeOutsideTouched, ValuesAgreeOutsideDirty, DoingKeepsValues, UndoingKeepsValues};

use dg_base::Schema;

/// The rule of an endpoint is a function of what it reads: the chain of its node, and what the sources of
/// the inputs that it reads are found by.
pub fn rules_read_chains<S: Schema>()
    ensures { RulesReadChains S.tables }
{}

/// A transaction that is accepted touches every endpoint whose rule it changes.
pub fn rules_agree_outside_touched<S: Schema>()
    ensures { RulesAgreeOutsideTouched S.tables }
{}

/// Where each endpoint whose rule differs between two sound graphs is among some, rules and values are the
/// same outside of what these make dirty.
pub fn values_agree_outside_dirty<S: Schema>()
    ensures { ValuesAgreeOutsideDirty S.tables }
{}

/// A transaction, done the first time or again, keeps each rule and value outside of what is dirty after it.
pub fn doing_keeps_values<S: Schema>()
    ensures { DoingKeepsValues S.tables }
{}

/// A transaction that is taken back keeps each rule and value outside of what is dirty in the graph before it.
pub fn undoing_keeps_values<S: Schema>()
    ensures { UndoingKeepsValues S.tables }
{}
