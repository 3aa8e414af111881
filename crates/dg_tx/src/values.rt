//! Steps that set and clear values.
ghost use Rattle.std.specs.Prelude.{◌≡◌, ◌++◌, Ok, Err, Some, cond, IsTrue, OnOk};
ghost use Rattle.dg_base.specs.declared.ids.NodeId.{NodeId};
ghost use Rattle.dg_base.specs.declared.refusal.Refusal.TheVariants.{Because};
ghost use Rattle.dg_base.specs.Graph.{has_node};
ghost use Rattle.dg_base.specs.Refusal.{Gives};
ghost use Rattle.dg_base.specs.Changes.{with_value, without_value};
ghost use Rattle.dg_base.specs.Progress.{Progress, IsReady, changed_to};
ghost use Rattle.dg_base.specs.Steps.{clear_by, clear_step, set_by, set_step};
ghost use Rattle.dg_base.specs.Touched.{touched_values};
ghost use Rattle.dg_tx.specs.Outcome.{progress};

use crate::roles::{is_open, role_at};
use crate::touched::touch_values;
use crate::work::Work;
use dg_base::{Datum, Label, NodeId, Refusal, Role, Schema, TxCode};
use std::alloc::Global;

/// Sets a value.
pub(crate) fn set<S: Schema>(
    alloc: Global,
    work: &mut Work<S>,
    node: NodeId,
    label: Label,
    value: &Datum,
) -> Result<(), Refusal<TxCode>>
    requires ready { IsReady S.tables (progress work.old) }
    requires there { IsTrue (has_node work.old.graph node) }
    ensures graph { Gives (λ _. progress work.new) result (set_step S.tables (progress work.old) (Some node) label value.now) }
    ensures touched { OnOk result (work.new.touched.items ≡ work.old.touched.items ++ touched_values S.tables work.old.graph (Some node) label) }
{
    let opens = is_open(&work.graph, node);
    may_set(label, value, opens, role_at(&work.graph, node, label))?;
    touch_values(&mut work.touched, &work.graph, node, label)?;
    let value = value.copy(alloc)?;
    work.graph.set_value(node, label, value)?;
    Ok(())
}

// Whether a label of this role takes the value, on a node that has open properties or not.
fn may_set(label: Label, value: &Datum, opens: bool, role: Role) -> Result<(), Refusal<TxCode>>
    ensures { (p : Progress) (n : NodeId) → Gives (λ _. changed_to p (with_value p.graph n label value.now)) result (set_by p n label value.now opens role) }
{
    match role {
        Role::Property(ty) => test(ty.has(value), TxCode::ValueType),
        Role::Nothing if opens && label.is_open() => {
            test(value.is_prop_named(label), TxCode::ValueType)
        }
        _ => Err(Refusal::Because(TxCode::NotProperty)),
    }
}

/// Clears a value.
pub(crate) fn clear<S: Schema>(
    work: &mut Work<S>,
    node: NodeId,
    label: Label,
) -> Result<(), Refusal<TxCode>>
    requires ready { IsReady S.tables (progress work.old) }
    requires there { IsTrue (has_node work.old.graph node) }
    ensures graph { Gives (λ _. progress work.new) result (clear_step S.tables (progress work.old) (Some node) label) }
    ensures touched { OnOk result (work.new.touched.items ≡ work.old.touched.items ++ touched_values S.tables work.old.graph (Some node) label) }
{
    let opens = is_open(&work.graph, node);
    may_clear(label, opens, role_at(&work.graph, node, label))?;
    touch_values(&mut work.touched, &work.graph, node, label)?;
    work.graph.clear_value(node, label)?;
    Ok(())
}

fn may_clear(label: Label, opens: bool, role: Role) -> Result<(), Refusal<TxCode>>
    ensures { (p : Progress) (n : NodeId) → Gives (λ _. changed_to p (without_value p.graph n label)) result (clear_by p n label opens role) }
{
    match role {
        Role::Property(_) => Ok(()),
        Role::Nothing => test(opens && label.is_open(), TxCode::NotProperty),
        _ => Err(Refusal::Because(TxCode::NotProperty)),
    }
}

fn test(passes: bool, code: TxCode) -> Result<(), Refusal<TxCode>>
    ensures { result ≡ cond passes (Ok tt) (Err (Because code)) }
{
    if passes {
        Ok(())
    } else {
        Err(Refusal::Because(code))
    }
}
