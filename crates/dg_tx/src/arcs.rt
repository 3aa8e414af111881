//! Steps that connect and disconnect.
ghost use Rattle.std.specs.Prelude.{◌≡◌, ◌++◌, ◌<◌, false, Some, length, IsTrue, OnOk};
ghost use Rattle.dg_base.specs.Role.{taken};
ghost use Rattle.dg_base.specs.Graph.{has_node};
ghost use Rattle.dg_base.specs.Sound.{IsSound, agree, max_arcs, role_at};
ghost use Rattle.dg_base.specs.Refusal.{Gives};
ghost use Rattle.dg_base.specs.Changes.{is_arc, with_arc};
ghost use Rattle.dg_base.specs.Progress.{IsReady};
ghost use Rattle.dg_base.specs.Steps.{connect_nodes, connected, disconnect_arc, freed, populated, typed_arc};
ghost use Rattle.dg_base.specs.Touched.{nodes_from, touched_nodes, touched_readers};
ghost use Rattle.dg_tx.specs.Outcome.{progress, Changes};

use crate::limits::MAX_ARCS;
use crate::roles::role_at;
use crate::touched::{touch_readers, touch_row};
use crate::work::Work;
use dg_base::{ArcRec, Refusal, Role, Schema, TxCode, Ty};
use dg_over::populate;
use dg_view::Graph;
use std::alloc::{AllocError, Global};

/// Connects a property or output to an input. A new arc into an input that owns its sources populates.
pub(crate) fn connect<S: Schema>(
    alloc: Global,
    work: &mut Work<S>,
    arc: ArcRec,
) -> Result<(), Refusal<TxCode>>
    requires ready { IsReady S.tables (progress work.old) }
    requires src_there { IsTrue (has_node work.old.graph arc.src.node) }
    requires there { IsTrue (has_node work.old.graph arc.node) }
    ensures graph { Gives (λ _. progress work.new) result (connect_nodes S.tables (progress work.old) arc) }
    ensures touched { OnOk result (work.new.touched.items ≡ work.old.touched.items ++ touched_readers S.tables work.old.graph (Some arc.node) arc.input ++ touched_nodes S.tables work.new.graph (nodes_from work.old.next work.new.graph)) }
{
    let given = role_at(&work.graph, arc.src.node, arc.src.label).given();
    let input = role_at(&work.graph, arc.node, arc.input);
    let populates = input.cascades() && !work.graph.has_arc(arc);
    touch_readers(&mut work.touched, &work.graph, arc.node, arc.input)?;
    put_typed(&mut work.graph, arc, input, given)?;
    populate_if(alloc, work, arc, populates)
}

// Adds an arc whose source is of a type, and whose input is of this role, where they fit.
fn put_typed<S: Schema>(
    graph: &mut Graph<S>,
    arc: ArcRec,
    input: Role,
    given: Option<Ty>,
) -> Result<(), Refusal<TxCode>>
    requires sound { IsSound S.tables graph.old }
    requires fits { IsTrue (agree given (taken input)) → is_arc graph.old arc ≡ false → length (freed input graph.old arc).arcs < max_arcs → IsSound S.tables (with_arc (freed input graph.old arc) arc) }
    ensures { Changes (λ p. typed_arc p arc input given (taken input)) graph.old graph.new result }
{
    let Some(given) = given else {
        return Err(Refusal::Because(TxCode::NotOutput));
    };
    let Some(taken) = input.taken() else {
        return Err(Refusal::Because(TxCode::NotInput));
    };
    if given != taken {
        return Err(Refusal::Because(TxCode::ArcType));
    }
    if graph.has_arc(arc) {
        return Ok(());
    }
    put_new(graph, arc, input)
}

// Adds an arc that isn't there. Into an input that takes one source it replaces the arc that is there.
fn put_new<S: Schema>(graph: &mut Graph<S>, arc: ArcRec, input: Role) -> Result<(), Refusal<TxCode>>
    requires sound { IsSound S.tables graph.old }
    requires fits { length (freed input graph.old arc).arcs < max_arcs → IsSound S.tables (with_arc (freed input graph.old arc) arc) }
    ensures { Changes (λ p. connected p arc (freed input p.graph arc)) graph.old graph.new result }
{
    free(graph, arc, input)?;
    if graph.arc_count() >= MAX_ARCS {
        return Err(Refusal::Because(TxCode::TooManyArcs));
    }
    graph.add_arc(arc)?;
    Ok(())
}

fn free<S: Schema>(graph: &mut Graph<S>, arc: ArcRec, input: Role) -> Result<(), AllocError>
    requires { IsSound S.tables graph.old }
    ensures { OnOk result (graph.new ≡ freed input graph.old arc) }
{
    if input.is_array() {
        Ok(())
    } else {
        graph.remove_arcs_into(arc.node, arc.input)
    }
}

fn populate_if<S: Schema>(
    alloc: Global,
    work: &mut Work<S>,
    arc: ArcRec,
    populates: bool,
) -> Result<(), Refusal<TxCode>>
    requires { IsReady S.tables (progress work.old) }
    ensures graph { Gives (λ _. progress work.new) result (populated S.tables arc populates (progress work.old)) }
    ensures touched { OnOk result (work.new.touched.items ≡ work.old.touched.items ++ touched_nodes S.tables work.new.graph (nodes_from work.old.next work.new.graph)) }
{
    if !populates {
        return Ok(());
    }
    let first = work.next;
    work.next = populate(alloc, &mut work.graph, arc.node, arc.input, first)?;
    touch_row(alloc, &mut work.touched, &work.graph, first, work.next)?;
    Ok(())
}

/// Removes an explicit arc.
pub(crate) fn disconnect<S: Schema>(work: &mut Work<S>, arc: ArcRec) -> Result<(), Refusal<TxCode>>
    requires ready { IsReady S.tables (progress work.old) }
    ensures graph { Gives (λ _. progress work.new) result (disconnect_arc (progress work.old) arc (taken (role_at S.tables work.old.graph arc.node arc.input))) }
    ensures touched { OnOk result (work.new.touched.items ≡ work.old.touched.items ++ touched_readers S.tables work.old.graph (Some arc.node) arc.input) }
{
    if role_at(&work.graph, arc.node, arc.input).taken().is_none() {
        return Err(Refusal::Because(TxCode::NotInput));
    }
    if !work.graph.has_arc(arc) {
        return Err(Refusal::Because(TxCode::NoArc));
    }
    touch_readers(&mut work.touched, &work.graph, arc.node, arc.input)?;
    work.graph.remove_arc(arc)?;
    Ok(())
}
