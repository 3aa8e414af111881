//! The endpoints that a step touches. Each call adds them behind those that are there.
ghost use Rattle.std.specs.Prelude.{◌≡◌, ◌++◌, ◌≤◌, Some, flat_map, IfOk, OnOk};
ghost use Rattle.dg_base.specs.Order.{ordered};
ghost use Rattle.dg_base.specs.Chain.{kind_of};
ghost use Rattle.dg_base.specs.Rule.{endpoints_at, ends_of};
ghost use Rattle.dg_base.specs.Touched.{outputs, readers_of_input, touched_nodes, touched_outputs, touched_readers, touched_value, touched_values};
ghost use Rattle.dg_tx.specs.Ids.{ids_between};

use dg_base::{Endpoint, Label, NodeId, Schema};
use dg_view::Graph;
use std::alloc::{AllocError, Global};

/// A value is set or cleared: the property at each heir, and at an open one also the outputs that
/// read open values.
pub(crate) fn touch_values<S: Schema>(
    touched: &mut Vec<Endpoint>,
    graph: &Graph<S>,
    node: NodeId,
    label: Label,
) -> Result<(), AllocError>
    ensures { OnOk result (touched.new.items ≡ touched.old.items ++ touched_values S.tables graph.now (Some node) label) }
{
    let heirs = graph.heirs(node)?;
    touch_value_of_each(touched, graph, &heirs, label)
}

fn touch_value_of_each<S: Schema>(
    touched: &mut Vec<Endpoint>,
    graph: &Graph<S>,
    nodes: &[NodeId],
    label: Label,
) -> Result<(), AllocError>
    ensures { OnOk result (touched.new.items ≡ touched.old.items ++ flat_map (touched_value S.tables graph.now label) nodes.now) }
{
    for node in nodes {
        touch_value(touched, graph, *node, label)?;
    }
    Ok(())
}

fn touch_value<S: Schema>(
    touched: &mut Vec<Endpoint>,
    graph: &Graph<S>,
    node: NodeId,
    label: Label,
) -> Result<(), AllocError>
    ensures { OnOk result (touched.new.items ≡ touched.old.items ++ touched_value S.tables graph.now label node) }
{
    touched.push(Endpoint { node, label })?;
    if label.is_open() {
        touched.append(&mut graph.open_readers(node)?)?;
    }
    Ok(())
}

/// An arc into an input comes or goes: at each heir the outputs that read the input.
pub(crate) fn touch_readers<S: Schema>(
    touched: &mut Vec<Endpoint>,
    graph: &Graph<S>,
    node: NodeId,
    input: Label,
) -> Result<(), AllocError>
    ensures { OnOk result (touched.new.items ≡ touched.old.items ++ touched_readers S.tables graph.now (Some node) input) }
{
    let heirs = graph.heirs(node)?;
    touch_readers_of_each(touched, graph, &heirs, input)
}

fn touch_readers_of_each<S: Schema>(
    touched: &mut Vec<Endpoint>,
    graph: &Graph<S>,
    nodes: &[NodeId],
    input: Label,
) -> Result<(), AllocError>
    ensures { OnOk result (touched.new.items ≡ touched.old.items ++ flat_map (readers_of_input S.tables graph.now input) nodes.now) }
{
    for node in nodes {
        touched.append(&mut graph.readers_of_input(*node, input)?)?;
    }
    Ok(())
}

/// A mark comes or goes: the outputs of each heir.
pub(crate) fn touch_outputs<S: Schema>(
    touched: &mut Vec<Endpoint>,
    graph: &Graph<S>,
    node: NodeId,
) -> Result<(), AllocError>
    ensures { OnOk result (touched.new.items ≡ touched.old.items ++ touched_outputs S.tables graph.now (Some node)) }
{
    let heirs = graph.heirs(node)?;
    touch_outputs_of_each(touched, graph, &heirs)
}

fn touch_outputs_of_each<S: Schema>(
    touched: &mut Vec<Endpoint>,
    graph: &Graph<S>,
    nodes: &[NodeId],
) -> Result<(), AllocError>
    ensures { OnOk result (touched.new.items ≡ touched.old.items ++ flat_map (λ h. ends_of h (outputs S.tables (kind_of graph.now h))) nodes.now) }
{
    for node in nodes {
        touched.append(&mut graph.outputs_at(*node)?)?;
    }
    Ok(())
}

/// Nodes come or go: their endpoints, and each output that reads an input with a source on one of
/// them.
pub(crate) fn touch_nodes<S: Schema>(
    touched: &mut Vec<Endpoint>,
    graph: &Graph<S>,
    nodes: &[NodeId],
) -> Result<(), AllocError>
    ensures { OnOk result (touched.new.items ≡ touched.old.items ++ touched_nodes S.tables graph.now nodes.now) }
{
    touch_ends_of_each(touched, graph, nodes)?;
    touched.append(&mut graph.readers_of_nodes(nodes)?)?;
    Ok(())
}

fn touch_ends_of_each<S: Schema>(
    touched: &mut Vec<Endpoint>,
    graph: &Graph<S>,
    nodes: &[NodeId],
) -> Result<(), AllocError>
    ensures { OnOk result (touched.new.items ≡ touched.old.items ++ flat_map (endpoints_at S.tables graph.now) nodes.now) }
{
    for node in nodes {
        touched.append(&mut graph.endpoints_at(*node)?)?;
    }
    Ok(())
}

/// The nodes come whose ids are in a row, from the first id on and below the end.
pub(crate) fn touch_row<S: Schema>(
    alloc: Global,
    touched: &mut Vec<Endpoint>,
    graph: &Graph<S>,
    first: u32,
    end: u32,
) -> Result<(), AllocError>
    requires { first ≤ end }
    ensures { OnOk result (touched.new.items ≡ touched.old.items ++ touched_nodes S.tables graph.now (ids_between first end)) }
{
    if first == end {
        return Ok(());
    }
    let nodes = ids_between(alloc, first, end)?;
    touch_nodes(touched, graph, &nodes)
}

fn ids_between(alloc: Global, first: u32, end: u32) -> Result<Vec<NodeId>, AllocError>
    requires { first ≤ end }
    ensures { IfOk result (λ v. v.items ≡ ids_between first end) }
{
    let mut nodes = Vec::new(alloc);
    for id in first..end {
        nodes.push(NodeId(id))?;
    }
    Ok(nodes)
}

/// Endpoints in order, each once.
pub(crate) fn in_order(mut touched: Vec<Endpoint>) -> Vec<Endpoint>
    ensures { result.items ≡ ordered touched.items }
{
    touched.sort_unstable();
    touched.dedup();
    touched
}
