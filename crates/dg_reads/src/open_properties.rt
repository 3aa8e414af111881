//! The open values along a chain: at each label the one of the nearest node that has one.
ghost use Rattle.std.specs.Prelude.{◌≡◌, IfOk, OnOk, filter_map};
ghost use Rattle.dg_base.specs.Sound.{IsLinked};
ghost use Rattle.dg_base.specs.Chain.{chain};
ghost use Rattle.dg_base.specs.Rule.{has_open, open_fields, open_values, overlaid, prop_of};
ghost use Rattle.dg_reads.specs.NodeReads.{own_open};

use crate::core_reads::{CoreReads, is_linked};
use dg_base::{Datum, FieldOf, Fields, Label, NodeId, Origin, Props, Schema};
use dg_fields::put;
use std::alloc::{AllocError, Global};

// Whether a node of the chain has a value at a label.
pub(crate) fn has_open<S: Schema, G: CoreReads<S>>(graph: &G, node: NodeId, label: Label) -> bool
    requires { IsLinked (G.graph graph.now) }
    ensures { result ≡ has_open (chain (G.graph graph.now) node) label }
{
    let mut at = node;
    while let Some(origin) = graph.origin(at) {
        if graph.property(at, label).is_some() {
            return true;
        }
        match origin {
            Origin::Over { original, .. } => at = original,
            Origin::Plain(_) => return false,
        }
    }
    false
}

// The open values along a chain, in label order.
pub(crate) fn open_values<S: Schema, G: CoreReads<S>>(
    graph: &G,
    node: NodeId,
) -> Result<Props, AllocError>
    ensures { IfOk result (λ ps. ps ≡ open_values (chain (G.graph graph.now) node)) }
{
    let fields = open_fields(graph, node)?;
    props_in(graph.alloc(), fields.as_slice())
}

// The fields that hold them. Up the chain to the plain node, and then down again, where each node's
// values are laid over those above it.
pub(crate) fn open_fields<S: Schema, G: CoreReads<S>>(
    graph: &G,
    node: NodeId,
) -> Result<Fields, AllocError>
    ensures { IfOk result (λ fs. fs ≡ open_fields (chain (G.graph graph.now) node)) }
{
    is_linked(graph);
    fields_along(graph, node)
}

fn fields_along<S: Schema, G: CoreReads<S>>(graph: &G, node: NodeId) -> Result<Fields, AllocError>
    requires { IsLinked (G.graph graph.now) }
    ensures { IfOk result (λ fs. fs ≡ open_fields (chain (G.graph graph.now) node)) }
{
    let mut below = Vec::new(graph.alloc());
    let mut at = node;
    while let Some(Origin::Over { original, .. }) = graph.origin(at) {
        below.push(at)?;
        at = original;
    }
    let mut fields = Fields::new(graph.alloc());
    lay_own(graph, at, &mut fields)?;
    while let Some(over) = below.pop() {
        lay_own(graph, over, &mut fields)?;
    }
    Ok(fields)
}

fn lay_own<S: Schema, G: CoreReads<S>>(
    graph: &G,
    node: NodeId,
    fields: &mut Fields,
) -> Result<(), AllocError>
    ensures { OnOk result (fields.new ≡ overlaid (own_open (G.graph graph.now) node) fields.old) }
{
    let own = graph.own_open(node)?;
    lay_over(graph.alloc(), own, fields)
}

fn lay_over(alloc: Global, own: Fields, fields: &mut Fields) -> Result<(), AllocError>
    ensures { OnOk result (fields.new ≡ overlaid own fields.old) }
{
    let mut left = own;
    while let Some(field) = left.pop() {
        put(alloc, fields, field.label, field.value)?;
    }
    Ok(())
}

fn props_in(alloc: Global, fields: &[FieldOf]) -> Result<Props, AllocError>
    ensures { IfOk result (λ ps. ps ≡ filter_map (λ f. prop_of f.value) fields.now) }
{
    let mut props = Props::new(alloc);
    for field in fields {
        if let Datum::Prop(prop) = &field.value {
            props.push(prop.copy()?)?;
        }
    }
    Ok(props)
}
