//! The endpoints of a node, and all endpoints of a graph.
ghost use Rattle.std.specs.Prelude.{◌≡◌, ◌++◌, IfOk, OnOk, map, filter, flat_map};
ghost use Rattle.dg_base.specs.Chain.{chain};
ghost use Rattle.dg_base.specs.Role.{is_given};
ghost use Rattle.dg_base.specs.Rule.{endpoints, endpoints_at, ends_of, open_fields};

use crate::chains::{ids, kind};
use crate::core_reads::CoreReads;
use crate::open_properties::open_fields;
use dg_base::{Endpoint, FieldOf, Kind, NodeId, Schema};
use std::alloc::AllocError;

/// The endpoints of a node: the properties and outputs of its kind in label order, then the open
/// labels that have a value on some node of its chain, in label order.
pub fn endpoints_at<S: Schema, G: CoreReads<S>>(
    graph: &G,
    node: NodeId,
) -> Result<Vec<Endpoint>, AllocError>
    ensures { IfOk result (λ v. v.items ≡ endpoints_at S.tables (G.graph graph.now) node) }
{
    let mut ends = Vec::new(graph.alloc());
    let Some(kind) = kind(graph, node) else {
        return Ok(ends);
    };
    add_given::<S>(&mut ends, kind, node)?;
    if S::is_open(kind) {
        add_open(&mut ends, graph, node)?;
    }
    Ok(ends)
}

/// The endpoints of all nodes, in id order. It reads the chain of each node.
pub fn endpoints<S: Schema, G: CoreReads<S>>(graph: &G) -> Result<Vec<Endpoint>, AllocError>
    ensures { IfOk result (λ v. v.items ≡ endpoints S.tables (G.graph graph.now)) }
{
    let ids = ids(graph)?;
    endpoints_of(graph, &ids)
}

fn add_given<S: Schema>(
    ends: &mut Vec<Endpoint>,
    kind: Kind,
    node: NodeId,
) -> Result<(), AllocError>
    ensures { OnOk result (ends.new.items ≡ ends.old.items ++ ends_of node (filter (λ l. is_given (S.tables.role kind l)) (S.tables.labels kind))) }
{
    let labels = S::labels(kind);
    for label in labels {
        if S::role(kind, *label).is_given() {
            ends.push(Endpoint {
                node,
                label: *label,
            })?;
        }
    }
    Ok(())
}

fn add_open<S: Schema, G: CoreReads<S>>(
    ends: &mut Vec<Endpoint>,
    graph: &G,
    node: NodeId,
) -> Result<(), AllocError>
    ensures { OnOk result (ends.new.items ≡ ends.old.items ++ ends_of node (map (λ f. f.label) (open_fields (chain (G.graph graph.now) node)))) }
{
    let fields = open_fields(graph, node)?;
    add_labels(ends, fields.as_slice(), node)
}

fn add_labels(ends: &mut Vec<Endpoint>, fields: &[FieldOf], node: NodeId) -> Result<(), AllocError>
    ensures { OnOk result (ends.new.items ≡ ends.old.items ++ ends_of node (map (λ f. f.label) fields.now)) }
{
    for field in fields {
        ends.push(Endpoint {
            node,
            label: field.label,
        })?;
    }
    Ok(())
}

fn endpoints_of<S: Schema, G: CoreReads<S>>(
    graph: &G,
    ids: &[NodeId],
) -> Result<Vec<Endpoint>, AllocError>
    ensures { IfOk result (λ v. v.items ≡ flat_map (endpoints_at S.tables (G.graph graph.now)) ids.now) }
{
    let mut ends = Vec::new(graph.alloc());
    for id in ids {
        ends.append(&mut endpoints_at(graph, *id)?)?;
    }
    Ok(ends)
}
