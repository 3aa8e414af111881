//! Which outputs read an input, the open values, or what comes from some nodes.
ghost use Rattle.std.specs.Prelude.{◌≡◌, ◌&&◌, ◌++◌, IfOk, OnOk, filter, flat_map};
ghost use Rattle.std.specs.List.{list_any};
ghost use Rattle.dg_base.specs.Chain.{kind_of};
ghost use Rattle.dg_base.specs.Order.{is_node_among};
ghost use Rattle.dg_base.specs.Role.{is_output};
ghost use Rattle.dg_base.specs.Rule.{ends_of};
ghost use Rattle.dg_base.specs.Touched.{is_fed_by, is_open_arg, outputs, outputs_reading, readers_of_input, readers_of_nodes};
ghost use Rattle.dg_reads.specs.ArgReads.{is_read};

use crate::chains::{ids, kind};
use crate::core_reads::CoreReads;
use crate::inputs::sources;
use crate::sets::NodeSet;
use dg_base::{ArgSpec, Endpoint, Kind, Label, NodeId, Schema};
use std::alloc::AllocError;

/// What an output may read: an input, the open values, or an input with a source on these nodes.
#[derive(Drop)]
pub(crate) enum Reads {
    Input(Label),
    Open,
    Fed(NodeSet),
}

/// The outputs of a node, in label order.
pub fn outputs_at<S: Schema, G: CoreReads<S>>(
    graph: &G,
    node: NodeId,
) -> Result<Vec<Endpoint>, AllocError>
    ensures { IfOk result (λ v. v.items ≡ ends_of node (outputs S.tables (kind_of (G.graph graph.now) node))) }
{
    let mut ends = Vec::new(graph.alloc());
    if let Some(kind) = kind(graph, node) {
        add_outputs::<S>(&mut ends, kind, node)?;
    }
    Ok(ends)
}

/// The outputs of a node that read an input of it, in label order.
pub fn readers_of_input<S: Schema, G: CoreReads<S>>(
    graph: &G,
    node: NodeId,
    input: Label,
) -> Result<Vec<Endpoint>, AllocError>
    ensures { IfOk result (λ v. v.items ≡ readers_of_input S.tables (G.graph graph.now) input node) }
{
    outputs_reading(graph, node, &Reads::Input(input))
}

/// The outputs of a node that read its open values, in label order.
pub fn open_readers<S: Schema, G: CoreReads<S>>(
    graph: &G,
    node: NodeId,
) -> Result<Vec<Endpoint>, AllocError>
    ensures { IfOk result (λ v. v.items ≡ outputs_reading S.tables (G.graph graph.now) is_open_arg node) }
{
    outputs_reading(graph, node, &Reads::Open)
}

/// The outputs that read an input with a source on one of these nodes, inherited sources included,
/// in endpoint order. For each node of the graph it reads the sources of each input that an output
/// has as an argument.
pub fn readers_of_nodes<S: Schema, G: CoreReads<S>>(
    graph: &G,
    nodes: &[NodeId],
) -> Result<Vec<Endpoint>, AllocError>
    ensures { IfOk result (λ v. v.items ≡ readers_of_nodes S.tables (G.graph graph.now) nodes.now) }
{
    let reads = Reads::Fed(NodeSet::of(graph.alloc(), nodes)?);
    let ids = ids(graph)?;
    all_reading(graph, &ids, &reads)
}

fn add_outputs<S: Schema>(
    ends: &mut Vec<Endpoint>,
    kind: Kind,
    node: NodeId,
) -> Result<(), AllocError>
    ensures { OnOk result (ends.new.items ≡ ends.old.items ++ ends_of node (filter (λ l. is_output (S.tables.role kind l)) (S.tables.labels kind))) }
{
    let labels = S::labels(kind);
    for label in labels {
        if S::role(kind, *label).is_output() {
            ends.push(Endpoint {
                node,
                label: *label,
            })?;
        }
    }
    Ok(())
}

fn all_reading<S: Schema, G: CoreReads<S>>(
    graph: &G,
    ids: &[NodeId],
    reads: &Reads,
) -> Result<Vec<Endpoint>, AllocError>
    ensures { IfOk result (λ v. v.items ≡ flat_map (λ n. outputs_reading S.tables (G.graph graph.now) (is_read (G.graph graph.now) n reads.now) n) ids.now) }
{
    let mut ends = Vec::new(graph.alloc());
    for id in ids {
        ends.append(&mut outputs_reading(graph, *id, reads)?)?;
    }
    Ok(ends)
}

fn outputs_reading<S: Schema, G: CoreReads<S>>(
    graph: &G,
    node: NodeId,
    reads: &Reads,
) -> Result<Vec<Endpoint>, AllocError>
    ensures { IfOk result (λ v. v.items ≡ outputs_reading S.tables (G.graph graph.now) (is_read (G.graph graph.now) node reads.now) node) }
{
    let mut ends = Vec::new(graph.alloc());
    if let Some(kind) = kind(graph, node) {
        add_reading(&mut ends, graph, kind, node, reads)?;
    }
    Ok(ends)
}

fn add_reading<S: Schema, G: CoreReads<S>>(
    ends: &mut Vec<Endpoint>,
    graph: &G,
    kind: Kind,
    node: NodeId,
    reads: &Reads,
) -> Result<(), AllocError>
    ensures { OnOk result (ends.new.items ≡ ends.old.items ++ ends_of node (filter (λ l. list_any (is_read (G.graph graph.now) node reads.now) (S.tables.args kind l)) (filter (λ l. is_output (S.tables.role kind l)) (S.tables.labels kind)))) }
{
    let labels = S::labels(kind);
    for label in labels {
        if is_reader(
            graph,
            kind,
            Endpoint {
                node,
                label: *label,
            },
            reads,
        )? {
            ends.push(Endpoint {
                node,
                label: *label,
            })?;
        }
    }
    Ok(())
}

fn is_reader<S: Schema, G: CoreReads<S>>(
    graph: &G,
    kind: Kind,
    end: Endpoint,
    reads: &Reads,
) -> Result<bool, AllocError>
    ensures { IfOk result (λ b. b ≡ (is_output (S.tables.role kind end.label) && list_any (is_read (G.graph graph.now) end.node reads.now) (S.tables.args kind end.label))) }
{
    if S::role(kind, end.label).is_output() {
        reads_one(graph, end.node, S::args(kind, end.label), reads)
    } else {
        Ok(false)
    }
}

fn reads_one<S: Schema, G: CoreReads<S>>(
    graph: &G,
    node: NodeId,
    args: &[ArgSpec],
    reads: &Reads,
) -> Result<bool, AllocError>
    ensures { IfOk result (λ b. b ≡ list_any (is_read (G.graph graph.now) node reads.now) args.now) }
{
    for arg in args {
        if is_read(graph, node, *arg, reads)? {
            return Ok(true);
        }
    }
    Ok(false)
}

fn is_read<S: Schema, G: CoreReads<S>>(
    graph: &G,
    node: NodeId,
    arg: ArgSpec,
    reads: &Reads,
) -> Result<bool, AllocError>
    ensures { IfOk result (λ b. b ≡ is_read (G.graph graph.now) node reads.now arg) }
{
    match (reads, arg) {
        (Reads::Input(label), ArgSpec::Input(input)) => Ok(label.0 == input.0),
        (Reads::Open, ArgSpec::Open) => Ok(true),
        (Reads::Fed(nodes), ArgSpec::Input(input)) => is_fed_by(graph, nodes, node, input),
        _ => Ok(false),
    }
}

fn is_fed_by<S: Schema, G: CoreReads<S>>(
    graph: &G,
    nodes: &NodeSet,
    node: NodeId,
    input: Label,
) -> Result<bool, AllocError>
    ensures { IfOk result (λ b. b ≡ is_fed_by (G.graph graph.now) nodes.now node input) }
{
    let sources = sources(graph, node, input)?;
    Ok(is_one_on(&sources, nodes))
}

fn is_one_on(ends: &[Endpoint], nodes: &NodeSet) -> bool
    ensures { result ≡ list_any (λ s. is_node_among nodes.now s.node) ends.now }
{
    for end in ends {
        if nodes.has(end.node) {
            return true;
        }
    }
    false
}
