//! The arcs into an input and those out of a node, read from the index where they stand side by side.
ghost use Rattle.std.specs.Prelude.{◌≡◌, ◌++◌, drop, IfOk, OnOk};
ghost use Rattle.std.specs.List.{list_all};
ghost use Rattle.dg_base.specs.Graph.{explicit_sources};
ghost use Rattle.dg_arcs.specs.ArcLists.{arcs_alone, arcs_out_of};
ghost use Rattle.dg_arcs.specs.Kept.{arcs_after, comes_into, goes_out_of, sources_after};

use crate::Arcs;
use dg_base::{ArcRec, Endpoint, Label, NodeId};
use dg_pmap::PMap;
use std::alloc::{AllocError, Global};

impl Arcs {
    /// The sources of the arcs into an input, in the order in which they were connected. The first is
    /// found in time logarithmic in the arcs, and so is each chunk of those that follow; the other arcs
    /// are not read.
    pub fn explicit_sources(&self, node: NodeId, input: Label) -> Result<Vec<Endpoint>, AllocError>
        ensures { IfOk result (λ v. v.items ≡ explicit_sources (arcs_alone self.now) node input) }
    {
        let start = self.targets.position(&((node, input), 0));
        let sources = sources_from(self.alloc, &self.targets, start, node, input)?;
        Ok(sources)
    }

    /// The arcs from a node's properties and outputs, in the order in which they were connected. The
    /// first is found in time logarithmic in the arcs, and so is each chunk of those that follow; the
    /// other arcs are not read.
    pub fn out_of(&self, node: NodeId) -> Result<Vec<ArcRec>, AllocError>
        ensures { IfOk result (λ v. v.items ≡ arcs_out_of self.now node) }
    {
        let start = self.sources.position(&(node, 0));
        let arcs = arcs_from(self.alloc, &self.sources, start, node)?;
        Ok(arcs)
    }
}

// ---- by target

fn sources_from(
    alloc: Global,
    targets: &PMap<((NodeId, Label), u64), Endpoint>,
    start: usize,
    node: NodeId,
    input: Label,
) -> Result<Vec<Endpoint>, AllocError>
    ensures { IfOk result (λ v. v.items ≡ sources_after node input (drop start targets.now)) }
{
    let mut sources = Vec::new(alloc);
    let mut place = start;
    while place < targets.len() {
        let run = targets.run_at(place);
        if !add_sources(&mut sources, run, node, input)? {
            return Ok(sources);
        }
        place += run.len();
    }
    Ok(sources)
}

// Those of one chunk. Says whether all of it comes into the input.
fn add_sources(
    sources: &mut Vec<Endpoint>,
    run: &[(((NodeId, Label), u64), Endpoint)],
    node: NodeId,
    input: Label,
) -> Result<bool, AllocError>
    ensures ok { OnOk result (sources.new.items ≡ sources.old.items ++ sources_after node input run.now) }
    ensures more { IfOk result (λ more. more ≡ list_all (comes_into node input) run.now) }
{
    for entry in run {
        if !is_into(entry, node, input) {
            return Ok(false);
        }
        sources.push(entry.1)?;
    }
    Ok(true)
}

fn is_into(entry: &(((NodeId, Label), u64), Endpoint), node: NodeId, input: Label) -> bool
    ensures { result ≡ comes_into node input entry.now }
{
    let (target, _) = entry.0;
    target.0 == node && target.1 == input
}

// ---- by source

fn arcs_from(
    alloc: Global,
    sources: &PMap<(NodeId, u64), ArcRec>,
    start: usize,
    node: NodeId,
) -> Result<Vec<ArcRec>, AllocError>
    ensures { IfOk result (λ v. v.items ≡ arcs_after node (drop start sources.now)) }
{
    let mut arcs = Vec::new(alloc);
    let mut place = start;
    while place < sources.len() {
        let run = sources.run_at(place);
        if !add_arcs(&mut arcs, run, node)? {
            return Ok(arcs);
        }
        place += run.len();
    }
    Ok(arcs)
}

// Those of one chunk. Says whether all of it goes out of the node.
fn add_arcs(
    arcs: &mut Vec<ArcRec>,
    run: &[((NodeId, u64), ArcRec)],
    node: NodeId,
) -> Result<bool, AllocError>
    ensures ok { OnOk result (arcs.new.items ≡ arcs.old.items ++ arcs_after node run.now) }
    ensures more { IfOk result (λ more. more ≡ list_all (goes_out_of node) run.now) }
{
    for entry in run {
        if !is_out_of(entry, node) {
            return Ok(false);
        }
        arcs.push(entry.1)?;
    }
    Ok(true)
}

fn is_out_of(entry: &((NodeId, u64), ArcRec), node: NodeId) -> bool
    ensures { result ≡ goes_out_of node entry.now }
{
    let (source, _) = entry.0;
    source == node
}
