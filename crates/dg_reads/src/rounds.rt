//! What is dirty where some endpoints were touched, found in rounds over the dependencies of all
//! endpoints.
ghost use Rattle.std.specs.Prelude.{◌≡◌, ◌++◌, false, length, map, IfOk, OnOk};
ghost use Rattle.std.specs.List.{list_any};
ghost use Rattle.dg_base.specs.Dirty.{dirty};
ghost use Rattle.dg_base.specs.Order.{is_end_among, ordered};
ghost use Rattle.dg_reads.specs.DirtyRounds.{endpoint_dependencies, settled, spread_over, waiting};

use crate::core_reads::CoreReads;
use crate::ends::endpoints;
use crate::rules::dependencies;
use crate::sets::EndSet;
use dg_base::{Endpoint, Ends, Schema};
use std::alloc::{AllocError, Global};

/// An endpoint with its dependencies.
#[derive(Drop)]
pub(crate) struct EndpointDependencies {
    pub(crate) at: Endpoint,
    pub(crate) on: Ends,
}

/// These endpoints, and every endpoint of the graph that depends on one of them, at first hand or
/// through others, in endpoint order, each once. The rule of each endpoint of the graph is read once;
/// then there is a round over all dependencies for each step of the longest way.
pub fn dirty<S: Schema, G: CoreReads<S>>(
    graph: &G,
    touched: &[Endpoint],
) -> Result<Vec<Endpoint>, AllocError>
    ensures { IfOk result (λ v. v.items ≡ dirty S.tables (G.graph graph.now) touched.now) }
{
    let ends = endpoints(graph)?;
    let all = dependencies_of(graph, &ends)?;
    let mut dirty = EndSet::of(graph.alloc(), touched)?;
    settle(graph.alloc(), &all, &mut dirty)?;
    dirty.to_vec(graph.alloc())
}

// These endpoints, each with its dependencies.
fn dependencies_of<S: Schema, G: CoreReads<S>>(
    graph: &G,
    ends: &[Endpoint],
) -> Result<Vec<EndpointDependencies>, AllocError>
    ensures { IfOk result (λ v. v.items ≡ map (endpoint_dependencies S.tables (G.graph graph.now)) ends.now) }
{
    let mut all = Vec::new(graph.alloc());
    for end in ends {
        let on = Ends::from_vec(dependencies(graph, *end)?);
        all.push(EndpointDependencies { at: *end, on })?;
    }
    Ok(all)
}

// Rounds, until one changes nothing.
fn settle(alloc: Global, all: &[EndpointDependencies], dirty: &mut EndSet) -> Result<(), AllocError>
    requires { dirty.old ≡ ordered dirty.old }
    ensures { OnOk result (dirty.new ≡ settled (length all.now) all.now dirty.old) }
{
    for _round in 0..all.len() {
        if !spread(alloc, all, dirty)? {
            return Ok(());
        }
    }
    Ok(())
}

// One round. Says whether an endpoint is new.
fn spread(
    alloc: Global,
    all: &[EndpointDependencies],
    dirty: &mut EndSet,
) -> Result<bool, AllocError>
    requires { dirty.old ≡ ordered dirty.old }
    ensures ok { OnOk result (dirty.new ≡ spread_over all.now dirty.old) }
    ensures more { IfOk result (λ more. more ≡ false → dirty.new ≡ dirty.old) }
{
    let ends = waiting(alloc, all, dirty)?;
    put_all(dirty, &ends)
}

// The endpoints that depend on a dirty one.
fn waiting(
    alloc: Global,
    all: &[EndpointDependencies],
    dirty: &EndSet,
) -> Result<Vec<Endpoint>, AllocError>
    ensures { IfOk result (λ v. v.items ≡ waiting all.now dirty.now) }
{
    let mut ends = Vec::new(alloc);
    for one in all {
        if is_one_of(one.on.as_slice(), dirty) {
            ends.push(one.at)?;
        }
    }
    Ok(ends)
}

fn is_one_of(ends: &[Endpoint], dirty: &EndSet) -> bool
    ensures { result ≡ list_any (is_end_among dirty.now) ends.now }
{
    for end in ends {
        if dirty.has(*end) {
            return true;
        }
    }
    false
}

// Says whether an endpoint is new.
fn put_all(dirty: &mut EndSet, ends: &[Endpoint]) -> Result<bool, AllocError>
    requires { dirty.old ≡ ordered dirty.old }
    ensures ok { OnOk result (dirty.new ≡ ordered (dirty.old ++ ends.now)) }
    ensures more { IfOk result (λ more. more ≡ false → dirty.new ≡ dirty.old) }
{
    let mut more = false;
    for end in ends {
        if dirty.put(*end)? {
            more = true;
        }
    }
    Ok(more)
}
