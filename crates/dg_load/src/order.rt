//! The order in which collections are filled.
ghost use Rattle.std.specs.Prelude.{◌≡◌, IfOk, OnOk, fold};
ghost use Rattle.dg_load.specs.Order.{named_in, visit, visit_all, order_of};

use crate::named::Named;
use dg_desc::CollInstDesc;
use dg_sources::{CollSource, Reads};
use std::alloc::{AllocError, Global};

/// A walk over the collections: those that were begun, by their paths, and those that are done, in order.
#[derive(Drop)]
pub struct Walk {
    pub begun: Named<usize>,
    pub done: Reads<usize>,
}

/// The order in which the collections are filled, by their places in the list: one after the other, but before each
/// those that its instances name, in order, unless they are begun. `places` has the places of their
/// paths. It takes time linear in the instances, on average, and is as deep as collections stand in each other.
pub(crate) fn order_of(
    alloc: Global,
    sources: &[CollSource],
    places: &Named<usize>,
) -> Result<Reads<usize>, AllocError>
    ensures { IfOk result (λ order. order ≡ order_of sources.now places.now) }
{
    let mut walk = Walk {
        begun: Named::new(alloc),
        done: Reads::new(alloc),
    };
    visit_all(&mut walk, sources, places)?;
    Ok(walk.done)
}

// The instances of collections in the collection at a place.
fn named_in(sources: &[CollSource], at: usize) -> &[CollInstDesc]
    ensures { result.now ≡ named_in sources.now at }
{
    match sources.get(at) {
        None => &[],
        Some(source) => match &source.read {
            Err(_) => &[],
            Ok(desc) => desc.collection_instances.as_slice(),
        },
    }
}

fn visit_all(
    walk: &mut Walk,
    sources: &[CollSource],
    places: &Named<usize>,
) -> Result<(), AllocError>
    ensures { OnOk result (walk.new ≡ visit_all sources.now places.now walk.old) }
{
    for source in sources {
        visit(walk, sources.len(), sources, places, source.path.as_str())?;
    }
    Ok(())
}

// The collection of a path, with so many levels of collections in it that weren't begun at most.
#[cycle(visit)]
fn visit(
    walk: &mut Walk,
    levels: usize,
    sources: &[CollSource],
    places: &Named<usize>,
    path: &str,
) -> Result<(), AllocError>
    ensures { OnOk result (walk.new ≡ visit levels sources.now places.now walk.old path.now) }
{
    if levels == 0 || walk.begun.find(path).is_some() {
        return Ok(());
    }
    let Some(at) = places.find(path) else {
        return Ok(());
    };
    walk.begun.put(path, at)?;
    visit_each(walk, levels - 1, sources, places, named_in(sources, at))?;
    walk.done.push(at)
}

#[cycle(visit)]
fn visit_each(
    walk: &mut Walk,
    levels: usize,
    sources: &[CollSource],
    places: &Named<usize>,
    descs: &[CollInstDesc],
) -> Result<(), AllocError>
    ensures { OnOk result (walk.new ≡ fold (λ w d. visit levels sources.now places.now w d.collection) walk.old descs.now) }
{
    for desc in descs {
        visit(walk, levels, sources, places, desc.collection.as_str())?;
    }
    Ok(())
}
