//! The project that a run begins with.
ghost use Rattle.std.specs.Prelude.{◌≡◌, ◌≤◌, [], OnOk, IfOk, IfSome, IsErrOf};
ghost use Rattle.dg_base.specs.Refusal.{Gives};
ghost use Rattle.dg_files.specs.Outcome.{Rose, StaysSound};
ghost use Rattle.dg_kinds_coll.specs.Defold.{defold_tables};
ghost use Rattle.dg_tool.specs.Input.{Tells};
ghost use Rattle.dg_tool.specs.Project.{bind_loaded, bind_next, limit_of, limit_of_step, loaded, project_of};
ghost use Rattle.dg_tool.specs.Seen.{seen_project};

use crate::halt::{Halt, Limit};
use dg_base::{Names, NodeId, Refusal, TxCode};
use dg_bind::Bindings;
use dg_files::Files;
use dg_load::{Bound, Loaded, load};
use dg_play::{Begin, Opener};
use dg_sources::{BadPlaces, Large, LoadEnd};
use std::alloc::{AllocError, Global};

/// A project that was loaded: what a script begins with, the bad places of its files, and how many of them were read.
#[derive(Drop)]
pub(crate) struct Project<X> {
    pub(crate) begin: Begin<X>,
    pub(crate) bad: BadPlaces,
    pub(crate) file_count: u32,
}

/// Loads the project. The files are read and nothing else.
pub(crate) fn loaded<F: Files, O: Opener + Drop>(
    alloc: Global,
    opener: O,
    files: &mut F,
) -> Result<Project<O::Game>, Refusal<Halt>>
    ensures told { IfSome (F.tree files.old) (λ t. Tells (seen_project O.editor) result (loaded defold_tables t)) }
    ensures tree { F.tree files.new ≡ F.tree files.old }
    ensures never_falls { F.faults files.old ≤ F.faults files.new }
    ensures cause { IsErrOf result (Refusal.Because Halt.FileFault) → Rose (F.faults files.old) (F.faults files.new) }
    ensures sound { StaysSound F.is_sound F.faults files.old files.new }
{
    let mut names = Names::new(alloc);
    match load(alloc, files, &mut names) {
        Ok(loaded) => project_of(alloc, opener, names, loaded),
        Err(Refusal::Because(LoadEnd::TooLarge(what))) => Err(Refusal::Because(Halt::TooLarge(
            limit_of(what),
        ))),
        Err(Refusal::Because(LoadEnd::FileFault)) => Err(Refusal::Because(Halt::FileFault)),
        Err(Refusal::NoMemory) => Err(Refusal::NoMemory),
    }
}

fn limit_of(what: Large) -> Limit
    ensures { result ≡ limit_of what }
{
    match what {
        Large::Files => Limit::Files,
        Large::File => Limit::File,
        Large::Total => Limit::Total,
    }
}

/// The project of a load: its steps are the first transaction, and its names are bound.
pub(crate) fn project_of<O: Opener + Drop>(
    alloc: Global,
    opener: O,
    names: Names,
    loaded: Loaded,
) -> Result<Project<O::Game>, Refusal<Halt>>
    ensures told { Gives (seen_project O.editor) result (project_of defold_tables names loaded) }
    ensures no_fault { ¬ IsErrOf result (Refusal.Because Halt.FileFault) }
{
    let (game, made) = match opener.open(alloc, loaded.steps.as_slice()) {
        Ok(opened) => opened,
        Err(Refusal::Because(refused)) => {
            return Err(Refusal::Because(Halt::TooLarge(limit_of_step(refused.code))));
        }
        Err(Refusal::NoMemory) => return Err(Refusal::NoMemory),
    };
    let mut bound = Bindings::new(alloc);
    match bind_loaded(&mut bound, made.as_slice(), loaded.bound.as_slice()) {
        Ok(()) => Ok(Project {
            begin: Begin { game, bound, names },
            bad: loaded.bad,
            file_count: loaded.file_count,
        }),
        Err(_) => Err(Refusal::NoMemory),
    }
}

fn limit_of_step(code: TxCode) -> Limit
    ensures { result ≡ limit_of_step code }
{
    match code {
        TxCode::TooManyArcs => Limit::Arcs,
        _ => Limit::Nodes,
    }
}

// Binds each name to the node that the making step of its number made.
fn bind_loaded(bound: &mut Bindings, made: &[NodeId], loaded: &[Bound]) -> Result<(), AllocError>
    ensures { OnOk result (bound.new ≡ bind_loaded made.now loaded.now bound.old) }
{
    for next in loaded {
        bind_next(bound, made, next)?;
    }
    Ok(())
}

fn bind_next(bound: &mut Bindings, made: &[NodeId], next: &Bound) -> Result<(), AllocError>
    ensures { OnOk result (bound.new ≡ bind_next made.now bound.old next.now) }
{
    match made.get(next.node as usize) {
        Some(node) => bound.bind(next.name.as_str(), *node),
        None => Ok(()),
    }
}
