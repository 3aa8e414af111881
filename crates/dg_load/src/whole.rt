//! The load of a project.
ghost use Rattle.std.specs.Prelude.{◌≡◌, ◌≢◌, ◌≤◌, ◌+◌, [], AllPairs, IfOk, IfSome, IsErrOf, OnErr, OnOk, fold, take};
ghost use Rattle.dg_base.specs.Names.{interned};
ghost use Rattle.dg_files.specs.Outcome.{Rose, StaysSound};
ghost use Rattle.dg_sources.specs.Project.{Tells};
ghost use Rattle.dg_load.specs.Loads.{all_parts, all_filled, draft_in, loaded_in, names_in, load_of};

use crate::draft::{Bound, Draft};
use crate::order::order_of;
use crate::state::Load;
use dg_base::{FIRST_OPEN, Label, Names, Refusal, Step, Str};
use dg_files::Files;
use dg_sources::{BadPlaces, CollSource, LoadEnd, Reads, Sources, read_sources};
use std::alloc::{AllocError, Global};

/// What a project becomes: the steps that make its graph, the names that are bound to the nodes that these make, of equal
/// names the last one, the bad places in order, and how many files were read.
#[derive(Drop)]
pub struct Loaded {
    pub steps: Reads<Step>,
    pub bound: Reads<Bound>,
    pub bad: BadPlaces,
    pub file_count: u32,
}

/// Loads a project: its files are listed and read, and become the steps that make its graph. `names` are the names that
/// are interned by then, and those behind it after an Ok; a refused load leaves them as they were.
///
/// Refused is the first limit that the project passes: the paths that are listed, the files that are read, the bytes of a
/// file, the bytes of all of them. A fault is answered only where a call of the files failed. It takes time linear in the
/// files' bytes and in the steps, on average, beside sorting the paths and the bad places.
pub fn load<F: Files>(
    alloc: Global,
    files: &mut F,
    names: &mut Names,
) -> Result<Loaded, Refusal<LoadEnd>>
    ensures told { IfSome (F.tree files.old) (λ t. Tells (λ loaded. (loaded, names.new)) result (load_of t names.old)) }
    ensures tree { F.tree files.new ≡ F.tree files.old }
    ensures refused { OnErr result (names.new ≡ names.old) }
    ensures never_falls { F.faults files.old ≤ F.faults files.new }
    ensures cause { IsErrOf result (Refusal.Because LoadEnd.FileFault) → Rose (F.faults files.old) (F.faults files.new) }
    ensures sound { StaysSound F.is_sound F.faults files.old files.new }
{
    let sources = read_sources(alloc, files)?;
    Ok(load_sources(alloc, &sources, names)?)
}

/// Loads what the files of a project say, in time linear in their texts and in the steps, on average, beside sorting the
/// bad places. A refused call leaves the names as they were.
pub fn load_sources(
    alloc: Global,
    sources: &Sources,
    names: &mut Names,
) -> Result<Loaded, AllocError>
    ensures loaded { IfOk result (λ loaded. loaded ≡ loaded_in sources.now names.old) }
    ensures names { OnOk result (names.new ≡ names_in sources.now names.old) }
    ensures refused { OnErr result (names.new ≡ names.old) }
{
    let mut draft = draft_in(alloc, sources, names)?;
    draft.bad.sort()?;
    Ok(finished(draft, sources.file_count, names))
}

// All that a load makes.
fn draft_in(alloc: Global, sources: &Sources, names: &Names) -> Result<Draft, AllocError>
    ensures { IfOk result (λ draft. draft ≡ draft_in sources.now names.now) }
{
    let mut load = Load::new(alloc, copy_names(alloc, names)?);
    load.all_parts(alloc, sources)?;
    let Load { draft, .. } = load;
    Ok(draft)
}

// What is answered of it. Its names become the interned ones.
fn finished(draft: Draft, file_count: u32, names: &mut Names) -> Loaded
    ensures loaded { result ≡ record { steps = draft.steps; bound = draft.bound; bad = draft.bad; file_count = file_count } }
    ensures names { names.new ≡ draft.names }
{
    let Draft {
        names: interned,
        steps,
        bound,
        bad,
        ..
    } = draft;
    *names = interned;
    Loaded {
        steps,
        bound,
        bad,
        file_count,
    }
}

// An equal list of names.
fn copy_names(alloc: Global, names: &Names) -> Result<Names, AllocError>
    ensures { IfOk result (λ copy. copy ≡ names.now) }
{
    let mut copy = Names::new(alloc);
    let count = names.count();
    let mut place = 0;
    while place < count {
        copy_next(&mut copy, names, place)?;
        place += 1;
    }
    Ok(copy)
}

// Interns the name at a place behind those before it. A label above `u64::MAX` is answered as want of memory.
fn copy_next(copy: &mut Names, names: &Names, place: usize) -> Result<(), AllocError>
    ensures { OnOk result (AllPairs (λ a b. a ≢ b) names.now → copy.old ≡ take place names.now → copy.new ≡ take (place + 1) names.now) }
{
    let Some(label) = FIRST_OPEN.checked_add(place as u64) else {
        return Err(AllocError);
    };
    let Some(text) = names.text(Label(label)) else {
        return Err(AllocError);
    };
    copy.intern(text)?;
    Ok(())
}

// The paths that are listed, as a set of texts.
fn listed_names(alloc: Global, paths: &[Str]) -> Result<Names, AllocError>
    ensures { IfOk result (λ listed. listed ≡ fold interned [] paths.now) }
{
    let mut listed = Names::new(alloc);
    for path in paths {
        listed.intern(path.as_str())?;
    }
    Ok(listed)
}

impl Load {
    #[tactic(auto, unfolding(crate::specs::Loads::all_parts))]
    fn all_parts(&mut self, alloc: Global, sources: &Sources) -> Result<(), AllocError>
        ensures { OnOk result (self.new ≡ all_parts sources.now self.old) }
    {
        let listed = listed_names(alloc, sources.paths.as_slice())?;
        self.scripts(alloc, sources.scripts.as_slice())?;
        self.object_files(alloc, &listed, sources.objects.as_slice())?;
        self.collection_files(alloc, sources.collections.as_slice())?;
        self.all_filled(alloc, &listed, sources.collections.as_slice())
    }

    fn all_filled(
        &mut self,
        alloc: Global,
        listed: &Names,
        sources: &[CollSource],
    ) -> Result<(), AllocError>
        ensures { OnOk result (self.new ≡ all_filled listed.now sources.now self.old) }
    {
        let order = order_of(alloc, sources, &self.collection_files)?;
        self.fill_all(alloc, listed, sources, order.as_slice())
    }
}
