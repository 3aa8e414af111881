//! The play of a start on one thread.
ghost use Rattle.std.specs.Prelude.{◌≡◌, ◌≤◌, ◌+◌, map, IfOk};
ghost use Rattle.dg_editor.specs.Seeing.{state_of as editor_of};
ghost use Rattle.dg_kinds_coll.specs.Defold.{defold_tables};
ghost use Rattle.dg_world.specs.Worlds.{begun};
ghost use Rattle.dg_play.specs.Desk.{IsDeskOf, IsWorkOf};
ghost use Rattle.dg_play.specs.Play.{played};
ghost use Rattle.dg_play.specs.Seen.{begun_by, line_of};

use crate::alone::Alone;
use crate::types::{AloneDesk, AloneEditor, AloneWorld};
use dg_asks::{kept_told, late_told};
use dg_base::{NodeId, Refusal, RefusedStep, Step, Steps};
use dg_editor::Editor;
use dg_kinds_coll::Defold;
use dg_line::OwnLine;
use dg_play::{Begin, Ending, Opener, State, WorkDone, play_commands};
use dg_script::Command;
use dg_view::Graph;
use dg_world::World;
use sqlite_items::Items;
use std::alloc::{AllocError, Global};
use std::sync::ledger::Ledger;

/// Who opens the editor of a play on one thread.
#[derive(Clone, Copy, Debug)]
pub struct Solo;

impl Opener for Solo {
    ghost use Rattle.dg_editor.specs.Seeing.{state_of as editor_of};

    type Game = AloneEditor;

    ghost editor = { λ e. editor_of e };

    fn open(
        self,
        alloc: Global,
        steps: &[Step],
    ) -> Result<(AloneEditor, Items<NodeId>), Refusal<RefusedStep>> {
        Editor::open(alloc, OwnLine::new(alloc), steps)
    }

    fn graph(game: &AloneEditor) -> &Graph<Defold> {
        game.ticket().revision().graph()
    }
}

/// Plays the commands, one after the other, with a cache for so many entries. The play ends with want of memory also where
/// the cache wanted it.
pub fn play_alone<L: Ledger>(
    alloc: Global,
    begin: Begin<AloneEditor>,
    capacity: u32,
    commands: &[Command],
    steps: &mut Steps<L>,
) -> Result<Ending<AloneDesk>, AllocError>
    requires { 1 ≤ capacity }
    ensures lines { IfOk result (λ e. (played defold_tables commands.now (begun_by editor_of begin)).lines ≡ map line_of e.lines.items) }
    ensures names { IfOk result (λ e. (played defold_tables commands.now (begun_by editor_of begin)).state.names ≡ e.names) }
    ensures desk { IfOk result (λ e. IsDeskOf defold_tables capacity commands.now (begun_by editor_of begin) e.desk) }
    ensures work { IfOk result (λ e. IsWorkOf defold_tables capacity commands.now (begun_by editor_of begin) e.work) }
    ensures steps { IfOk result (λ e. steps.new ≡ steps.old + e.work.made) }
{
    let Begin { game, bound, names } = begin;
    let world = world_of(alloc, game, capacity)?;
    let mut state = State {
        session: Alone { world },
        pins: Vec::new(alloc),
        bound,
        names,
    };
    let lines = play_commands(alloc, commands, &mut state, steps)?;
    let State { session, names, .. } = state;
    let made = session.world.made();
    session.world.is_world();
    let desk = desk_of(session);
    let history = desk.history();
    let work = WorkDone {
        made,
        kept: kept_told(history)?,
        late: late_told(history)?,
    };
    Ok(Ending {
        lines,
        names,
        desk,
        work,
    })
}

// A world over an editor, in which nothing happened yet.
fn world_of(alloc: Global, game: AloneEditor, capacity: u32) -> Result<AloneWorld, AllocError>
    requires { 1 ≤ capacity }
    ensures { IfOk result (λ w. w ≡ begun capacity game) }
{
    let mut place = Some(game);
    match World::open(alloc, &mut place, capacity)? {
        Some(world) => Ok(world),
        None => unreachable!(),
    }
}

// The desk of a session, when nothing more is played.
fn desk_of(session: Alone) -> AloneDesk
    ensures { result ≡ session.world.desk }
{
    let Alone { world } = session;
    let mut place = Some(world);
    match World::take_desk(&mut place) {
        Some(desk) => desk,
        None => unreachable!(),
    }
}
