//! The play of a start beside workers.
ghost use Rattle.std.specs.Prelude.{◌≡◌, ◌<◌, ◌≤◌, map, IfOk};
ghost use Rattle.dg_asks.specs.Asks.{asking_ask};
ghost use Rattle.dg_asks.specs.Told.{AreTold, AreUnrefused, as_seen, evictions_told, follows_told};
ghost use Rattle.dg_desk.specs.declared.event.TheConstants.{PASSES};
ghost use Rattle.dg_desk.specs.Desks.{IsDesk, state_of};
ghost use Rattle.dg_editor.specs.Seeing.{state_of as editor_of};
ghost use Rattle.dg_kinds_coll.specs.Defold.{defold_tables};
ghost use Rattle.dg_play.specs.Desk.{IsSharedDeskOf, answers_in};
ghost use Rattle.dg_play.specs.Play.{played};
ghost use Rattle.dg_play.specs.Seen.{begun_by, line_of};
ghost use Rattle.dg_pool.specs.Names.{AreNamed as AreNamedInPool};
ghost use Rattle.dg_room.specs.Names.{AreNamed};

use crate::closing::{Gathered, desk_of, gather};
use crate::filling::filled;
use crate::playing::{Left, PlayLeft, played_in};
use dg_asks::{kept_told, late_told};
use dg_base::{NodeId, Refusal, RefusedStep, Step, Steps};
use dg_caller::CallerEditor;
use dg_closing::{Completed, complete};
use dg_crew::seated;
use dg_desk::Desk;
use dg_editor::Editor;
use dg_kinds_coll::Defold;
use dg_line::{LineName, Revision, SharedLine};
use dg_play::{Begin, Ending, Opener, WorkDone};
use dg_pool::{Blanks as PoolBlanks, Every, Gate, Pool, PoolName};
use dg_room::{Blanks, Room, RoomName};
use dg_script::Command;
use dg_view::Graph;
use dg_worker::{JobMark, JobRoom};
use sqlite_items::Items;
use std::alloc::{AllocError, Global};
use std::marker::Brand;
use std::sync::Wait;
use std::sync::ledger::Ledger;
use std::thread::Threads;

/// The cache of a script whose revisions threads share, and the records of what was done with it.
pub type SharedDesk<J> = Desk<JobMark<J>>;

/// The editor of such a script.
pub type SharedEditor<J, R> = CallerEditor<J, R>;

/// Who opens the editor of a play beside workers: over a line that threads share.
#[derive(Drop)]
pub struct Shared<J: LineName, R: Wait + Drop> {
    pub line: SharedLine<Revision<Defold>, J, R>,
}

impl<J: LineName, R: Wait + Drop> Opener for Shared<J, R> {
    ghost use Rattle.dg_editor.specs.Seeing.{state_of as editor_of};

    type Game = CallerEditor<J, R>;

    ghost editor = { λ e. editor_of e };

    fn open(
        self,
        alloc: Global,
        steps: &[Step],
    ) -> Result<(CallerEditor<J, R>, Items<NodeId>), Refusal<RefusedStep>> {
        Editor::open(alloc, self.line, steps)
    }

    fn graph(game: &CallerEditor<J, R>) -> &Graph<Defold> {
        game.ticket().revision().graph()
    }
}

/// Plays the commands, one after the other, with a cache for so many entries, beside so many workers; with none, what is
/// asked for is evaluated at the end. The play ends with want of memory also where the cache wanted it, or where a
/// worker's pass is lost for want of it. Nothing is claimed of the counts of the work.
pub fn play_shared<
    J: LineName + Send + Sync,
    G: Gate + Sync,
    R: Threads + Wait + Drop + Send + Sync + Copy,
    L: Ledger,
>(
    rt: R,
    alloc: Global,
    begin: Begin<CallerEditor<J, R>>,
    capacity: u32,
    workers: u32,
    commands: &[Command],
    gate: &G,
    steps: &mut Steps<L>,
) -> Result<Ending<SharedDesk<J>>, AllocError>
    requires capacity { 1 ≤ capacity }
    requires workers { workers ≤ 16 }
    ensures lines { IfOk result (λ e. (played defold_tables commands.now (begun_by editor_of begin)).lines ≡ map line_of e.lines.items) }
    ensures names { IfOk result (λ e. (played defold_tables commands.now (begun_by editor_of begin)).state.names ≡ e.names) }
    ensures desk { IfOk result (λ e. IsSharedDeskOf defold_tables commands.now (begun_by editor_of begin) e.desk) }
{
    let passes = workers + 1;
    play_named::<J, Brand, Brand, G, R, L>(
        rt,
        alloc,
        begin,
        capacity,
        passes,
        Blanks::new(passes),
        PoolBlanks::new(passes),
        commands,
        gate,
        steps,
    )
}

// The same, in a room and with a pool of these names.
fn play_named<
    J: LineName + Send + Sync,
    K: RoomName + Send + Sync,
    N: PoolName + Send + Sync,
    G: Gate + Sync,
    R: Threads + Wait + Drop + Send + Sync + Copy,
    L: Ledger,
>(
    rt: R,
    alloc: Global,
    begin: Begin<CallerEditor<J, R>>,
    capacity: u32,
    passes: u32,
    room_blanks: Blanks,
    pool_blanks: PoolBlanks,
    commands: &[Command],
    gate: &G,
    steps: &mut Steps<L>,
) -> Result<Ending<SharedDesk<J>>, AllocError>
    requires capacity { 1 ≤ capacity }
    requires some { 0 < passes }
    requires most { passes ≤ PASSES }
    requires room_passes { K.names.passes ≡ passes }
    requires room_names { AreNamed K.names room_blanks }
    requires pool_passes { N.names.passes ≡ passes }
    requires pool_names { AreNamedInPool N.names pool_blanks }
    ensures lines { IfOk result (λ e. (played defold_tables commands.now (begun_by editor_of begin)).lines ≡ map line_of e.lines.items) }
    ensures names { IfOk result (λ e. (played defold_tables commands.now (begun_by editor_of begin)).state.names ≡ e.names) }
    ensures desk { IfOk result (λ e. IsSharedDeskOf defold_tables commands.now (begun_by editor_of begin) e.desk) }
{
    let desk = Desk::open(alloc, begin.game.ticket().share()?, capacity)?;
    let line = begin.game.line().share()?;
    let (room, room_passes) = Room::open(alloc, desk, line, passes, room_blanks)?;
    let (pool, pool_passes) = Pool::open(alloc, passes, Every, pool_blanks)?;
    let seats = seated::<K, N>(alloc, room_passes, pool_passes)?;
    let left = played_in(&rt, alloc, &room, &pool, gate, seats, begin, commands)?;
    closed(alloc, left, room, gate, steps)
}

// What the workers left out is done, and the lines take their answers.
fn closed<J: LineName, K: RoomName, N: PoolName, G: Gate, R: Wait + Drop, L: Ledger>(
    alloc: Global,
    left: PlayLeft<J, K, N, R>,
    room: JobRoom<J, K, R>,
    gate: &G,
    steps: &mut Steps<L>,
) -> Result<Ending<SharedDesk<J>>, AllocError>
    requires { map asking_ask left.asked.items ≡ answers_in (map line_of left.lines.items) }
    ensures lines { IfOk result (λ e. e.lines.items ≡ left.lines.items) }
    ensures names { IfOk result (λ e. e.names ≡ left.names) }
    ensures coherent { IfOk result (λ e. IsDesk as_seen defold_tables e.desk) }
    ensures now { IfOk result (λ e. (state_of as_seen e.desk).now.revision ≡ left.editor.here.revision) }
    ensures follows { IfOk result (λ e. follows_told e.desk.history ≡ left.pass.made.follows) }
    ensures evictions { IfOk result (λ e. evictions_told e.desk.history ≡ left.pass.made.evictions) }
    ensures unrefused { IfOk result (λ e. AreUnrefused e.desk.history) }
    ensures told { IfOk result (λ e. AreTold e.desk.history (map asking_ask left.asked.items)) }
{
    let Left {
        lines,
        names,
        editor,
        asked,
        pass,
        backs,
    } = left;
    let Gathered { passes, solved } = gather::<J, K, N>(alloc, pass, backs)?;
    let mut desk = desk_of(room, passes)?;
    let Completed { answers, made } = complete::<SharedLine<Revision<Defold>, J, R>, G, L>(
        alloc,
        editor.line(),
        &mut desk,
        editor.ticket(),
        &asked,
        &solved,
        gate,
        steps,
    )?;
    let lines = filled(alloc, lines, answers)?;
    let work = WorkDone {
        made,
        kept: kept_told(desk.history())?,
        late: late_told(desk.history())?,
    };
    Ok(Ending {
        lines,
        names,
        desk,
        work,
    })
}
