//! The commands beside the workers, in an open room.
ghost use Rattle.std.specs.Prelude.{◌≡◌, ◌+◌, map, count_by, IfOk};
ghost use Rattle.dg_asks.specs.Asks.{asking_ask};
ghost use Rattle.dg_editor.specs.Seeing.{state_of as editor_of};
ghost use Rattle.dg_kinds_coll.specs.Defold.{defold_tables};
ghost use Rattle.dg_play.specs.Desk.{answers_in, is_evict};
ghost use Rattle.dg_play.specs.Play.{played};
ghost use Rattle.dg_play.specs.Seen.{begun_by, line_of};

use dg_asks::Asking;
use dg_base::Names;
use dg_beside::Ran;
use dg_caller::{Awaited, CallerEditor, Calls};
use dg_crew::{Played, Seats, play_all};
use dg_line::LineName;
use dg_play::{Begin, Line, State};
use dg_pool::{Gate, PoolName};
use dg_room::{Pass, RoomName};
use dg_script::Command;
use dg_worker::{JobBack, JobMark, JobPool, JobRoom};
use std::alloc::{AllocError, Global};
use std::sync::Wait;
use std::thread::Threads;

/// What is left when the commands are played and the workers are back: the lines, whose answers are still to come, the
/// interned names, the editor, all that was asked, by number, the first pass, and what the workers give back.
#[derive(Drop)]
pub(crate) struct Left<E, A, B, W> {
    pub(crate) lines: Vec<Line<Awaited>>,
    pub(crate) names: Names,
    pub(crate) editor: E,
    pub(crate) asked: Vec<A>,
    pub(crate) pass: B,
    pub(crate) backs: Vec<W>,
}

/// What is left of a script's play.
pub(crate) type PlayLeft<J, K, N, R> = Left<
    CallerEditor<J, R>,
    Asking<JobMark<J>>,
    Pass<K>,
    JobBack<J, K, N>,
>;

/// Plays the commands on this thread, beside the workers.
pub(crate) fn played_in<
    'a,
    J: LineName + Send + Sync,
    K: RoomName + Send + Sync,
    N: PoolName + Send + Sync,
    G: Gate + Sync,
    R: Threads + Wait + Drop + Send + Sync,
>(
    rt: &'a R,
    alloc: Global,
    room: &'a JobRoom<J, K, R>,
    pool: &'a JobPool<J, N>,
    gate: &'a G,
    seats: Seats<K, N>,
    begin: Begin<CallerEditor<J, R>>,
    commands: &'a [Command],
) -> Result<PlayLeft<J, K, N, R>, AllocError>
    ensures lines { IfOk result (λ l. (played defold_tables commands.now (begun_by editor_of begin)).lines ≡ map line_of l.lines.items) }
    ensures names { IfOk result (λ l. (played defold_tables commands.now (begun_by editor_of begin)).state.names ≡ l.names) }
    ensures now { IfOk result (λ l. (played defold_tables commands.now (begun_by editor_of begin)).state.editor.now ≡ l.editor.here.revision) }
    ensures asked { IfOk result (λ l. map asking_ask l.asked.items ≡ answers_in (played defold_tables commands.now (begun_by editor_of begin)).lines) }
    ensures evictions { IfOk result (λ l. l.pass.made.evictions ≡ count_by (λ c. is_evict c.act) commands.now) }
    ensures follows { IfOk result (λ l. begin.game.here.revision.number + l.pass.made.follows ≡ l.editor.here.revision.number) }
{
    let Seats { pass, jobs, badges } = seats;
    let Begin { game, bound, names } = begin;
    let state = State {
        session: Calls {
            rt,
            room,
            pool,
            editor: game,
            pins: Vec::new(alloc),
            asked: Vec::new(alloc),
            pass,
            jobs,
        },
        pins: Vec::new(alloc),
        bound,
        names,
    };
    let Ran { own, backs } = play_all(rt, alloc, room, pool, gate, badges, state, commands)?;
    let Played { lines, state } = own;
    let lines = lines?;
    let State { session, names, .. } = state;
    let Calls {
        editor,
        asked,
        pass,
        ..
    } = session;
    Ok(Left {
        lines,
        names,
        editor,
        asked,
        pass,
        backs,
    })
}
