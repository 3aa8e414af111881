//! The commands, played in the session that puts jobs.
ghost use Rattle.std.specs.Prelude.{◌≡◌, ◌<◌, map, IfOk, OnOk};
ghost use Rattle.dg_kinds_coll.specs.Defold.{defold_tables};
ghost use Rattle.dg_play.specs.States.{IsPlayed};
ghost use Rattle.dg_crew.specs.Plays.{IsPlayOf, is_ready, shows};

use dg_base::Steps;
use dg_caller::{Awaited, Caller};
use dg_line::LineName;
use dg_play::{Line, State, play_commands};
use dg_pool::PoolName;
use dg_room::RoomName;
use dg_script::Command;
use std::alloc::{AllocError, Global};
use std::marker::Brand;
use std::sync::Wait;
use std::sync::ledger::{Blank, Ledger};

/// What the commands print, or want of memory, and what was left of the session.
#[derive(Drop)]
pub struct Played<A, P> {
    pub lines: Result<Vec<Line<A>>, AllocError>,
    pub state: State<P>,
}

// Plays the commands. No production is made here.
fn play_with<'a, J: LineName, K: RoomName, N: PoolName, R: Wait + Drop, L: Ledger>(
    alloc: Global,
    commands: &[Command],
    state: &mut State<Caller<'a, J, K, N, R>>,
    blank: Blank,
) -> Result<Vec<Line<Awaited>>, AllocError>
    requires ready { IsPlayed is_ready shows state.old }
    requires name { blank.name ≡ L.name }
    requires parts { blank.parts ≡ L.parts }
    requires some { 0 < blank.parts }
    ensures { IfOk result (λ ls. IsPlayOf commands.now state.old ls.items state.new) }
{
    let mut steps = Steps::<L>::open(blank);
    play_commands(alloc, commands, state, &mut steps)
}

/// Plays the commands, and closes the pool.
pub(crate) fn play_jobs<'a, J: LineName, K: RoomName, N: PoolName, R: Wait + Drop>(
    alloc: Global,
    commands: &[Command],
    state: State<Caller<'a, J, K, N, R>>,
) -> Played<Awaited, Caller<'a, J, K, N, R>>
    requires { IsPlayed is_ready shows state }
    ensures { IfOk result.lines (λ ls. IsPlayOf commands.now state.entry ls.items result.state) }
{
    let mut state = state;
    let lines = play_with::<J, K, N, R, Brand>(alloc, commands, &mut state, Blank::new(1));
    let session = &mut state.session;
    session.pool.close(session.rt, &mut session.jobs);
    Played { lines, state }
}
