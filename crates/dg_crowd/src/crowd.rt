//! What the threads do.
ghost use Rattle.std.specs.Prelude.{◌≡◌, ◌<◌, length};
ghost use Rattle.dg_room.specs.Made.{AreFresh, none_made, passed};

use crate::editing::{Go, GoEditor, advance};
use crate::offers::{asked, total_of};
use crate::random::Random;
use dg_line::{LineName, SharedLine, Shown, Ticket};
use dg_room::{Locked, Pass, Room, RoomName};
use std::alloc::{AllocError, Global};
use std::sync::{Mutex, Wait};
use std::thread;
use std::thread::{Threads, join, map_vec};

pub(crate) type Open<J, K, R> = Room<Locked<Shown<Go, J>, K>, SharedLine<Go, J, R>>;

/// The tickets of all revisions so far.
pub(crate) type Board<J> = Mutex<Vec<Ticket<Shown<Go, J>>>>;

/// How often each thread publishes, and how often the editor is called.
pub(crate) const ASKS: u32 = 24;

const ROUNDS: u32 = 48;

/// The pass that follows, before it did.
#[derive(Drop)]
pub(crate) struct First<K: RoomName> {
    pub(crate) pass: Pass<K>,
    ghost first: { pass ≡ passed 0 none_made },
}

impl<K: RoomName> First<K> {
    /// Takes it from all passes.
    pub(crate) fn of(passes: &mut Vec<Pass<K>>) -> First<K>
        requires some { 0 < length passes.old.items }
        requires fresh { AreFresh (length passes.old.items) passes.old.items }
    {
        First {
            pass: passes.swap_remove(0),
        }
    }
}

/// Who plays in a room: the pass that follows, the others, and the editor.
#[derive(Drop)]
pub(crate) struct Players<F, P, E> {
    pub(crate) own: F,
    pub(crate) passes: Vec<P>,
    pub(crate) editor: E,
}

pub(crate) type Crowd<J, K, R> = Players<First<K>, Pass<K>, GoEditor<J, R>>;

fn picked<J: LineName, R: Wait>(
    rt: &R,
    board: &Board<J>,
    random: &mut Random,
) -> Result<Option<Ticket<Shown<Go, J>>>, AllocError> {
    let tickets = board.lock(rt);
    let Ok(count) = u32::try_from(tickets.len()) else {
        return Ok(None);
    };
    if count == 0 {
        return Ok(None);
    }
    match tickets.get(random.below(count) as usize) {
        Some(ticket) => Ok(Some(ticket.share()?)),
        None => Ok(None),
    }
}

/// Publishes an offer of some revision so far, and evicts now and then.
fn publish_one<J: LineName, K: RoomName, R: Wait + Drop>(
    rt: &R,
    alloc: Global,
    room: &Open<J, K, R>,
    board: &Board<J>,
    pass: &mut Pass<K>,
    random: &mut Random,
    ask: u32,
) -> Result<(), AllocError> {
    let Some(ticket) = picked(rt, board, random)? else {
        return Ok(());
    };
    let at = total_of(3 + random.below(3));
    let offer = asked(rt, alloc, room, pass, ticket, ask, at)?;
    let _ = room.publish(rt, pass, offer);
    if random.below(4) == 0 {
        let _ = room.evict(rt, pass, random.below(3));
    }
    Ok(())
}

fn publish_all<J: LineName, K: RoomName, R: Wait + Drop>(
    rt: &R,
    alloc: Global,
    room: &Open<J, K, R>,
    board: &Board<J>,
    mut pass: Pass<K>,
    seed: u64,
) -> Pass<K> {
    let mut random = Random::new(seed ^ (u64::from(pass.number()) << 32));
    for ask in 0..ASKS {
        let _ = publish_one(rt, alloc, room, board, &mut pass, &mut random, ask);
    }
    pass
}

/// Edits, undoes and redoes. The desk follows most of the links, and begins anew after one that it missed.
fn follow_all<J: LineName, K: RoomName, R: Wait + Drop>(
    rt: &R,
    alloc: Global,
    room: &Open<J, K, R>,
    board: &Board<J>,
    first: First<K>,
    mut editor: GoEditor<J, R>,
    seed: u64,
) -> Result<Pass<K>, AllocError> {
    let First { mut pass } = first;
    let mut random = Random::new(seed);
    for round in 0..ROUNDS {
        let Some(link) = advance(alloc, &mut editor, &mut random, i64::from(round))? else {
            continue;
        };
        let to = link.to().share()?;
        board.lock(rt).push(to)?;
        thread::yield_now();
        if random.below(8) != 0 {
            let _ = room.follow(rt, &mut pass, link);
        }
    }
    Ok(pass)
}

/// A thread for each pass: the passes come back.
fn publish_in_threads<
    J: LineName + Send + Sync,
    K: RoomName + Send + Sync,
    R: Threads + Wait + Drop + Send + Sync,
>(
    rt: &R,
    alloc: Global,
    room: &Open<J, K, R>,
    board: &Board<J>,
    passes: Vec<Pass<K>>,
    seed: u64,
) -> Result<Vec<Pass<K>>, AllocError> {
    map_vec(
        rt,
        passes,
        &|pass| publish_all(rt, alloc, room, board, pass, seed),
    )
}

/// A thread for each pass, and the caller's own work: all passes come back.
fn play_all<
    J: LineName + Send + Sync,
    K: RoomName + Send + Sync,
    R: Threads + Wait + Drop + Send + Sync,
>(
    rt: &R,
    alloc: Global,
    room: &Open<J, K, R>,
    board: &Board<J>,
    passes: Vec<Pass<K>>,
    first: First<K>,
    editor: GoEditor<J, R>,
    seed: u64,
) -> Result<Vec<Pass<K>>, AllocError> {
    let (back, own) = join(
        rt,
        move || publish_in_threads(rt, alloc, room, board, passes, seed),
        move || follow_all(rt, alloc, room, board, first, editor, seed),
    );
    let mut back = back?;
    back.push(own?)?;
    Ok(back)
}

fn board_at<J: LineName>(
    alloc: Global,
    ticket: &Ticket<Shown<Go, J>>,
) -> Result<Board<J>, AllocError> {
    let mut tickets = Vec::new(alloc);
    tickets.push(ticket.share()?)?;
    Ok(Mutex::new(tickets))
}

/// All players at once: all passes come back.
pub(crate) fn play_crowd<
    J: LineName + Send + Sync,
    K: RoomName + Send + Sync,
    R: Threads + Wait + Drop + Send + Sync,
>(
    rt: &R,
    alloc: Global,
    room: &Open<J, K, R>,
    players: Crowd<J, K, R>,
    seed: u64,
) -> Result<Vec<Pass<K>>, AllocError> {
    let board = board_at(alloc, players.editor.ticket())?;
    let Players {
        own,
        passes,
        editor,
    } = players;
    play_all(rt, alloc, room, &board, passes, own, editor, seed)
}
