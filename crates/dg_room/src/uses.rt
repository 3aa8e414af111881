//! Callers: threads share a room, and each has its pass.
use crate::{Locked, Pass, Room, RoomName};
use dg_base::Schema;
use dg_line::{LineName, Mark, Revision, SharedLine, Shown};
use std::sync::Wait;
use std::thread::{Threads, join};

fn is_sent<X: Send>(_sent: &X) {}

fn is_shared<X: Send + Sync>(_shared: &X) {}

pub(crate) fn sends_pass<K: RoomName + Send>(pass: &Pass<K>) {
    is_sent(pass);
}

pub(crate) fn sends_locked<M: Mark + Send + Sync, K: RoomName + Send + Sync>(locked: &Locked<M, K>)
where
    M::Of: Send + Sync,
{
    is_sent(locked);
}

pub(crate) fn shares_room<
    S: Schema + Send + Sync,
    J: LineName + Send + Sync,
    K: RoomName + Send + Sync,
    R: Wait + Drop + Send + Sync,
>(room: &Room<Locked<Shown<Revision<S>, J>, K>, SharedLine<Revision<S>, J, R>>) {
    is_shared(room);
}

fn evict_one<S: Schema, J: LineName, K: RoomName, R: Wait + Drop>(
    rt: &R,
    room: &Room<Locked<Shown<Revision<S>, J>, K>, SharedLine<Revision<S>, J, R>>,
    mut pass: Pass<K>,
) -> Pass<K> {
    let _ = room.evict(rt, &mut pass, 1);
    pass
}

// Two threads evict, each with its pass.
pub(crate) fn evict_twice<
    S: Schema + Send + Sync,
    J: LineName + Send + Sync,
    K: RoomName + Send + Sync,
    R: Threads + Wait + Drop + Send + Sync,
>(
    rt: &R,
    room: &Room<Locked<Shown<Revision<S>, J>, K>, SharedLine<Revision<S>, J, R>>,
    one: Pass<K>,
    other: Pass<K>,
) -> (Pass<K>, Pass<K>) {
    join(
        rt,
        move || evict_one(rt, room, one),
        move || evict_one(rt, room, other),
    )
}
