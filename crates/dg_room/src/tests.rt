//! A room round a desk of an empty graph, on one thread.
ghost use Rattle.std.specs.Prelude.{◌≡◌, ◌<◌, ◌≤◌, IfOk, OnOk};
ghost use Rattle.dg_desk.specs.declared.event.TheConstants.{PASSES};
ghost use Rattle.dg_room.specs.Made.{AreFresh, none_made, passed};
ghost use Rattle.dg_room.specs.Names.{AreNamed};

use crate::{Blanks, Locked, Pass, Room, RoomName, Short};
use dg_cache::{EvictEnd, Evicted};
use dg_desk::{Desk, EventOf, Followed, What};
use dg_kinds_go::GoKinds;
use dg_line::{Line, LineName, Link, Revision, Rows, SharedLine, Shown, Ticket, follow};
use dg_view::Graph;
use std::alloc::{AllocError, Global};
use std::marker::Brand;
use std::sync::Wait;
use std::test::Fail;

type Go = Revision<GoKinds>;

type Open<J, K, R> = Room<Locked<Shown<Go, J>, K>, SharedLine<Go, J, R>>;

/// A room with its passes, its line once more, and the ticket at which its desk begins.
#[derive(Drop)]
struct Begun<O, P, N, T> {
    room: O,
    passes: Vec<P>,
    line: N,
    first: T,
}

type Start<J, K, R> = Begun<Open<J, K, R>, Pass<K>, SharedLine<Go, J, R>, Ticket<Shown<Go, J>>>;

/// What a record says.
#[derive(Clone, Copy, Debug, PartialEq, Eq)]
enum Told {
    Followed(Followed),
    Evicted(u32, Evicted),
    Other,
}

/// A record: its pass, how many this pass has before, and what it says.
#[derive(Clone, Copy, Debug, PartialEq, Eq)]
struct Record {
    pass: u32,
    nth: usize,
    told: Told,
}

const NONE_GONE: Evicted = Evicted {
    gone: 0,
    end: EvictEnd::All,
};

fn begin<J: LineName, K: RoomName, R: Wait + Drop + Copy>(
    rt: R,
    alloc: Global,
    rows: Rows<Go>,
    passes: u32,
    blanks: Blanks,
) -> Result<Start<J, K, R>, AllocError>
    requires rows { rows ≡ J.shelves }
    requires some { 0 < passes }
    requires most { passes ≤ PASSES }
    requires passes { K.names.passes ≡ passes }
    requires named { AreNamed K.names blanks }
    ensures { IfOk result (λ b. AreFresh passes b.passes.items) }
{
    let mut line = SharedLine::<Go, J, R>::open(rt, rows);
    let graph = Graph::<GoKinds>::new(alloc)?;
    let first = line.push(alloc, Revision::<GoKinds>::first(alloc, graph, 1)?)?;
    let desk = Desk::open(alloc, first.share()?, 1)?;
    let (room, passes) = Room::open(alloc, desk, line.share()?, passes, blanks)?;
    Ok(Begun {
        room,
        passes,
        line,
        first,
    })
}

fn record_of<J: LineName>(event: &EventOf<Shown<Go, J>>) -> Record {
    let told = match &event.what {
        What::Follow(_, followed) => Told::Followed(*followed),
        What::Evict(most, evicted) => Told::Evicted(*most, *evicted),
        _ => Told::Other,
    };
    Record {
        pass: event.pass,
        nth: event.nth,
        told,
    }
}

/// Whether a desk has just these records.
fn has_records<J: LineName>(desk: &Desk<Shown<Go, J>>, records: &[Record]) -> bool {
    for (event, record) in desk.history().iter().zip(records.iter()) {
        if record_of(event) != *record {
            return false;
        }
    }
    desk.history().len() == records.len()
}

// ---- each pass once

/// Each pass evicts, in order, and all come back: whether the history has that.
fn all_evict<J: LineName, K: RoomName, R: Wait + Drop + Copy>(
    rt: R,
    alloc: Global,
    rows: Rows<Go>,
    passes: u32,
    blanks: Blanks,
) -> Result<bool, AllocError>
    requires rows { rows ≡ J.shelves }
    requires some { 0 < passes }
    requires most { passes ≤ PASSES }
    requires passes { K.names.passes ≡ passes }
    requires named { AreNamed K.names blanks }
{
    let Begun {
        room,
        passes: mut all,
        ..
    } = begin::<J, K, R>(rt, alloc, rows, passes, blanks)?;
    let mut records = Vec::new(alloc);
    for pass in all.iter_mut() {
        records.push(Record {
            pass: pass.number(),
            nth: 0,
            told: Told::Evicted(3, room.evict(&rt, pass, 3)),
        })?;
    }
    let count = records.len() == passes as usize;
    match room.close(all) {
        Ok(desk) => Ok(count && has_records(&desk, &records)),
        Err(_) => Ok(false),
    }
}

fn all_evict_alone<R: Wait + Drop + Copy>(
    rt: R,
    alloc: Global,
    passes: u32,
) -> Result<bool, AllocError>
    requires some { 0 < passes }
    requires most { passes ≤ PASSES }
{
    let rows = Rows::new(alloc)?;
    all_evict::<Brand, Brand, R>(rt, alloc, rows, passes, Blanks::new(passes))
}

#[test]
fn each_pass_has_its_records(rt: HostRuntime) -> Result<(), Fail> {
    assert!(rt; all_evict_alone(rt, rt.alloc(), 1)?);
    assert!(rt; all_evict_alone(rt, rt.alloc(), 2)?);
    assert!(rt; all_evict_alone(rt, rt.alloc(), 17)?);
    Ok(())
}

// ---- follows

/// A link to the same graph once more.
fn link_from<J: LineName, R: Wait + Drop>(
    alloc: Global,
    line: &mut SharedLine<Go, J, R>,
    from: &Ticket<Shown<Go, J>>,
) -> Result<Option<Link<Shown<Go, J>>>, AllocError> {
    if from.revision().is_last() {
        return Ok(None);
    }
    let graph = from.revision().graph().share()?;
    let next = from.revision().next();
    Ok(Some(follow(alloc, line, from, graph, next, &[])?))
}

/// Follows a link that begins at the desk's ticket, and then another one that begins there: how both were followed.
fn follow_both<J: LineName, K: RoomName, R: Wait + Drop>(
    rt: &R,
    alloc: Global,
    room: &Open<J, K, R>,
    line: &mut SharedLine<Go, J, R>,
    pass: &mut Pass<K>,
    first: &Ticket<Shown<Go, J>>,
) -> Result<Option<(Followed, Followed)>, AllocError>
    requires { pass.old ≡ passed 0 none_made }
{
    let Some(one) = link_from(alloc, line, first)? else {
        return Ok(None);
    };
    let Some(other) = link_from(alloc, line, first)? else {
        return Ok(None);
    };
    let kept = room.follow(rt, pass, one);
    let restarted = room.follow(rt, pass, other);
    Ok(Some((kept, restarted)))
}

static STORY: [Record; 4] = [
    Record {
        pass: 0,
        nth: 0,
        told: Told::Followed(Followed::Kept),
    },
    Record {
        pass: 0,
        nth: 1,
        told: Told::Followed(Followed::Restarted { had: 1, wanted: 0 }),
    },
    Record {
        pass: 1,
        nth: 0,
        told: Told::Evicted(2, NONE_GONE),
    },
    Record {
        pass: 0,
        nth: 2,
        told: Told::Evicted(1, NONE_GONE),
    },
];

/// Two follows, snapshots, and an eviction by each of two passes: whether the history tells that story.
fn tells_story<J: LineName, K: RoomName, R: Wait + Drop + Copy>(
    rt: R,
    alloc: Global,
    rows: Rows<Go>,
    blanks: Blanks,
) -> Result<bool, AllocError>
    requires rows { rows ≡ J.shelves }
    requires passes { K.names.passes ≡ 2 }
    requires named { AreNamed K.names blanks }
{
    let Begun {
        room,
        mut passes,
        mut line,
        first,
    } = begin::<J, K, R>(rt, alloc, rows, 2, blanks)?;
    let answers = follow_both(&rt, alloc, &room, &mut line, &mut passes[0], &first)?;
    let empty = room.snapshot(&rt, &passes[1], &first)?.is_empty();
    let _ = room.evict(&rt, &mut passes[1], 2);
    let _ = room.evict(&rt, &mut passes[0], 1);
    match room.close(passes) {
        Ok(desk) => Ok(answers.is_some() && empty && has_records(&desk, &STORY)),
        Err(_) => Ok(false),
    }
}

fn tells_alone<R: Wait + Drop + Copy>(rt: R, alloc: Global) -> Result<bool, AllocError> {
    let rows = Rows::new(alloc)?;
    tells_story::<Brand, Brand, R>(rt, alloc, rows, Blanks::new(2))
}

#[test]
fn a_history_tells_what_was_done(rt: HostRuntime) -> Result<(), Fail> {
    assert!(rt; tells_alone(rt, rt.alloc())?);
    Ok(())
}

// ---- a pass is missing

/// Closes with one pass of two, evicts with the other one, and closes with both: what the first close had and
/// wanted, and whether the second one gave a desk with one record.
fn is_short<J: LineName, K: RoomName, R: Wait + Drop + Copy>(
    rt: R,
    alloc: Global,
    rows: Rows<Go>,
    blanks: Blanks,
) -> Result<Option<(u32, u32, bool)>, AllocError>
    requires rows { rows ≡ J.shelves }
    requires passes { K.names.passes ≡ 2 }
    requires named { AreNamed K.names blanks }
{
    let Begun {
        room,
        mut passes,
        ..
    } = begin::<J, K, R>(rt, alloc, rows, 2, blanks)?;
    let Some(mut missing) = passes.pop() else {
        return Ok(None);
    };
    let Err(short) = room.close(passes) else {
        return Ok(None);
    };
    let Short {
        room,
        mut passes,
        had,
        wanted,
    } = short;
    let _ = room.evict(&rt, &mut missing, 1);
    passes.push(missing)?;
    match room.close(passes) {
        Ok(desk) => Ok(Some((had, wanted, desk.history().len() == 1))),
        Err(_) => Ok(Some((had, wanted, false))),
    }
}

fn is_short_alone<R: Wait + Drop + Copy>(
    rt: R,
    alloc: Global,
) -> Result<Option<(u32, u32, bool)>, AllocError> {
    let rows = Rows::new(alloc)?;
    is_short::<Brand, Brand, R>(rt, alloc, rows, Blanks::new(2))
}

#[test]
fn a_room_waits_for_all_passes(rt: HostRuntime) -> Result<(), Fail> {
    assert!(rt; is_short_alone(rt, rt.alloc())? == Some((1, 2, true)));
    Ok(())
}
