//! One thread's story, and crowds.
ghost use Rattle.std.specs.Prelude.{◌≡◌, ◌<◌, ◌≤◌};
ghost use Rattle.dg_desk.specs.declared.event.TheConstants.{PASSES};
ghost use Rattle.dg_room.specs.Made.{none_made, passed};
ghost use Rattle.dg_room.specs.Names.{AreNamed};

use crate::crowd::{ASKS, Crowd, First, Open, Players, play_crowd};
use crate::editing::{Go, GoEditor, begin, set};
use crate::items::{Item, item_of};
use crate::machine::Machine;
use crate::offers::{asked, asked_alone, total_of};
use dg_cache::{EvictEnd, Evicted};
use dg_desk::{Desk, Followed, PublishEnd, Published};
use dg_line::{LineName, Rows, SharedLine, Shown, Ticket};
use dg_room::{Blanks, Pass, Room, RoomName};
use std::alloc::{AllocError, Global};
use std::marker::Brand;
use std::sync::Wait;
use std::test::Fail;
use std::thread::Threads;

/// How many entries a desk has.
const CAPACITY: u32 = 4;

/// A room at the first revision of an editor, with its line and that revision.
#[derive(Drop)]
struct Begun<O, N, T> {
    room: O,
    line: N,
    first: T,
}

type Start<J, K, R> = Begun<Open<J, K, R>, SharedLine<Go, J, R>, Ticket<Shown<Go, J>>>;

/// A room round a desk at a revision, with the pass that follows, and the others.
fn opened_at<J: LineName, K: RoomName, R: Wait + Drop + Copy>(
    alloc: Global,
    line: SharedLine<Go, J, R>,
    first: Ticket<Shown<Go, J>>,
    passes: u32,
    blanks: Blanks,
) -> Result<(Start<J, K, R>, First<K>, Vec<Pass<K>>), AllocError>
    requires some { 0 < passes }
    requires most { passes ≤ PASSES }
    requires passes { K.names.passes ≡ passes }
    requires named { AreNamed K.names blanks }
{
    let desk = Desk::open(alloc, first.share()?, CAPACITY)?;
    let (room, mut passes) = Room::open(alloc, desk, line.share()?, passes, blanks)?;
    let own = First::of(&mut passes);
    Ok((Begun { room, line, first }, own, passes))
}

fn opened<J: LineName, K: RoomName, R: Wait + Drop + Copy>(
    rt: R,
    alloc: Global,
    rows: Rows<Go>,
    passes: u32,
    blanks: Blanks,
) -> Result<Option<(Start<J, K, R>, Crowd<J, K, R>)>, AllocError>
    requires rows { rows ≡ J.shelves }
    requires some { 0 < passes }
    requires most { passes ≤ PASSES }
    requires passes { K.names.passes ≡ passes }
    requires named { AreNamed K.names blanks }
{
    let line = SharedLine::<Go, J, R>::open(rt, rows);
    let Some(editor) = begin(alloc, line.share()?)? else {
        return Ok(None);
    };
    let first = editor.ticket().share()?;
    let (begun, own, passes) = opened_at(alloc, line, first, passes, blanks)?;
    let players = Players {
        own,
        passes,
        editor,
    };
    Ok(Some((begun, players)))
}

/// What a closed desk tells: the first record that isn't as the machine has it, how many publications there are, and
/// whether the last cache is the machine's and right at the last revision.
#[derive(Clone, Copy, PartialEq)]
struct Told {
    first_other: Option<usize>,
    publications: usize,
    same_cache: bool,
}

fn first_other<J: LineName>(
    machine: &mut Machine<Ticket<Shown<Go, J>>>,
    desk: &Desk<Shown<Go, J>>,
) -> Result<Option<usize>, AllocError> {
    for (place, event) in desk.history().iter().enumerate() {
        if !machine.agrees(place, event)? {
            return Ok(Some(place));
        }
    }
    Ok(None)
}

/// Whether an evaluation of its own gives the item.
fn is_right<J: LineName>(
    alloc: Global,
    ticket: &Ticket<Shown<Go, J>>,
    item: Item,
) -> Result<bool, AllocError> {
    let offer = asked_alone(alloc, ticket.share()?, item.at)?;
    Ok(match offer.entries().last() {
        Some(entry) => item_of(entry) == item,
        None => false,
    })
}

fn same_cache<J: LineName, R: Wait + Drop>(
    alloc: Global,
    line: &SharedLine<Go, J, R>,
    desk: &Desk<Shown<Go, J>>,
    items: &[Item],
) -> Result<bool, AllocError> {
    let entries = desk.snapshot(line, desk.now())?.entries(alloc)?;
    for entry in entries.iter() {
        let item = item_of(entry);
        if !items.contains(&item) || !is_right(alloc, desk.now(), item)? {
            return Ok(false);
        }
    }
    Ok(entries.len() == items.len())
}

fn told_by<J: LineName, R: Wait + Drop>(
    alloc: Global,
    line: &SharedLine<Go, J, R>,
    desk: &Desk<Shown<Go, J>>,
    first: Ticket<Shown<Go, J>>,
) -> Result<Told, AllocError> {
    let mut machine = Machine::open(alloc, first, CAPACITY as usize, 17)?;
    let first_other = first_other(&mut machine, desk)?;
    Ok(Told {
        first_other,
        publications: machine.publications,
        same_cache: same_cache(alloc, line, desk, &machine.items)?,
    })
}

fn told_at_close<J: LineName, K: RoomName, R: Wait + Drop>(
    alloc: Global,
    begun: Start<J, K, R>,
    passes: Vec<Pass<K>>,
) -> Result<Option<Told>, AllocError> {
    let Begun { room, line, first } = begun;
    match room.close(passes) {
        Ok(desk) => Ok(Some(told_by(alloc, &line, &desk, first)?)),
        Err(_) => Ok(None),
    }
}

// ---- one thread

const ALL: Published = Published {
    place: Some(0),
    kept: 3,
    late: 0,
    done: 3,
    end: PublishEnd::All,
};

const SOME: Published = Published {
    place: Some(2),
    kept: 1,
    late: 2,
    done: 1,
    end: PublishEnd::All,
};

const UNKNOWN: Published = Published {
    place: Some(3),
    kept: 0,
    late: 0,
    done: 0,
    end: PublishEnd::Unknown { index: 2 },
};

const ONE_GONE: Evicted = Evicted {
    gone: 1,
    end: EvictEnd::All,
};

/// An offer is published, a number of it set, which the desk follows, and the offer published once more.
fn publish_twice<J: LineName, K: RoomName, R: Wait + Drop>(
    rt: &R,
    alloc: Global,
    room: &Open<J, K, R>,
    editor: &mut GoEditor<J, R>,
    own: &mut Pass<K>,
    other: &mut Pass<K>,
) -> Result<Option<(Published, Followed, Published)>, AllocError>
    requires { own.old ≡ passed 0 none_made }
{
    let ticket = editor.ticket().share()?;
    let offer = asked(rt, alloc, room, other, ticket, 0, total_of(5))?;
    let late = offer.copy(alloc)?;
    let all = room.publish(rt, other, offer);
    let Some(link) = set(alloc, editor, 1, 7)? else {
        return Ok(None);
    };
    let followed = room.follow(rt, own, link);
    let some = room.publish(rt, other, late);
    Ok(Some((all, followed, some)))
}

/// An offer of a revision that the desk isn't at yet is published, and three entries are evicted.
fn publish_early<J: LineName, K: RoomName, R: Wait + Drop>(
    rt: &R,
    alloc: Global,
    room: &Open<J, K, R>,
    editor: &mut GoEditor<J, R>,
    pass: &mut Pass<K>,
) -> Result<Option<(Published, Evicted)>, AllocError> {
    let Some(link) = set(alloc, editor, 2, 5)? else {
        return Ok(None);
    };
    let offer = asked(rt, alloc, room, pass, link.to().share()?, 1, total_of(5))?;
    let unknown = room.publish(rt, pass, offer);
    Ok(Some((unknown, room.evict(rt, pass, 3))))
}

/// Whether two passes get the answers of the story.
fn has_answers<J: LineName, K: RoomName, R: Wait + Drop>(
    rt: &R,
    alloc: Global,
    room: &Open<J, K, R>,
    mut editor: GoEditor<J, R>,
    own: &mut Pass<K>,
    other: &mut Pass<K>,
) -> Result<bool, AllocError>
    requires { own.old ≡ passed 0 none_made }
{
    let late = publish_twice(rt, alloc, room, &mut editor, own, other)?;
    let early = publish_early(rt, alloc, room, &mut editor, other)?;
    Ok(late == Some((ALL, Followed::Kept, SOME)) && early == Some((UNKNOWN, ONE_GONE)))
}

fn returned<K: RoomName>(
    mut passes: Vec<Pass<K>>,
    own: Pass<K>,
    other: Pass<K>,
) -> Result<Vec<Pass<K>>, AllocError> {
    passes.push(own)?;
    passes.push(other)?;
    Ok(passes)
}

fn play_story<J: LineName, K: RoomName, R: Wait + Drop>(
    rt: &R,
    alloc: Global,
    room: &Open<J, K, R>,
    players: Crowd<J, K, R>,
) -> Result<(Vec<Pass<K>>, bool), AllocError> {
    let Players {
        own,
        mut passes,
        editor,
    } = players;
    let First { pass: mut own } = own;
    let Some(mut other) = passes.pop() else {
        return Ok((passes, false));
    };
    let right = has_answers(rt, alloc, room, editor, &mut own, &mut other)?;
    Ok((returned(passes, own, other)?, right))
}

/// Whether two passes get the answers of the story, and the closed desk tells it.
fn tells_story<J: LineName, K: RoomName, R: Wait + Drop + Copy>(
    rt: R,
    alloc: Global,
    rows: Rows<Go>,
    blanks: Blanks,
) -> Result<bool, AllocError>
    requires rows { rows ≡ J.shelves }
    requires passes { K.names.passes ≡ 2 }
    requires named { AreNamed K.names blanks }
{
    let Some((begun, players)) = opened::<J, K, R>(rt, alloc, rows, 2, blanks)? else {
        return Ok(false);
    };
    let (passes, right) = play_story(&rt, alloc, &begun.room, players)?;
    let told = told_at_close(alloc, begun, passes)?;
    Ok(
        right
            && told
                == Some(Told {
                    first_other: None,
                    publications: 3,
                    same_cache: true,
                }),
    )
}

fn tells_alone<R: Wait + Drop + Copy>(rt: R, alloc: Global) -> Result<bool, AllocError> {
    let rows = Rows::new(alloc)?;
    tells_story::<Brand, Brand, R>(rt, alloc, rows, Blanks::new(2))
}

/// An offer keeps what is unchanged since its revision, the rest comes late, and one of an unknown revision puts
/// nothing.
#[test]
fn offers_of_each_age_are_told(rt: HostRuntime) -> Result<(), Fail> {
    assert!(rt; tells_alone(rt, rt.alloc())?);
    Ok(())
}

// ---- a crowd

/// What a desk tells after a crowd. The seed gives what each thread does; the schedule is the machine's.
fn told_after<
    J: LineName + Send + Sync,
    K: RoomName + Send + Sync,
    R: Threads + Wait + Drop + Send + Sync + Copy,
>(
    rt: R,
    alloc: Global,
    rows: Rows<Go>,
    seed: u64,
    blanks: Blanks,
) -> Result<Option<Told>, AllocError>
    requires rows { rows ≡ J.shelves }
    requires passes { K.names.passes ≡ 9 }
    requires named { AreNamed K.names blanks }
{
    let Some((begun, players)) = opened::<J, K, R>(rt, alloc, rows, 9, blanks)? else {
        return Ok(None);
    };
    let passes = play_crowd(&rt, alloc, &begun.room, players, seed)?;
    told_at_close(alloc, begun, passes)
}

fn told_alone<R: Threads + Wait + Drop + Send + Sync + Copy>(
    rt: R,
    alloc: Global,
    seed: u64,
) -> Result<Option<Told>, AllocError> {
    let rows = Rows::new(alloc)?;
    told_after::<Brand, Brand, R>(rt, alloc, rows, seed, Blanks::new(9))
}

/// Whatever the schedule, a machine of plain lists gives the answers and the last cache of the desk's records.
#[test]
fn a_crowd_leaves_a_history(rt: HostRuntime) -> Result<(), Fail> {
    for seed in [1, 22, 333, 4_444] {
        let told = told_alone(rt, rt.alloc(), seed)?;
        assert!(rt;
            told == Some(Told {
                first_other: None,
                publications: 8 * ASKS as usize,
                same_cache: true,
            })
        );
    }
    Ok(())
}
