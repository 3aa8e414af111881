//! Lists of events on numbers and sums of them: productions, what is kept, what comes late, and how many
//! entries the cache has.
ghost use Rattle.std.specs.Prelude.{◌≡◌, ◌≤◌, ◌<◌};

use crate::{Event, Outcome, World};
use dg_base::{Answer, Datum, Endpoint, Kind, Label, NodeId, NodeRef, Refusal, Step, Steps};
use dg_cache::{EvictEnd, Evicted};
use dg_desk::{Followed, PublishEnd};
use dg_editor::Editor;
use dg_kinds_go::GoKinds;
use dg_line::{OwnLine, Revision};
use sqlite_items::Items;
use std::alloc::{AllocError, Global};
use std::marker::Brand;
use std::sync::ledger::{Blank, Ledger};
use std::test::Fail;

type TestWorld = World<GoKinds, OwnLine<Revision<GoKinds>>>;

/// What happens: a number and a sum of it, 1 and 2; a number more that nothing reads, 3; a sum of the sum, 3; two
/// numbers, a sum of each, 3 and 4, and a sum of both, 5; a node's value set; and every other event by its numbers. An endpoint is the total of a node.
#[derive(Clone, Copy)]
enum Move {
    Both,
    Apart,
    Above,
    Tree,
    Set(u32, i64),
    Undo,
    Redo,
    Pin,
    Total { pin: u32, node: u32 },
    Publish(u32),
    Evict(u32),
    Drop(u32),
}

/// What is told of it.
#[derive(Clone, Copy, PartialEq, Eq, Debug)]
enum Told {
    Edited,
    Refused,
    Pinned(u32),
    Answered(i64),
    Published { kept: usize, late: usize },
    Evicted(u32),
    Dropped,
    NoPin,
    NoOffer,
    Other,
}

/// An event, what is told of it, the productions so far, and the entries of the cache.
type Row = (Move, Told, u64, usize);

/// An offer of a revision from before an edit that was undone comes late, each time: its counter is another one.
/// A number that is no pin's, or no offer's, is told.
static LATE: [Row; 12] = [
    (Move::Both, Told::Edited, 0, 0),
    (Move::Pin, Told::Pinned(0), 0, 0),
    (Move::Total { pin: 0, node: 2 }, Told::Answered(0), 1, 0),
    (Move::Set(1, 2), Told::Edited, 1, 0),
    (Move::Undo, Told::Edited, 1, 0),
    (Move::Publish(0), Told::Published { kept: 0, late: 1 }, 1, 0),
    (Move::Publish(0), Told::Published { kept: 0, late: 1 }, 1, 0),
    (Move::Publish(1), Told::NoOffer, 1, 0),
    (Move::Drop(0), Told::Dropped, 1, 0),
    (Move::Drop(0), Told::NoPin, 1, 0),
    (Move::Total { pin: 0, node: 2 }, Told::NoPin, 1, 0),
    (Move::Set(9, 2), Told::Refused, 1, 0),
];

/// What is published of an older revision serves the newer one, where nothing that it depends on changed.
static SERVES: [Row; 9] = [
    (Move::Both, Told::Edited, 0, 0),
    (Move::Apart, Told::Edited, 0, 0),
    (Move::Pin, Told::Pinned(0), 0, 0),
    (Move::Set(3, 5), Told::Edited, 0, 0),
    (Move::Total { pin: 0, node: 2 }, Told::Answered(0), 1, 0),
    (Move::Publish(0), Told::Published { kept: 1, late: 0 }, 1, 1),
    (Move::Pin, Told::Pinned(1), 1, 1),
    (Move::Total { pin: 1, node: 2 }, Told::Answered(0), 1, 1),
    (Move::Publish(1), Told::Published { kept: 0, late: 0 }, 1, 1),
];

/// A cache of one entry: of two that are put the later one stays, and what it lost is made again.
static FULL: [Row; 12] = [
    (Move::Both, Told::Edited, 0, 0),
    (Move::Above, Told::Edited, 0, 0),
    (Move::Pin, Told::Pinned(0), 0, 0),
    (Move::Total { pin: 0, node: 3 }, Told::Answered(0), 2, 0),
    (Move::Publish(0), Told::Published { kept: 2, late: 0 }, 2, 1),
    (Move::Total { pin: 0, node: 2 }, Told::Answered(0), 3, 1),
    (Move::Publish(1), Told::Published { kept: 1, late: 0 }, 3, 1),
    (Move::Total { pin: 0, node: 3 }, Told::Answered(0), 4, 1),
    (Move::Publish(2), Told::Published { kept: 1, late: 0 }, 4, 1),
    (Move::Evict(1), Told::Evicted(1), 4, 0),
    (Move::Evict(1), Told::Evicted(0), 4, 0),
    (Move::Redo, Told::Refused, 4, 0),
];

fn make(kind: u16) -> Step {
    Step::Make { kind: Kind(kind) }
}

// Kinds: 1 Num, 2 Sum. Labels: 1 value, 2 terms, 4 total.
fn connect(from: NodeRef, label: u64, to: NodeRef) -> Step {
    Step::Connect {
        src: from,
        label: Label(label),
        node: to,
        input: Label(2),
    }
}

fn steps_of(alloc: Global, what: Move) -> Result<Vec<Step>, AllocError> {
    let mut steps = Vec::new(alloc);
    match what {
        Move::Both => {
            steps.push(make(1))?;
            steps.push(make(2))?;
            steps.push(connect(NodeRef::New(0), 1, NodeRef::New(1)))?;
        }
        Move::Apart => steps.push(make(1))?,
        Move::Above => {
            steps.push(make(2))?;
            steps.push(connect(NodeRef::Id(NodeId(2)), 4, NodeRef::New(0)))?;
        }
        Move::Tree => {
            for kind in [1, 1, 2, 2, 2] {
                steps.push(make(kind))?;
            }
            steps.push(connect(NodeRef::New(0), 1, NodeRef::New(2)))?;
            steps.push(connect(NodeRef::New(1), 1, NodeRef::New(3)))?;
            steps.push(connect(NodeRef::New(2), 4, NodeRef::New(4)))?;
            steps.push(connect(NodeRef::New(3), 4, NodeRef::New(4)))?;
        }
        Move::Set(node, value) => steps.push(Step::Set {
            node: NodeRef::Id(NodeId(node)),
            label: Label(1),
            value: Datum::Dec(value),
        })?,
        _ => {}
    }
    Ok(steps)
}

fn event_of(alloc: Global, what: Move) -> Result<Event, AllocError> {
    Ok(match what {
        Move::Undo => Event::Undo,
        Move::Redo => Event::Redo,
        Move::Pin => Event::Pin,
        Move::Total { pin, node } => Event::Evaluate {
            pin,
            endpoint: Endpoint {
                node: NodeId(node),
                label: Label(4),
            },
        },
        Move::Publish(offer) => Event::Publish { offer },
        Move::Evict(most) => Event::Evict { most },
        Move::Drop(pin) => Event::Drop { pin },
        _ => Event::Edit(Items::from_vec(steps_of(alloc, what)?)),
    })
}

fn told_of(outcome: &Outcome) -> Told {
    match outcome {
        Outcome::Edited { followed, .. } => match followed {
            Followed::Kept => Told::Edited,
            _ => Told::Other,
        },
        Outcome::Refused(Refusal::Because(_)) => Told::Refused,
        Outcome::Pinned(pin) => Told::Pinned(*pin),
        Outcome::Answered { held, .. } => match held.answer() {
            Answer::Good(Datum::Dec(value)) => Told::Answered(*value),
            _ => Told::Other,
        },
        Outcome::Published(published) => match published.end {
            PublishEnd::All => Told::Published {
                kept: published.kept,
                late: published.late,
            },
            _ => Told::Other,
        },
        Outcome::Evicted(
            Evicted {
                gone,
                end: EvictEnd::All,
            },
        ) => Told::Evicted(*gone),
        Outcome::Dropped => Told::Dropped,
        Outcome::NoPin => Told::NoPin,
        Outcome::NoOffer => Told::NoOffer,
        _ => Told::Other,
    }
}

/// Lets an event happen, and tells of it.
fn done<L: Ledger>(
    alloc: Global,
    world: &mut TestWorld,
    what: Move,
    steps: &mut Steps<L>,
) -> Result<Told, AllocError> {
    let event = event_of(alloc, what)?;
    let outcome = world.step(&event, steps);
    Ok(told_of(&outcome))
}

fn begin(alloc: Global, capacity: u32) -> Result<Option<TestWorld>, AllocError>
    requires { 1 ≤ capacity }
{
    match Editor::open(alloc, OwnLine::new(alloc), &[]) {
        Ok((editor, _)) => World::open(alloc, &mut Some(editor), capacity),
        Err(Refusal::Because(_)) => Ok(None),
        Err(Refusal::NoMemory) => Err(AllocError),
    }
}

/// How much of a history goes as it says.
fn played<L: Ledger>(
    alloc: Global,
    capacity: u32,
    rows: &[Row],
    blank: Blank,
) -> Result<usize, AllocError>
    requires name { blank.name ≡ L.name }
    requires parts { blank.parts ≡ L.parts }
    requires some { 0 < blank.parts }
    requires capacity { 1 ≤ capacity }
{
    let mut steps = Steps::<L>::open(blank);
    let Some(mut world) = begin(alloc, capacity)? else {
        return Ok(0);
    };
    for (place, (what, told, made, entries)) in rows.iter().enumerate() {
        let same = done(alloc, &mut world, *what, &mut steps)? == *told
            && world.made() == *made
            && world.desk().cache_len() == *entries;
        if !same {
            return Ok(place);
        }
    }
    Ok(rows.len())
}

#[test]
fn offers_come_late(rt: HostRuntime) -> Result<(), Fail> {
    assert_eq!(rt;
        played::<Brand>(rt.alloc(), 9, &LATE, Blank::new(1))?,
        LATE.len()
    );
    Ok(())
}

#[test]
fn older_offers_serve(rt: HostRuntime) -> Result<(), Fail> {
    assert_eq!(rt;
        played::<Brand>(rt.alloc(), 9, &SERVES, Blank::new(1))?,
        SERVES.len()
    );
    Ok(())
}

#[test]
fn a_full_cache_loses_its_last(rt: HostRuntime) -> Result<(), Fail> {
    assert_eq!(rt;
        played::<Brand>(rt.alloc(), 1, &FULL, Blank::new(1))?,
        FULL.len()
    );
    Ok(())
}

/// What comes before three offers are published, over four revisions: the sum of both sums at the first, again
/// at the second, after the first number is set, and again at the third, after a number more, where the second
/// sum is in the cache. Then the number more is set.
static BEFORE: [Move; 12] = [
    Move::Tree,
    Move::Pin,
    Move::Total { pin: 0, node: 5 },
    Move::Set(1, 7),
    Move::Pin,
    Move::Total { pin: 1, node: 5 },
    Move::Apart,
    Move::Pin,
    Move::Total { pin: 2, node: 4 },
    Move::Publish(2),
    Move::Total { pin: 2, node: 5 },
    Move::Set(6, 5),
];

/// An offer: its number, the hit that it has, the sums of it that are kept, in order, and how many are late. The
/// first sum and that of both changed after the first revision, and nothing since.
struct Late {
    offer: u32,
    hit: Option<u32>,
    kept: &'static [u32],
    late: usize,
}

static OFFERS: [Late; 3] = [
    Late {
        offer: 0,
        hit: None,
        kept: &[4],
        late: 2,
    },
    Late {
        offer: 1,
        hit: None,
        kept: &[3, 4, 5],
        late: 0,
    },
    Late {
        offer: 3,
        hit: Some(4),
        kept: &[3, 5],
        late: 0,
    },
];

static ORDERS: [[usize; 3]; 6] = [
    [0, 1, 2],
    [0, 2, 1],
    [1, 0, 2],
    [1, 2, 0],
    [2, 0, 1],
    [2, 1, 0],
];

/// A sum goes to the front of a list of at most two.
fn to_front(list: &mut Vec<u32>, node: u32) -> Result<(), AllocError> {
    list.retain(|other| *other != node);
    list.insert(0, node)?;
    list.truncate(2);
    Ok(())
}

/// Publishes an offer, in the world and in a plain list of the cache's sums; whether the numbers are right.
fn published<L: Ledger>(
    alloc: Global,
    world: &mut TestWorld,
    list: &mut Vec<u32>,
    offer: &Late,
    steps: &mut Steps<L>,
) -> Result<bool, AllocError> {
    if let Some(hit) = offer.hit {
        if list.contains(&hit) {
            to_front(list, hit)?;
        }
    }
    for node in offer.kept {
        to_front(list, *node)?;
    }
    let expected = Told::Published {
        kept: offer.kept.len(),
        late: offer.late,
    };
    Ok(done(alloc, world, Move::Publish(offer.offer), steps)? == expected)
}

/// Whether just the sums of a list are in the cache: those take no production.
fn is_cached<L: Ledger>(
    alloc: Global,
    world: &mut TestWorld,
    list: &[u32],
    steps: &mut Steps<L>,
) -> Result<bool, AllocError> {
    for node in 3..6 {
        let before = world.made();
        done(alloc, world, Move::Total { pin: 3, node }, steps)?;
        if list.contains(&node) != (world.made() == before) {
            return Ok(false);
        }
    }
    Ok(true)
}

/// Whether three offers, published in an order, leave what a plain list says, also when it is evicted one by one.
fn as_listed<L: Ledger>(alloc: Global, order: &[usize; 3], blank: Blank) -> Result<bool, AllocError>
    requires name { blank.name ≡ L.name }
    requires parts { blank.parts ≡ L.parts }
    requires some { 0 < blank.parts }
{
    let mut steps = Steps::<L>::open(blank);
    let Some(mut world) = begin(alloc, 2)? else {
        return Ok(false);
    };
    for what in BEFORE.iter() {
        done(alloc, &mut world, *what, &mut steps)?;
    }
    let mut list = Vec::new(alloc);
    list.push(4)?;
    for place in order.iter() {
        let Some(offer) = OFFERS.get(*place) else {
            return Ok(false);
        };
        if !published(alloc, &mut world, &mut list, offer, &mut steps)? {
            return Ok(false);
        }
    }
    done(alloc, &mut world, Move::Pin, &mut steps)?;
    for _ in 0..3 {
        if !is_cached(alloc, &mut world, &list, &mut steps)? {
            return Ok(false);
        }
        done(alloc, &mut world, Move::Evict(1), &mut steps)?;
        list.pop();
    }
    Ok(true)
}

#[test]
fn offers_are_published_in_every_order(rt: HostRuntime) -> Result<(), Fail> {
    let alloc = rt.alloc();
    for order in ORDERS.iter() {
        assert!(rt; as_listed::<Brand>(alloc, order, Blank::new(1))?);
    }
    Ok(())
}
