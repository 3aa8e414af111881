ghost use Rattle.std.specs.Prelude.{◌≤◌};

use crate::{Cache, EvictEnd, Snapshot};
use dg_base::{Answer, Datum, Endpoint, Held, Label, NodeId};
use std::alloc::{AllocError, Global};
use std::test::Fail;

fn end(node: u32) -> Endpoint {
    Endpoint {
        node: NodeId(node),
        label: Label(1),
    }
}

fn decimal(alloc: Global, number: i64) -> Result<Held, AllocError> {
    Held::of(alloc, Answer::Good(Datum::Dec(number)))
}

fn number(value: Option<&Held>) -> i64 {
    match value {
        Some(held) => match held.answer() {
            Answer::Good(Datum::Dec(number)) => *number,
            _ => -1,
        },
        None => 0,
    }
}

/// A node's number and that of its answer.
type Pair = (u32, i64);

/// The entries, most recent first.
fn entries_of(alloc: Global, cache: &Cache) -> Result<Vec<Pair>, AllocError> {
    let mut all = Vec::new(alloc);
    if let Some(order) = &cache.recency {
        for (at, _) in order {
            let value = cache.values().get(at);
            all.push((at.node.0, number(value.map(|kept| kept.value()))))?;
        }
    }
    Ok(all)
}

fn pairs_of(alloc: Global, cache: &Cache) -> Result<Vec<Pair>, AllocError> {
    let mut all = Vec::new(alloc);
    for (at, kept) in cache.values().run_at(0) {
        all.push((at.node.0, number(Some(kept.value()))))?;
    }
    Ok(all)
}

fn shown_by(alloc: Global, snapshot: &Snapshot) -> Result<Vec<Pair>, AllocError> {
    let mut all = Vec::new(alloc);
    for entry in snapshot.entries(alloc)? {
        all.push((entry.at.node.0, number(Some(&entry.value))))?;
    }
    Ok(all)
}

/// A bounded cache as a plain list, most recent first.
#[derive(Drop)]
struct Plain {
    alloc: Global,
    capacity: usize,
    entries: Vec<Pair>,
}

impl Plain {
    fn new(alloc: Global, capacity: usize) -> Plain {
        Plain {
            alloc,
            capacity,
            entries: Vec::new(alloc),
        }
    }

    fn take_out(&mut self, node: u32) -> Option<Pair> {
        let found = self.entries.iter().find(|pair| pair.0 == node).copied();
        self.entries.retain(|pair| pair.0 != node);
        found
    }

    fn put(&mut self, pair: Pair) -> Result<(), AllocError> {
        let _ = self.take_out(pair.0);
        self.entries.insert(0, pair)?;
        self.entries.truncate(self.capacity);
        Ok(())
    }

    fn evict(&mut self, most: usize) -> usize {
        let len = self.entries.len();
        self.entries.truncate(len.saturating_sub(most));
        len - self.entries.len()
    }

    /// What is answered, as a number.
    fn answer(&mut self, act: Act) -> Result<usize, AllocError> {
        match act {
            Act::Touch(node) => match self.take_out(node) {
                Some(pair) => {
                    self.put(pair)?;
                    Ok(1)
                }
                None => Ok(0),
            },
            Act::Put(pair) => {
                self.put(pair)?;
                Ok(0)
            }
            Act::TakeOut(node) => Ok(self.take_out(node).is_some() as usize),
            Act::RetainOutside(one, other) => {
                let _ = (self.take_out(one), self.take_out(other));
                Ok(0)
            }
            Act::Evict(most) => Ok(self.evict(most as usize)),
            Act::Clear => {
                self.entries.clear();
                Ok(0)
            }
        }
    }

    fn in_order(&self) -> Result<Vec<Pair>, AllocError> {
        let mut all = self.entries.clone()?;
        all.sort()?;
        Ok(all)
    }
}

#[derive(Clone, Copy)]
enum Act {
    Touch(u32),
    Put(Pair),
    TakeOut(u32),
    RetainOutside(u32, u32),
    Evict(u32),
    Clear,
}

fn answer(alloc: Global, cache: &mut Cache, act: Act) -> Result<usize, AllocError> {
    match act {
        Act::Touch(node) => Ok(cache.touch(end(node)) as usize),
        Act::Put((node, value)) => {
            cache.put(end(node), decimal(alloc, value)?)?;
            Ok(0)
        }
        Act::TakeOut(node) => Ok(cache.take_out(end(node))? as usize),
        Act::RetainOutside(one, other) => {
            cache.retain_outside(&[end(one), end(other)])?;
            Ok(0)
        }
        Act::Evict(most) => Ok(cache.evict(most).gone as usize),
        Act::Clear => {
            cache.clear();
            Ok(0)
        }
    }
}

/// Acts by a linear congruence.
#[derive(Drop)]
struct Random(u64);

impl Random {
    fn next(&mut self) -> u32 {
        self.0 = self
            .0
            .wrapping_mul(6364136223846793005)
            .wrapping_add(1442695040888963407);
        (self.0 >> 33) as u32
    }

    fn node(&mut self) -> u32 {
        self.next() % 8
    }

    fn act(&mut self, value: i64) -> Act {
        match self.next() % 16 {
            0..=3 => Act::Touch(self.node()),
            4..=10 => Act::Put((self.node(), value)),
            11 => Act::TakeOut(self.node()),
            12 | 13 => Act::RetainOutside(self.node(), self.node()),
            14 => Act::Evict(self.next() % 4),
            _ => Act::Clear,
        }
    }
}

// Entries that were touched or put last stay; snapshots keep what there was.
#[test]
fn keeps_the_latest(rt: HostRuntime) -> Result<(), Fail> {
    let mut cache = Cache::new(rt.alloc(), 2);
    let none = Snapshot::none();
    assert!(rt; none.is_empty());
    assert_eq!(rt; cache.capacity(), 2);
    cache.put(end(2), decimal(rt.alloc(), 20)?)?;
    cache.put(end(1), decimal(rt.alloc(), 10)?)?;
    let both = cache.snapshot()?;
    assert!(rt; cache.touch(end(2)));
    assert!(rt; !cache.touch(end(3)));
    cache.put(end(3), decimal(rt.alloc(), 30)?)?;
    cache.put(end(3), decimal(rt.alloc(), 31)?)?;
    let after = cache.snapshot()?.share()?;
    for (node, before, now) in [(1, 10, 0), (2, 20, 20), (3, 0, 31)] {
        assert_eq!(rt; number(both.get(end(node))), before);
        assert_eq!(rt; number(after.get(end(node))), now);
    }
    assert_eq!(rt; after.len(), 2);
    assert!(rt; !cache.take_out(end(1))?);
    assert!(rt; cache.take_out(end(3))?);
    assert_eq!(rt; cache.len(), 1);
    cache.retain_outside(&[end(2), end(9)])?;
    assert_eq!(rt; cache.len(), 0);
    Ok(())
}

// The entries at the end go first.
#[test]
fn evicts_the_oldest(rt: HostRuntime) -> Result<(), Fail> {
    let mut cache = Cache::new(rt.alloc(), 5);
    for node in 1..5 {
        cache.put(end(node), Held::of(rt.alloc(), Answer::Cycle)?)?;
    }
    let gone = cache.evict(3);
    assert_eq!(rt; gone.gone, 3);
    assert_eq!(rt; gone.end, EvictEnd::All);
    assert!(rt; cache.snapshot()?.get(end(4)).is_some());
    assert_eq!(rt; cache.evict(7).gone, 1);
    cache.put(end(6), Held::of(rt.alloc(), Answer::Cycle)?)?;
    cache.clear();
    assert_eq!(rt; cache.len(), 0);
    Ok(())
}

/// Two of three endpoints stay in a cache for two, where the first one was touched before the third came. It
/// answers a snapshot from before that.
fn first_touched(alloc: Global) -> Result<(Cache, Snapshot), AllocError> {
    let mut cache = Cache::new(alloc, 2);
    cache.put(end(1), decimal(alloc, 10)?)?;
    cache.put(end(2), decimal(alloc, 20)?)?;
    let before = cache.snapshot()?;
    let _ = cache.touch(end(1));
    cache.put(end(3), decimal(alloc, 30)?)?;
    Ok((cache, before))
}

// What was dropped from the end is still in an earlier snapshot, and what came later is not.
#[test]
fn leaves_snapshots_as_they_are(rt: HostRuntime) -> Result<(), Fail> {
    let alloc = rt.alloc();
    let (cache, before) = first_touched(alloc)?;
    assert_eq!(rt;
        entries_of(alloc, &cache)?.as_slice(),
        [(3, 30), (1, 10)].as_slice()
    );
    assert_eq!(rt;
        shown_by(alloc, &before)?.as_slice(),
        [(1, 10), (2, 20)].as_slice()
    );
    assert!(rt; before.get(end(3)).is_none());
    assert_eq!(rt; number(before.get(end(2))), 20);
    Ok(())
}

/// Whether the cache answers an act as the list does, and then has the same entries, in its order, in endpoint
/// order in its map and in a snapshot.
fn agrees(
    alloc: Global,
    cache: &mut Cache,
    plain: &mut Plain,
    act: Act,
) -> Result<bool, AllocError> {
    let answers = (answer(alloc, cache, act)?, plain.answer(act)?);
    let snapshot = cache.snapshot()?;
    let entries = entries_of(alloc, cache)?;
    let pairs = pairs_of(alloc, cache)?;
    let shown = shown_by(alloc, &snapshot)?;
    let in_order = plain.in_order()?;
    Ok(answers.0 == answers.1 && entries == plain.entries && pairs == in_order && shown == in_order)
}

/// The first of some random acts at which a cache isn't the list, or a snapshot changed.
fn first_other(
    alloc: Global,
    random: &mut Random,
    capacity: u32,
    acts: i64,
) -> Result<Option<i64>, AllocError>
    requires { 1 ≤ capacity }
{
    let mut cache = Cache::new(alloc, capacity);
    let mut plain = Plain::new(alloc, capacity as usize);
    let mut earlier = cache.snapshot()?;
    let mut shown = Vec::new(alloc);
    for value in 0..acts {
        let same = agrees(alloc, &mut cache, &mut plain, random.act(value))?;
        let kept = shown_by(alloc, &earlier)?;
        if !same || kept != shown {
            return Ok(Some(value));
        }
        if value % 3 == 0 {
            earlier = cache.snapshot()?.share()?;
            shown = plain.in_order()?;
        }
    }
    Ok(None)
}

// Whatever is called, the cache has the entries of a plain list, and a snapshot keeps what there was.
#[test]
fn any_calls_give_the_entries_of_a_list(rt: HostRuntime) -> Result<(), Fail> {
    let mut random = Random(1);
    for capacity in 1..6 {
        assert_eq!(rt;
            first_other(rt.alloc(), &mut random, capacity, 400)?,
            None,
            "at capacity {capacity}"
        );
    }
    Ok(())
}
