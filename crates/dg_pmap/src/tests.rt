use crate::{Kept, PMap};
use std::test::Fail;

const MANY: u32 = 100_000;

// The n-th of the keys below `MANY`, each once, in the order of a linear congruence.
fn shuffled(n: u32) -> u32 {
    ((n as u64 * 7_919 + 12_345) % MANY as u64) as u32
}

fn is_within_bound(map: &PMap<u32, u32>) -> bool {
    let half = map.height() / 2;
    half < 32 && (1u64 << half) <= map.len().max(1) as u64
}

#[test]
fn rising_keys(rt: HostRuntime) -> Result<(), Fail> {
    let mut map = PMap::new(rt.alloc());
    for n in 0..MANY {
        assert!(rt; !map.insert(n, n + 1)?);
    }
    assert_eq!(rt; map.len(), 100_000);
    assert!(rt; is_within_bound(&map), "{}", map.height());
    assert_eq!(rt; map.get(&77_777).copied(), Some(77_778));
    Ok(())
}

#[test]
fn falling_keys(rt: HostRuntime) -> Result<(), Fail> {
    let mut map = PMap::new(rt.alloc());
    for n in 0..MANY {
        assert!(rt; !map.insert(MANY - n, n)?);
    }
    assert_eq!(rt; map.len(), 100_000);
    assert!(rt; is_within_bound(&map), "{}", map.height());
    assert_eq!(rt; map.get(&1).copied(), Some(99_999));
    Ok(())
}

#[test]
fn shuffled_keys_come_in_order_and_go(rt: HostRuntime) -> Result<(), Fail> {
    let mut map = PMap::new(rt.alloc());
    for n in 0..MANY {
        assert!(rt; !map.insert(shuffled(n), n)?);
    }
    assert!(rt; is_within_bound(&map), "{}", map.height());
    let mut next = 0;
    for _ in 0..MANY {
        let run = map.run_at(next);
        for pair in run {
            assert_eq!(rt; pair.0 as usize, next);
            assert!(rt; next < 100_000);
            next += 1;
        }
    }
    assert_eq!(rt; next, 100_000);
    for n in 0..MANY {
        assert!(rt; map.remove(&shuffled(n))?);
        if n % 10_000 == 0 {
            assert!(rt; is_within_bound(&map), "{}", map.height());
        }
    }
    assert!(rt; map.is_empty());
    Ok(())
}

#[test]
fn shares_keep_what_they_showed(rt: HostRuntime) -> Result<(), Fail> {
    let mut map = PMap::new(rt.alloc());
    for n in 0..1_000u32 {
        assert!(rt; !map.insert(shuffled(n), n)?);
    }
    let before = map.share()?;
    for n in 0..1_000u32 {
        if n % 2 == 0 {
            assert!(rt; map.remove(&shuffled(n))?);
        } else {
            assert!(rt; map.insert(shuffled(n), n + 1)?);
        }
    }
    assert_eq!(rt; map.len(), 500);
    assert_eq!(rt; before.len(), 1_000);
    for n in 0..1_000u32 {
        assert_eq!(rt; before.get(&shuffled(n)).copied(), Some(n));
        let now = if n % 2 == 0 { None } else { Some(n + 1) };
        assert_eq!(rt; map.get(&shuffled(n)).copied(), now);
    }
    Ok(())
}

#[test]
fn places(rt: HostRuntime) -> Result<(), Fail> {
    let mut map = PMap::new(rt.alloc());
    assert!(rt; map.first_from(&0).is_none());
    for n in 0..100u32 {
        assert!(rt; !map.insert(2 * n, n)?);
    }
    assert!(rt; map.contains_key(&8));
    assert_eq!(rt; map.position(&7), 4);
    assert_eq!(rt; map.position(&8), 4);
    assert!(rt;
        map.first_from(&7)
            .is_some_and(|pair| *pair.0 == 8 && *pair.1 == 4)
    );
    assert!(rt; map.at(99).is_some_and(|pair| *pair.0 == 198));
    assert!(rt; map.at(100).is_none());
    assert!(rt; map.first_from(&199).is_none());
    Ok(())
}

#[test]
fn values_that_are_no_copies(rt: HostRuntime) -> Result<(), Fail> {
    let mut map = PMap::new(rt.alloc());
    assert!(rt; !map.insert(1u8, Kept::new(rt.alloc(), [1, 2].to_vec(rt.alloc())?)?)?);
    let before = map.share()?;
    assert!(rt; map.insert(1u8, Kept::new(rt.alloc(), [3].to_vec(rt.alloc())?)?)?);
    assert!(rt; before.get(&1).is_some_and(|kept| kept.value().len() == 2));
    assert!(rt; map.get(&1).is_some_and(|kept| kept.value().len() == 1));
    Ok(())
}
