use crate::Succ;
use dg_base::{Endpoint, Label, NodeId};
use std::alloc::{AllocError, Global};
use std::test::Fail;

fn end(number: u32) -> Endpoint {
    Endpoint {
        node: NodeId(number / 10),
        label: Label(u64::from(number % 10)),
    }
}

fn paired(alloc: Global, pairs: &[(u32, u32)]) -> Result<Succ, AllocError> {
    let mut set = Succ::new(alloc);
    for (from, to) in pairs {
        set.add(end(*from), end(*to))?;
    }
    Ok(set)
}

#[test]
fn pairs_come_once_and_go_one_way(rt: HostRuntime) -> Result<(), Fail> {
    let mut set = paired(rt.alloc(), &[(1, 2), (2, 1), (1, 2)])?;
    let gone = set.take_away(end(1), end(2))?;
    assert!(rt; gone && set.len() == 1 && set.has(end(2), end(1)));
    Ok(())
}

#[test]
fn a_share_keeps_what_it_showed(rt: HostRuntime) -> Result<(), Fail> {
    let mut set = paired(rt.alloc(), &[(1, 2), (2, 3)])?;
    let before = set.share()?;
    let gone = set.take_away(end(1), end(2))?;
    assert!(rt; gone && before.has(end(1), end(2)) && !set.has(end(1), end(2)));
    Ok(())
}

#[test]
fn what_follows_comes_in_order_and_once(rt: HostRuntime) -> Result<(), Fail> {
    let set = paired(
        rt.alloc(),
        &[(5, 3), (3, 9), (9, 5), (3, 1), (7, 8), (3, 25)],
    )?;
    let all = set.closure(&[end(9), end(5), end(9)])?;
    assert!(rt; all.as_slice() == [end(1), end(3), end(5), end(9), end(25)].as_slice());
    Ok(())
}
