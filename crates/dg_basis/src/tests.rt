use crate::{Basis, NodeRec};
use dg_base::{Datum, Kind, Label, NodeId, Origin};
use dg_pmap::{Kept, Share};
use std::alloc::{AllocError, Global};
use std::test::Fail;

// A plain node, or an override node of a root and an original.
fn put(
    basis: &mut Basis,
    alloc: Global,
    node: u32,
    over: Option<(u32, u32)>,
) -> Result<(), AllocError> {
    let origin = match over {
        Some((root, original)) => Origin::Over {
            root: NodeId(root),
            original: NodeId(original),
        },
        None => Origin::Plain(Kind(1)),
    };
    basis.put(NodeId(node), NodeRec::new(alloc, origin))
}

fn filled(alloc: Global, nodes: &[(u32, Option<(u32, u32)>)]) -> Result<Basis, AllocError> {
    let mut basis = Basis::new(alloc);
    for (node, over) in nodes {
        put(&mut basis, alloc, *node, *over)?;
    }
    Ok(basis)
}

#[test]
fn override_nodes_are_found_by_root_and_original(rt: HostRuntime) -> Result<(), Fail> {
    let basis = filled(
        rt.alloc(),
        &[(2, None), (7, Some((6, 2))), (9, Some((8, 2)))],
    )?;
    let first = basis.override_in(NodeId(6), NodeId(2));
    let second = basis.override_in(NodeId(8), NodeId(2));
    let none = basis.override_in(NodeId(8), NodeId(1));
    assert!(rt; first == Some(NodeId(7)) && second == Some(NodeId(9)) && none.is_none());
    Ok(())
}

#[test]
fn override_nodes_come_in_id_order(rt: HostRuntime) -> Result<(), Fail> {
    let basis = filled(
        rt.alloc(),
        &[(9, Some((1, 2))), (7, Some((6, 2))), (8, Some((6, 3)))],
    )?;
    let overs = basis.overs(NodeId(2))?;
    assert!(rt; overs.as_slice() == [NodeId(7), NodeId(9)].as_slice());
    Ok(())
}

#[test]
fn a_node_takes_its_places_with_it(rt: HostRuntime) -> Result<(), Fail> {
    let mut basis = filled(
        rt.alloc(),
        &[(7, Some((6, 2))), (9, Some((8, 2))), (7, Some((6, 3)))],
    )?;
    let gone = basis.take_out(NodeId(9))?;
    let overs = basis.overs(NodeId(2))?;
    assert!(rt; gone && overs.is_empty() && basis.len() == 1);
    Ok(())
}

fn set_flag(basis: &mut Basis, alloc: Global, node: NodeId) -> Result<(), AllocError> {
    let Some(known) = basis.node(node) else {
        return Ok(());
    };
    let mut changed = known.share()?;
    changed
        .own
        .insert(Label(3), Kept::new(alloc, Datum::Flag(true))?)?;
    basis.put(node, changed)
}

fn own_values(basis: &Basis, node: NodeId) -> usize {
    match basis.node(node) {
        Some(known) => known.own.len(),
        None => 0,
    }
}

#[test]
fn a_share_keeps_what_it_showed(rt: HostRuntime) -> Result<(), Fail> {
    let mut basis = filled(rt.alloc(), &[(7, None), (8, None)])?;
    let before = basis.share()?;
    set_flag(&mut basis, rt.alloc(), NodeId(7))?;
    assert!(rt; own_values(&before, NodeId(7)) == 0 && own_values(&basis, NodeId(7)) == 1);
    Ok(())
}
