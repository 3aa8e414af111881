use crate::Arcs;
use dg_base::{ArcRec, Endpoint, Label, NodeId};
use std::alloc::{AllocError, Global};
use std::test::Fail;

fn arc(from: u32, to: u32) -> ArcRec {
    ArcRec {
        src: Endpoint {
            node: NodeId(from),
            label: Label(1),
        },
        node: NodeId(to),
        input: Label(2),
    }
}

// From each of these nodes to the node 1, and back.
fn connected(alloc: Global, nodes: &[u32]) -> Result<Arcs, AllocError> {
    let mut arcs = Arcs::new(alloc);
    for node in nodes {
        arcs.add(arc(*node, 1))?;
        arcs.add(arc(1, *node))?;
    }
    Ok(arcs)
}

#[test]
fn sources_come_in_the_order_in_which_they_were_connected(rt: HostRuntime) -> Result<(), Fail> {
    let mut arcs = connected(rt.alloc(), &[5, 3, 9, 4])?;
    let gone = arcs.remove(arc(3, 1))?;
    let new = arcs.add(arc(3, 1))?;
    let sources = arcs.explicit_sources(NodeId(1), Label(2))?;
    let wanted = [arc(5, 1).src, arc(9, 1).src, arc(4, 1).src, arc(3, 1).src];
    assert!(rt; gone && new && sources.as_slice() == wanted.as_slice());
    Ok(())
}

#[test]
fn an_arc_stands_once_and_a_self_arc_goes_both_ways(rt: HostRuntime) -> Result<(), Fail> {
    let arcs = connected(rt.alloc(), &[6, 1, 6])?;
    let out = arcs.out_of(NodeId(1))?;
    assert!(rt; arcs.len() == 3 && out.as_slice() == [arc(1, 6), arc(1, 1)].as_slice());
    Ok(())
}

#[test]
fn a_share_keeps_what_it_showed(rt: HostRuntime) -> Result<(), Fail> {
    let mut arcs = connected(rt.alloc(), &[5, 3])?;
    let before = arcs.share()?;
    let gone = arcs.remove(arc(5, 1))?;
    assert!(rt; gone && before.has(arc(5, 1)) && !arcs.has(arc(5, 1)));
    Ok(())
}
