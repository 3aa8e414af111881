use crate::uses::{begin, counts_alone, touch_own};
use crate::{OwnLine, Revision};
use dg_base::{Endpoint, Label, NodeId};
use dg_kinds_go::GoKinds;
use dg_view::Graph;
use std::test::Fail;

fn end(node: u32, label: u64) -> Endpoint {
    Endpoint {
        node: NodeId(node),
        label: Label(label),
    }
}

// Each change counts once for what it makes dirty, and revisions that are held keep their counters.
#[test]
fn counts_along_a_line(rt: HostRuntime) -> Result<(), Fail> {
    let mut line = OwnLine::<Revision<GoKinds>>::new(rt.alloc());
    let graph = Graph::<GoKinds>::new(rt.alloc())?;
    let mut here = begin::<GoKinds, OwnLine<Revision<GoKinds>>>(rt.alloc(), &mut line, graph, 1)?;
    let first = here.share()?;
    assert!(rt;
        touch_own::<GoKinds>(rt.alloc(), &mut line, &mut here, &[end(2, 1), end(1, 7)])?.is_some()
    );
    let second = here.share()?;
    assert!(rt;
        touch_own::<GoKinds>(rt.alloc(), &mut line, &mut here, &[end(1, 5), end(2, 1)])?.is_some()
    );
    assert_eq!(rt; first.revision().counters().get(end(2, 1)), 0);
    assert_eq!(rt; second.revision().counters().get(end(2, 1)), 1);
    assert_eq!(rt; second.revision().counters().get(end(1, 5)), 0);
    assert_eq!(rt; here.revision().counters().get(end(2, 1)), 2);
    assert_eq!(rt; here.revision().counters().get(end(1, 5)), 1);
    assert_eq!(rt; here.revision().counters().get(end(1, 7)), 1);
    assert_eq!(rt; here.revision().counters().get(end(1, 6)), 0);
    assert_eq!(rt; here.revision().number(), 2);
    assert_eq!(rt; here.index(), 2);
    Ok(())
}

// A thousand changes, each of its own endpoint and of one that is always touched.
#[test]
fn a_thousand_raises(rt: HostRuntime) -> Result<(), Fail> {
    let mut line = OwnLine::<Revision<GoKinds>>::new(rt.alloc());
    let graph = Graph::<GoKinds>::new(rt.alloc())?;
    let mut here = begin::<GoKinds, OwnLine<Revision<GoKinds>>>(rt.alloc(), &mut line, graph, 1)?;
    for n in 0..1_000 {
        let touched = [end(5_000 - n, 3), end(500, 1)];
        assert!(rt; touch_own::<GoKinds>(rt.alloc(), &mut line, &mut here, &touched)?.is_some());
    }
    assert_eq!(rt; here.revision().number(), 1_000);
    assert_eq!(rt; here.revision().counters().get(end(500, 1)), 1_000);
    assert_eq!(rt; here.revision().counters().get(end(4_321, 3)), 1);
    assert_eq!(rt; here.revision().counters().get(end(4_000, 3)), 0);
    Ok(())
}

// Shares of a line add to the same rows.
#[test]
fn shares_add_to_one_line(rt: HostRuntime) -> Result<(), Fail> {
    assert!(rt; counts_alone(rt, rt.alloc(), end(2, 1))? == (2, 2));
    Ok(())
}
