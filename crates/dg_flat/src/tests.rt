use crate::Graph;
use dg_base::{
    ArgSpec, ArgVal, Datum, Endpoint, Kind, Label, Made, NodeId, Role, Rule, Schema, Steps,
};
use std::alloc::{AllocError, Global};
use std::sync::ledger::Ledger;
use std::test::Fail;

// Kinds without labels.
struct Bare;

impl Schema for Bare {
    ghost use Rattle.dg_flat.specs.Bare.{bare_tables};
    ghost use Rattle.dg_flat.specs.Bare.{bare_laws};

    ghost tables = { bare_tables };

    fn labels(_kind: Kind) -> &'static [Label] {
        &[]
    }

    fn role(_kind: Kind, _label: Label) -> Role {
        Role::Nothing
    }

    fn is_open(_kind: Kind) -> bool {
        false
    }

    fn args(_kind: Kind, _label: Label) -> &'static [ArgSpec] {
        &[]
    }

    fn default(_alloc: Global, _kind: Kind, _label: Label) -> Result<Datum, AllocError> {
        Ok(Datum::Nil)
    }

    fn substitute(_alloc: Global, _kind: Kind, _label: Label) -> Result<Datum, AllocError> {
        Ok(Datum::Nil)
    }

    fn produce<L: Ledger>(
        _alloc: Global,
        _kind: Kind,
        _label: Label,
        _args: &[ArgVal],
        steps: &mut Steps<L>,
    ) -> Result<Made, AllocError> {
        steps.tick();
        Ok(Made::Good(Datum::Nil))
    }

    ghost laws = { bare_laws };
}

fn end(node: u32, label: u64) -> Endpoint {
    Endpoint {
        node: NodeId(node),
        label: Label(label),
    }
}

// What is touched is dirty although it isn't there, in order and once.
#[test]
fn reads_an_empty_graph(rt: HostRuntime) -> Result<(), Fail> {
    let graph = Graph::<Bare>::new(rt.alloc());
    assert!(rt; matches!(graph.rule(end(1, 5))?, Rule::Absent));
    assert!(rt; graph.endpoints()?.is_empty());
    assert!(rt; graph.readers_of_nodes(&[NodeId(1)])?.is_empty());
    let dirty = graph.dirty(&[end(2, 1), end(1, 7), end(2, 1), end(1, 5)])?;
    assert_eq!(rt;
        dirty.as_slice(),
        [end(1, 5), end(1, 7), end(2, 1)].as_slice()
    );
    Ok(())
}
