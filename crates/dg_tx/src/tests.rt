ghost use Rattle.std.specs.Prelude.{◌≤◌, IsTrue};
ghost use Rattle.dg_base.specs.Sound.{ids_below};

use crate::apply;
use dg_base::{Datum, Endpoint, Kind, Label, NodeId, NodeRef, Refusal, Rule, Step, Str, TxCode};
use dg_kinds_go::GoKinds;
use dg_view::Graph;
use sqlite_items::Boxed;
use std::alloc::{AllocError, Global};
use std::test::Fail;

#[derive(Clone, Copy)]
enum Name {
    Id(u32),
    New(u32),
    In(u32, u32),
}

use Name::{Id, In, New};

#[derive(Clone, Copy)]
enum Move {
    Make(u16),
    Override(Name),
    Number(Name, u64),
    Word(Name, u64),
    Clear(Name, u64),
    Connect(Name, u64, Name, u64),
    Disconnect(Name, u64, Name, u64),
    Delete(Name),
    Mark(Name),
}

use Move::{Clear, Connect, Delete, Disconnect, Make, Mark, Number, Override, Word};

/// Steps on the empty graph, and the step that is refused. Kinds: 1 Num, 2 Sum, 3 Text.
static REFUSED: [(&'static [Move], u32, TxCode); 13] = [
    (&[Override(Id(1))], 1, TxCode::NoNode),
    (&[Make(1), Number(Id(2), 1)], 2, TxCode::NoNode),
    (&[Make(1), Number(New(1), 1)], 2, TxCode::NoNode),
    (&[Make(1), Number(New(0), 2)], 2, TxCode::NotProperty),
    (&[Make(1), Word(New(0), 1)], 2, TxCode::ValueType),
    (&[Make(1), Clear(New(0), 2)], 2, TxCode::NotProperty),
    (
        &[Make(1), Make(2), Connect(New(1), 2, New(0), 1)],
        3,
        TxCode::NotOutput,
    ),
    (
        &[Make(1), Make(2), Connect(New(0), 1, New(0), 1)],
        3,
        TxCode::NotInput,
    ),
    (
        &[Make(3), Make(2), Connect(New(0), 5, New(1), 3)],
        3,
        TxCode::ArcType,
    ),
    (
        &[Make(1), Make(2), Disconnect(New(0), 1, New(1), 2)],
        3,
        TxCode::NoArc,
    ),
    (
        &[Make(1), Make(2), Disconnect(New(0), 1, New(1), 4)],
        3,
        TxCode::NotInput,
    ),
    (&[Make(1), Delete(New(0)), Mark(New(0))], 3, TxCode::NoNode),
    (&[Make(1), Mark(In(1, 1))], 2, TxCode::NoNode),
];

/// A game object, an override of it and an override of that. Then a component is connected to it,
/// which gets override nodes in both, and has a type.
static POPULATES: [Move; 6] = [
    Make(7),
    Override(New(0)),
    Override(New(1)),
    Make(9),
    Connect(New(3), 16, New(0), 17),
    Word(New(3), 12),
];

/// All endpoints of the three game objects and of the three components.
static ALL: [(u32, u64); 27] = [
    (1, 9),
    (1, 18),
    (1, 19),
    (2, 9),
    (2, 18),
    (2, 19),
    (3, 9),
    (3, 18),
    (3, 19),
    (4, 11),
    (4, 12),
    (4, 13),
    (4, 14),
    (4, 15),
    (4, 16),
    (5, 11),
    (5, 12),
    (5, 13),
    (5, 14),
    (5, 15),
    (5, 16),
    (6, 11),
    (6, 12),
    (6, 13),
    (6, 14),
    (6, 15),
    (6, 16),
];

/// Steps on the graph that these made, and what they touch.
static TOUCH: [(&'static [Move], &'static [(u32, u64)]); 4] = [
    (
        &[Disconnect(Id(4), 16, Id(1), 17), Word(In(2, 4), 11)],
        &[(1, 18), (2, 18), (3, 18), (5, 11), (6, 11)],
    ),
    (
        &[Mark(Id(1))],
        &[(1, 18), (1, 19), (2, 18), (2, 19), (3, 18), (3, 19)],
    ),
    (&[Clear(In(2, 4), 11)], &[(5, 11), (6, 11)]),
    (
        &[Delete(Id(5))],
        &[
            (2, 18),
            (3, 18),
            (5, 11),
            (5, 12),
            (5, 13),
            (5, 14),
            (5, 15),
            (5, 16),
            (6, 11),
            (6, 12),
            (6, 13),
            (6, 14),
            (6, 15),
            (6, 16),
        ],
    ),
];

/// Steps on that graph, one transaction of each sort, and how many rules they change.
static CHANGE: [(&'static [Move], usize); 9] = [
    (&[Make(1)], 1),
    (&[Override(Id(4))], 6),
    (&[Word(Id(4), 11)], 1),
    (&[Word(In(2, 4), 11)], 1),
    (&[Clear(Id(4), 12)], 1),
    (&[Mark(Id(1))], 6),
    (&[Disconnect(Id(4), 16, Id(1), 17)], 3),
    (&[Make(9), Connect(New(0), 16, Id(1), 17)], 21),
    (&[Delete(Id(5))], 14),
];

fn reference(alloc: Global, name: Name) -> Result<NodeRef, AllocError> {
    Ok(match name {
        Name::Id(id) => NodeRef::Id(NodeId(id)),
        Name::New(made) => NodeRef::New(made),
        Name::In(root, original) => NodeRef::In {
            root: Boxed::new(alloc, NodeRef::Id(NodeId(root)))?,
            original: Boxed::new(alloc, NodeRef::Id(NodeId(original)))?,
        },
    })
}

fn step(alloc: Global, what: Move) -> Result<Step, AllocError> {
    Ok(match what {
        Move::Make(kind) => Step::Make { kind: Kind(kind) },
        Move::Override(root) => Step::Override {
            root: reference(alloc, root)?,
        },
        Move::Number(node, label) => Step::Set {
            node: reference(alloc, node)?,
            label: Label(label),
            value: Datum::Dec(1),
        },
        Move::Word(node, label) => Step::Set {
            node: reference(alloc, node)?,
            label: Label(label),
            value: Datum::Text(Str::of(String::from_str(alloc, "x")?)),
        },
        Move::Clear(node, label) => Step::Clear {
            node: reference(alloc, node)?,
            label: Label(label),
        },
        Move::Connect(src, label, node, input) => Step::Connect {
            src: reference(alloc, src)?,
            label: Label(label),
            node: reference(alloc, node)?,
            input: Label(input),
        },
        Move::Disconnect(src, label, node, input) => Step::Disconnect {
            src: reference(alloc, src)?,
            label: Label(label),
            node: reference(alloc, node)?,
            input: Label(input),
        },
        Move::Delete(node) => Step::Delete {
            node: reference(alloc, node)?,
        },
        Move::Mark(node) => Step::Mark {
            node: reference(alloc, node)?,
            defective: true,
        },
    })
}

fn steps(alloc: Global, moves: &[Move]) -> Result<Vec<Step>, AllocError> {
    let mut all = Vec::new(alloc);
    for what in moves {
        all.push(step(alloc, *what)?)?;
    }
    Ok(all)
}

// Whether the empty graph refuses the moves so.
fn is_refused(
    alloc: Global,
    next: u32,
    moves: &[Move],
    number: u32,
    want: TxCode,
) -> Result<bool, AllocError>
    requires { 1 ≤ next }
{
    let graph = Graph::<GoKinds>::new(alloc)?;
    let steps = steps(alloc, moves)?;
    match apply(alloc, &graph, next, &steps) {
        Ok(_) => Ok(false),
        Err(Refusal::Because(refused)) => Ok(refused.step == number && refused.code == want),
        Err(Refusal::NoMemory) => Err(AllocError),
    }
}

// The place of the first case that isn't refused as it should be.
fn wrongly_refused(alloc: Global) -> Result<Option<usize>, AllocError> {
    for (place, (moves, number, code)) in REFUSED.iter().enumerate() {
        if !is_refused(alloc, 1, moves, *number, *code)? {
            return Ok(Some(place));
        }
    }
    Ok(None)
}

fn are(touched: &[Endpoint], want: &[(u32, u64)]) -> bool {
    touched.len() == want.len()
        && touched.iter().zip(want.iter()).all(|(end, want)| end.node.0 == want.0
            && end.label.0 == want.1)
}

// Whether the moves touch just these.
fn touches(
    alloc: Global,
    graph: &Graph<GoKinds>,
    next: u32,
    moves: &[Move],
    want: &[(u32, u64)],
) -> Result<bool, AllocError>
    requires some { 1 ≤ next }
    requires below { IsTrue (ids_below graph.now next) }
{
    let steps = steps(alloc, moves)?;
    match apply(alloc, graph, next, &steps) {
        Ok(applied) => Ok(applied.next == next && are(applied.touched.as_slice(), want)),
        Err(Refusal::Because(_)) => Ok(false),
        Err(Refusal::NoMemory) => Err(AllocError),
    }
}

fn is_same(alloc: Global, rule: Rule, other: Rule) -> Result<bool, AllocError> {
    let (rule, other) = (
        format!(in alloc; "{rule:?}")?,
        format!(in alloc; "{other:?}")?,
    );
    Ok(rule == other)
}

// How many rules differ in two graphs of at most nine nodes; None where one of them isn't touched.
fn changed_rules(
    alloc: Global,
    before: &Graph<GoKinds>,
    after: &Graph<GoKinds>,
    touched: &[Endpoint],
) -> Result<Option<usize>, AllocError> {
    let mut changed = Vec::new(alloc);
    for node in 1..10 {
        for label in 1..34 {
            let at = Endpoint {
                node: NodeId(node),
                label: Label(label),
            };
            if is_same(alloc, before.rule(at)?, after.rule(at)?)? {
                continue;
            }
            if !touched.contains(&at) {
                return Ok(None);
            }
            changed.push(at)?;
        }
    }
    Ok(Some(changed.len()))
}

// Whether the moves change this many rules, each of a touched endpoint.
fn changes(
    alloc: Global,
    graph: &Graph<GoKinds>,
    next: u32,
    moves: &[Move],
    want: usize,
) -> Result<bool, AllocError>
    requires some { 1 ≤ next }
    requires below { IsTrue (ids_below graph.now next) }
{
    let steps = steps(alloc, moves)?;
    match apply(alloc, graph, next, &steps) {
        Ok(done) => {
            let changed = changed_rules(alloc, graph, &done.graph, done.touched.as_slice())?;
            Ok(changed == Some(want))
        }
        Err(Refusal::Because(_)) => Ok(false),
        Err(Refusal::NoMemory) => Err(AllocError),
    }
}

// What is wrong after the populating steps: nothing, or a word for it.
fn wrongly_applied(alloc: Global) -> Result<Option<&'static str>, AllocError> {
    let empty = Graph::<GoKinds>::new(alloc)?;
    let steps = steps(alloc, &POPULATES)?;
    let Ok(applied) = apply(alloc, &empty, 1, &steps) else {
        return Ok(Some("refused"));
    };
    if applied.next != 7 || applied.made.as_slice().len() != 4 || empty.node_count() != 0 {
        return Ok(Some("made"));
    }
    if applied.graph.override_in(NodeId(3), NodeId(5)) != Some(NodeId(6)) {
        return Ok(Some("populated"));
    }
    if !are(applied.touched.as_slice(), &ALL) {
        return Ok(Some("touched"));
    }
    for (moves, want) in &TOUCH {
        if !touches(alloc, &applied.graph, applied.next, moves, want)? {
            return Ok(Some("touched later"));
        }
    }
    for (moves, want) in &CHANGE {
        if !changes(alloc, &applied.graph, applied.next, moves, *want)? {
            return Ok(Some("changed rules"));
        }
    }
    Ok(None)
}

#[test]
fn refuses_with_step_and_code(rt: HostRuntime) -> Result<(), Fail> {
    assert_eq!(rt; wrongly_refused(rt.alloc())?, None);
    assert!(rt; is_refused(rt.alloc(), 262_145, &[Make(1)], 1, TxCode::TooManyNodes)?);
    Ok(())
}

#[test]
fn populates_two_overrides(rt: HostRuntime) -> Result<(), Fail> {
    assert_eq!(rt; wrongly_applied(rt.alloc())?, None);
    Ok(())
}
