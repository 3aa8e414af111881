//! A history of edits, undos and redos on a number and a sum of it.
use crate::{EditCause, Editor};
use dg_base::{Datum, Endpoint, Kind, Label, NodeId, NodeRef, Refusal, RefusedStep, Step, TxCode};
use dg_kinds_go::GoKinds;
use dg_line::{OwnLine, Revision};
use std::alloc::{AllocError, Global};
use std::test::Fail;

type TestEditor = Editor<GoKinds, OwnLine<Revision<GoKinds>>>;

/// What is done: no steps; a number, a sum, and the number as a term of the sum; a node's value set; one
/// number more; an undo; a redo.
#[derive(Clone, Copy)]
enum Move {
    Nothing,
    Both,
    Set(u32),
    More,
    Undo,
    Redo,
}

const NO_NODE: EditCause = EditCause::Refused(RefusedStep {
    step: 1,
    code: TxCode::NoNode,
});

/// What is done and how it is refused; then the number of the current revision, how often the sum, which is
/// node 2, was dirty, the next id, and how many nodes there are. Counters rise at an edit, an undo and a redo
/// alike, ids are never given twice, and what is refused changes nothing.
static HISTORY: [(Move, Option<EditCause>, (u32, u32, u32, usize)); 16] = [
    (Move::Nothing, Some(EditCause::Empty), (0, 0, 1, 0)),
    (Move::Undo, Some(EditCause::NothingToUndo), (0, 0, 1, 0)),
    (Move::Redo, Some(EditCause::NothingToRedo), (0, 0, 1, 0)),
    (Move::Both, None, (1, 1, 3, 2)),
    (Move::Set(1), None, (2, 2, 3, 2)),
    (Move::Undo, None, (3, 3, 3, 2)),
    (Move::Set(9), Some(NO_NODE), (3, 3, 3, 2)),
    (Move::Nothing, Some(EditCause::Empty), (3, 3, 3, 2)),
    (Move::Redo, None, (4, 4, 3, 2)),
    (Move::Redo, Some(EditCause::NothingToRedo), (4, 4, 3, 2)),
    (Move::Undo, None, (5, 5, 3, 2)),
    (Move::Undo, None, (6, 6, 3, 0)),
    (Move::Undo, Some(EditCause::NothingToUndo), (6, 6, 3, 0)),
    (Move::More, None, (7, 6, 4, 1)),
    (Move::Redo, Some(EditCause::NothingToRedo), (7, 6, 4, 1)),
    (Move::Undo, None, (8, 6, 4, 0)),
];

fn make(kind: u16) -> Step {
    Step::Make { kind: Kind(kind) }
}

// Kinds: 1 Num, 2 Sum. Labels: 1 value, 2 terms, 4 total.
fn steps_of(alloc: Global, what: Move) -> Result<Vec<Step>, AllocError> {
    let mut steps = Vec::new(alloc);
    match what {
        Move::Both => {
            steps.push(make(1))?;
            steps.push(make(2))?;
            steps.push(Step::Connect {
                src: NodeRef::New(0),
                label: Label(1),
                node: NodeRef::New(1),
                input: Label(2),
            })?;
        }
        Move::Set(node) => steps.push(Step::Set {
            node: NodeRef::Id(NodeId(node)),
            label: Label(1),
            value: Datum::Dec(5),
        })?,
        Move::More => steps.push(make(1))?,
        Move::Nothing | Move::Undo | Move::Redo => {}
    }
    Ok(steps)
}

/// Why a call was refused; None where it wasn't.
fn cause_of<T: Drop>(
    answer: Result<T, Refusal<EditCause>>,
) -> Result<Option<EditCause>, AllocError> {
    match answer {
        Ok(_) => Ok(None),
        Err(Refusal::Because(cause)) => Ok(Some(cause)),
        Err(Refusal::NoMemory) => Err(AllocError),
    }
}

fn done(
    alloc: Global,
    editor: &mut TestEditor,
    what: Move,
) -> Result<Option<EditCause>, AllocError> {
    match what {
        Move::Undo => cause_of(editor.undo()),
        Move::Redo => cause_of(editor.redo()),
        _ => {
            let steps = steps_of(alloc, what)?;
            cause_of(editor.transact(&steps))
        }
    }
}

fn seen(editor: &TestEditor) -> (u32, u32, u32, usize) {
    let revision = editor.ticket().revision();
    let total = Endpoint {
        node: NodeId(2),
        label: Label(4),
    };
    (
        revision.number(),
        revision.counters().get(total),
        revision.next(),
        revision.graph().node_count(),
    )
}

fn begin(alloc: Global) -> Result<Option<TestEditor>, AllocError> {
    match Editor::open(alloc, OwnLine::new(alloc), &[]) {
        Ok((editor, _)) => Ok(Some(editor)),
        Err(Refusal::Because(_)) => Ok(None),
        Err(Refusal::NoMemory) => Err(AllocError),
    }
}

/// How much of a history goes as it says.
fn as_said(alloc: Global) -> Result<usize, AllocError> {
    let Some(mut editor) = begin(alloc)? else {
        return Ok(0);
    };
    for (place, (what, cause, then)) in HISTORY.iter().enumerate() {
        if done(alloc, &mut editor, *what)? != *cause || seen(&editor) != *then {
            return Ok(place);
        }
    }
    Ok(HISTORY.len())
}

#[test]
fn an_editor_goes_back_and_forth(rt: HostRuntime) -> Result<(), Fail> {
    assert_eq!(rt; as_said(rt.alloc())?, HISTORY.len());
    Ok(())
}
