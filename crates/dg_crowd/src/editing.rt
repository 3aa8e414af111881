//! The graph: two numbers, 1 and 2, a sum of each, 3 and 4, and a sum of both sums, 5; and its edits.
use crate::random::Random;
use dg_base::{Datum, Kind, Label, NodeId, NodeRef, Refusal, Step};
use dg_editor::Editor;
use dg_kinds_go::GoKinds;
use dg_line::{LineName, Link, Revision, SharedLine, Shown};
use std::alloc::{AllocError, Global};
use std::sync::Wait;

pub(crate) type Go = Revision<GoKinds>;

pub(crate) type GoEditor<J, R> = Editor<GoKinds, SharedLine<Go, J, R>>;

// Kinds: 1 Num, 2 Sum. Labels: 1 value, 2 terms, 4 total.
fn tree(alloc: Global) -> Result<Vec<Step>, AllocError> {
    let mut steps = Vec::new(alloc);
    for kind in [1, 1, 2, 2, 2] {
        steps.push(Step::Make { kind: Kind(kind) })?;
    }
    for (from, label, to) in [(0, 1, 2), (1, 1, 3), (2, 4, 4), (3, 4, 4)] {
        steps.push(Step::Connect {
            src: NodeRef::New(from),
            label: Label(label),
            node: NodeRef::New(to),
            input: Label(2),
        })?;
    }
    Ok(steps)
}

/// An editor whose first revision has the graph.
pub(crate) fn begin<J: LineName, R: Wait + Drop>(
    alloc: Global,
    line: SharedLine<Go, J, R>,
) -> Result<Option<GoEditor<J, R>>, AllocError> {
    let steps = tree(alloc)?;
    match Editor::open(alloc, line, &steps) {
        Ok((editor, _)) => Ok(Some(editor)),
        Err(Refusal::Because(_)) => Ok(None),
        Err(Refusal::NoMemory) => Err(AllocError),
    }
}

/// Sets a number.
pub(crate) fn set<J: LineName, R: Wait + Drop>(
    alloc: Global,
    editor: &mut GoEditor<J, R>,
    node: u32,
    value: i64,
) -> Result<Option<Link<Shown<Go, J>>>, AllocError> {
    let mut steps = Vec::new(alloc);
    steps.push(Step::Set {
        node: NodeRef::Id(NodeId(node)),
        label: Label(1),
        value: Datum::Dec(value),
    })?;
    match editor.transact(&steps) {
        Ok(commit) => Ok(Some(commit.link)),
        Err(Refusal::Because(_)) => Ok(None),
        Err(Refusal::NoMemory) => Err(AllocError),
    }
}

/// An undo, a redo, or one of the numbers set. None where there is nothing to undo or to redo.
pub(crate) fn advance<J: LineName, R: Wait + Drop>(
    alloc: Global,
    editor: &mut GoEditor<J, R>,
    random: &mut Random,
    value: i64,
) -> Result<Option<Link<Shown<Go, J>>>, AllocError> {
    let answer = match random.below(4) {
        0 => editor.undo(),
        1 => editor.redo(),
        _ => return set(alloc, editor, 1 + random.below(2), value),
    };
    match answer {
        Ok(link) => Ok(Some(link)),
        Err(Refusal::Because(_)) => Ok(None),
        Err(Refusal::NoMemory) => Err(AllocError),
    }
}
