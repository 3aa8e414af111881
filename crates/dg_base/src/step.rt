//! Steps of a transaction.
use crate::{Datum, Kind, Label, NodeId};
use sqlite_items::Boxed;

/// Names a node within a transaction: by its id, as the node that the k-th of its making steps
/// made, counted from 0, or as the override node of `original` in the override of `root`.
#[derive(Debug, Drop)]
pub enum NodeRef {
    Id(NodeId),
    New(u32),
    In {
        root: Boxed<NodeRef>,
        original: Boxed<NodeRef>,
    },
}

/// One step of a transaction.
#[derive(Debug, Drop)]
pub enum Step {
    Make {
        kind: Kind,
    },
    Override {
        root: NodeRef,
    },
    Set {
        node: NodeRef,
        label: Label,
        value: Datum,
    },
    Clear {
        node: NodeRef,
        label: Label,
    },
    Connect {
        src: NodeRef,
        label: Label,
        node: NodeRef,
        input: Label,
    },
    Disconnect {
        src: NodeRef,
        label: Label,
        node: NodeRef,
        input: Label,
    },
    Delete {
        node: NodeRef,
    },
    Mark {
        node: NodeRef,
        defective: bool,
    },
}

/// Why a step is refused. A limit stands first where it is met, then what the step names.
#[derive(Clone, Copy, PartialEq, Eq, Debug)]
pub enum TxCode {
    TooManyNodes,
    TooManyArcs,
    NoNode,
    NotProperty,
    ValueType,
    NotOutput,
    NotInput,
    ArcType,
    NoArc,
}

/// The first step of a transaction that can't be done, counted from 1, and why.
#[derive(Clone, Copy, PartialEq, Eq, Debug)]
pub struct RefusedStep {
    pub step: u32,
    pub code: TxCode,
}
