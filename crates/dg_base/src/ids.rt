//! Ids: of nodes, of labels, of kinds, and what is made of them.
ghost use Rattle.std.specs.Prelude.{◌≡◌};
ghost use Rattle.dg_base.specs.Rule.{is_open_label};

/// The number of a node, from 1. It is never used again, also not after an undo.
#[derive(Clone, Copy, PartialEq, Eq, PartialOrd, Ord, Hash, Debug)]
pub struct NodeId(pub u32);

/// The number of a property, output, input or record field. Labels below 1,024 belong to the
/// schema; a label from 1,024 upward is the interned name of an open property.
#[derive(Clone, Copy, PartialEq, Eq, PartialOrd, Ord, Hash, Debug)]
pub struct Label(pub u64);

/// The first label that is the name of an open property.
pub const FIRST_OPEN: u64 = 1024;

impl Label {
    /// Whether the label is the name of an open property, and not one of the schema.
    pub fn is_open(self) -> bool
        ensures { result ≡ is_open_label self }
    {
        self.0 >= FIRST_OPEN
    }
}

/// The number of a kind of nodes.
#[derive(Clone, Copy, PartialEq, Eq, PartialOrd, Ord, Hash, Debug)]
pub struct Kind(pub u16);

/// What can be asked for: a property or an output of a node. Ordered by node, then by label.
#[derive(Clone, Copy, PartialEq, Eq, PartialOrd, Ord, Hash, Debug)]
pub struct Endpoint {
    pub node: NodeId,
    pub label: Label,
}

/// An arc from an endpoint to an input of a node.
#[derive(Clone, Copy, PartialEq, Eq, PartialOrd, Ord, Hash, Debug)]
pub struct ArcRec {
    pub src: Endpoint,
    pub node: NodeId,
    pub input: Label,
}
