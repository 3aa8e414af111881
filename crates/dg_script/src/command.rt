//! What a script says.
use dg_base::{Datum, Kind, PType, Str};

/// The commands of a script, in their order. Contracts see the list.
pub type Script = sqlite_items::Items<Command>;

/// The steps of a block, in their order. Contracts see the list.
pub type BlockSteps = sqlite_items::Items<StepWords>;

/// A command and the number of its line, from 1. A block has the line of its `begin`.
#[derive(Debug, Drop)]
pub struct Command {
    pub line: u32,
    pub act: Act,
}

/// A property or output as a script names it: a node, and a schema label, or an open name where
/// `by_name` is true.
#[derive(Debug, Drop)]
pub struct EpWords {
    pub node: Str,
    pub by_name: bool,
    pub label: Str,
}

/// What a property is set to: a value, or the type and the text of an open one.
#[derive(Debug, Drop)]
pub enum SetWords {
    Plain(Datum),
    Named { ptype: PType, text: Str },
}

/// A step of a transaction. Names and nodes are as they were written.
#[derive(Debug, Drop)]
pub enum StepWords {
    Make { kind: Kind, name: Str },
    Override { name: Str, node: Str },
    Set { at: EpWords, value: SetWords },
    Clear { at: EpWords },
    Delete { node: Str },
    Defective { node: Str, on: bool },
    Connect { src: EpWords, dst: EpWords },
    Disconnect { src: EpWords, dst: EpWords },
}

/// What a command does. A step outside a block is a transaction of its own, a block is one of its
/// steps. `pin` is None for the current graph.
#[derive(Debug, Drop)]
pub enum Act {
    Step(StepWords),
    Block { steps: BlockSteps },
    Undo,
    Redo,
    Pin { name: Str },
    Drop { name: Str },
    Ask { pin: Option<Str>, at: EpWords },
    Build { node: Str },
    Alias { name: Str, node: Str },
    Evict { most: u32 },
}

/// Why a line is no command. Of those that fit a line the first in this order is given, but for
/// `Value`: a quoted word without an end, with another escape, or with something behind it that is no
/// blank stands before `Word`, and a word of another form than its place asks after `Arity`.
#[derive(Debug, Clone, Copy, PartialEq, Eq)]
pub enum ScriptCode {
    /// The line isn't UTF-8.
    Utf8,
    /// The line has over 65,536 bytes.
    TooLong,
    /// A word is of another form.
    Value,
    /// The first word is no command.
    Word,
    /// The command can't stand in a block.
    InBlock,
    /// An `end` stands outside a block.
    NoBlock,
    /// The number of words is wrong.
    Arity,
    /// The script ends inside the block that begins at this line.
    OpenBlock,
}

/// The first line of a script that is no command, from 1, and why. A line number above `u32::MAX` is
/// given as that.
#[derive(Debug, Clone, Copy, PartialEq, Eq)]
pub struct BadLine {
    pub line: u32,
    pub code: ScriptCode,
}
