//! What a text says.
use dg_base::Str;

/// The fields of a text or of a message, in order. Contracts see the list.
pub type Tree = sqlite_items::Items<Field>;

/// A field: its name, the line that the name stands on, counted from 1, and its value.
#[derive(Debug, Drop)]
#[cycle(tree)]
pub struct Field {
    pub name: Str,
    pub line: u32,
    pub value: Value,
}

/// What a field has: a bare word as it stands there, the text of one string or of several joined, or the fields of a
/// message.
#[derive(Debug, Drop)]
#[cycle(tree)]
pub enum Value {
    Bare(Str),
    Quoted(Str),
    Message(Tree),
}
