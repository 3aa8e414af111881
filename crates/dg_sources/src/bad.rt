//! Why a text of a project isn't read, and where.
use dg_base::Str;

/// What is wrong at a place of a project.
#[derive(Clone, Copy, PartialEq, Eq, Debug)]
pub enum BadCode {
    /// A file that was listed is no longer there.
    Gone,
    /// The bytes of a file aren't UTF-8.
    Utf8,
    /// A token can't stand where it stands, or is none.
    Token,
    /// A message is inside 64 open ones.
    Nesting,
    /// The text ends inside a message.
    Unclosed,
    /// A required field isn't there.
    Missing,
    /// A field has a value of another form.
    Form,
    /// What is named isn't there.
    Absent,
    /// The text of a game object in a collection can't be read.
    Data,
    /// A collection is named inside itself.
    Recursive,
}

/// A bad place: the path of its file, its line, and what is wrong there. Lines are counted from 1; what is wrong with a
/// whole file has line 0.
#[derive(Debug, Drop)]
pub struct BadPlace {
    pub path: Str,
    pub line: u32,
    pub code: BadCode,
}

/// Why a text isn't read, with the line of the first place that decides.
#[derive(Clone, Copy, PartialEq, Eq, Debug)]
pub struct Unread {
    pub line: u32,
    pub code: BadCode,
}
