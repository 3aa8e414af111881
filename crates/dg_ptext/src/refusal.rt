//! Why a text is not read.

/// Why a text is not read. Lines are counted from 1; one past the greatest `u32` counts as that.
#[derive(Debug, Clone, Copy, PartialEq, Eq)]
pub enum TextCode {
    /// The bytes are not UTF-8.
    Utf8,
    /// The token on this line can't stand where it stands, or is none.
    Token { line: u32 },
    /// The brace on this line opens a message inside 64 open ones.
    Nesting { line: u32 },
    /// The text ends in a message whose brace is on this line.
    Unclosed { line: u32 },
}
