//! Why a tree is no such file.
use crate::known::FieldName;

/// Why a tree is no such file.
#[derive(Debug, Clone, Copy, PartialEq, Eq)]
pub enum DescCode {
    /// A required field isn't there. The line is that of the message's own field, and 1 for the whole text.
    Missing { line: u32, field: FieldName },
    /// The field on this line has a value of another form. A field that is none of those which a position, a rotation
    /// or a scale may have has no name here.
    Form { line: u32, field: Option<FieldName> },
}
