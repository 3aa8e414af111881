//! A declaration.
use dg_base::{PType, Str};

/// A property that a script declares: its id, its type, and the text of the value that it has where none is set. A
/// decimal's text is as it stands in the script, a vector's its decimals joined by `, `, and that of a hash or an
/// address what stands between the quotes.
#[derive(Debug, Drop)]
pub struct Declaration {
    pub id: Str,
    pub ptype: PType,
    pub text: Str,
}
