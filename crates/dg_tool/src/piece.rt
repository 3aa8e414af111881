//! What is printed of a command, with what it writes.
ghost use Rattle.std.specs.Prelude.{◌≡◌};
ghost use Rattle.dg_tool.specs.Seen.{plain};

use dg_asks::Answered;
use dg_files::Bytes;

/// A line, and the answer whose build files are written before it, where there is one.
#[derive(Drop)]
pub struct Piece {
    pub built: Option<Answered>,
    pub line: Bytes,
}

/// Pieces in order.
pub type Pieces = Vec<Piece>;

impl Piece {
    /// A line before which nothing is written.
    pub(crate) fn plain(line: Bytes) -> Piece
        ensures { result ≡ plain line }
    {
        Piece { built: None, line }
    }
}
