//! What a run does that isn't ended before.
ghost use Rattle.std.specs.Prelude.{◌≡◌, true};
ghost use Rattle.dg_tool.specs.Halts.{is_end};

use crate::piece::Pieces;
use crate::status::Status;
use dg_base::Names;

/// All that a run does that isn't ended before: its lines, each with what is written before it, and the names that the files
/// go by; the status that it ends with; and the desk of one that played a script.
#[derive(Drop)]
pub struct Output<D> {
    pub status: Status,
    pub pieces: Pieces,
    pub names: Names,
    pub desk: Option<D>,
    ghost end: { is_end status desk ≡ true },
}
