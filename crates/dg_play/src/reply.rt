//! What a command prints.
ghost use Rattle.std.specs.Prelude.{◌≡◌};
ghost use Rattle.dg_play.specs.Play.{refusal_reply};
ghost use Rattle.dg_asks.specs.Asks.{Ask};
ghost use Rattle.dg_play.specs.Seen.{reply_by};

use dg_base::TxCode;
use dg_bind::Missing;
use dg_editor::EditCause;

/// What a command prints: a text that is known at once, the answer that was asked for, or what the answer that was
/// built comes to. It holds what the session gives for an answer.
#[derive(Drop)]
pub enum Reply<A> {
    Done,
    Empty,
    LineFull,
    NothingToUndo,
    NothingToRedo,
    NoName,
    NoLabel,
    /// A step, counted from 1, names what isn't there.
    Misses { step: u32, missing: Missing },
    /// A step, counted from 1, can't be done.
    Refused { step: u32, code: TxCode },
    PinUsed,
    PinsFull,
    /// A pin is at the revision with this number.
    PinnedAt { number: u32 },
    NoPin,
    Answers(A),
    Builds(A),
}

/// A command's line in the script, with what the command prints.
#[derive(Drop)]
pub struct Line<A> {
    pub number: u32,
    pub reply: Reply<A>,
}

/// What is printed of a call that the editor refuses.
pub(crate) fn refusal_reply<A>(cause: EditCause) -> Reply<A>
    ensures { (asked : A → Ask) → reply_by asked result ≡ refusal_reply cause }
{
    match cause {
        EditCause::Empty => Reply::Empty,
        EditCause::LineFull => Reply::LineFull,
        EditCause::NothingToUndo => Reply::NothingToUndo,
        EditCause::NothingToRedo => Reply::NothingToRedo,
        EditCause::Refused(refused) => Reply::Refused {
            step: refused.step,
            code: refused.code,
        },
    }
}
