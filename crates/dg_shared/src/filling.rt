//! The lines take their answers.
ghost use Rattle.std.specs.Prelude.{◌≡◌, ◌++◌, List, map, IfOk};
ghost use Rattle.std.specs.Vec.Iter.{into_iter_items};
ghost use Rattle.dg_asks.specs.Asks.{Ask};
ghost use Rattle.dg_play.specs.Desk.{answer_in, answers_in};
ghost use Rattle.dg_play.specs.Seen.{line_of, reply_of};

use dg_asks::Answered;
use dg_caller::Awaited;
use dg_play::{Line, Reply};
use std::alloc::{AllocError, Global};
use std::vec::IntoIter;

/// The same lines, each with the next answer where it waits for one. Linear in the lines.
pub(crate) fn filled(
    alloc: Global,
    lines: Vec<Line<Awaited>>,
    answers: Vec<Answered>,
) -> Result<Vec<Line<Answered>>, AllocError>
    requires { answers.items ≡ answers_in (map line_of lines.items) }
    ensures { IfOk result (λ ls. ls.items ≡ lines.items) }
{
    let mut answers = answers.into_iter();
    let mut filled = Vec::with_capacity(alloc, lines.len())?;
    for line in lines {
        let Line { number, reply } = line;
        let reply = fill(reply, &mut answers)?;
        filled.push(Line { number, reply })?;
    }
    Ok(filled)
}

// A reply, with the next answer where it waits for one.
fn fill(
    reply: Reply<Awaited>,
    answers: &mut IntoIter<Answered>,
) -> Result<Reply<Answered>, AllocError>
    ensures reply { IfOk result (λ r. (rest : List Ask) → into_iter_items answers.old ≡ answer_in (reply_of reply) ++ rest → r ≡ reply) }
    ensures answers { (rest : List Ask) → into_iter_items answers.old ≡ answer_in (reply_of reply) ++ rest → into_iter_items answers.new ≡ rest }
{
    Ok(match reply {
        Reply::Done => Reply::Done,
        Reply::Empty => Reply::Empty,
        Reply::LineFull => Reply::LineFull,
        Reply::NothingToUndo => Reply::NothingToUndo,
        Reply::NothingToRedo => Reply::NothingToRedo,
        Reply::NoName => Reply::NoName,
        Reply::NoLabel => Reply::NoLabel,
        Reply::Misses { step, missing } => Reply::Misses { step, missing },
        Reply::Refused { step, code } => Reply::Refused { step, code },
        Reply::PinUsed => Reply::PinUsed,
        Reply::PinsFull => Reply::PinsFull,
        Reply::PinnedAt { number } => Reply::PinnedAt { number },
        Reply::NoPin => Reply::NoPin,
        Reply::Answers(_) => Reply::Answers(answers.next().ok_or(AllocError)?),
        Reply::Builds(_) => Reply::Builds(answers.next().ok_or(AllocError)?),
    })
}
