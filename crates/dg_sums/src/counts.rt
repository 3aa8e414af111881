//! How many commands were done, and what was answered.
ghost use Rattle.std.specs.Prelude.{◌≡◌, map};
ghost use Rattle.dg_kinds_coll.specs.Defold.{defold_tables};
ghost use Rattle.dg_play.specs.Seen.{line_of, reply_of};
ghost use Rattle.dg_sums.specs.Counts.{answers_in, asks_in, deeds_in, is_answered, is_ask, is_deed, is_done, is_of, is_outcome};

use dg_asks::Answered;
use dg_base::Answer;
use dg_play::{Line, Reply};
use dg_script::{Act, Command};

/// A sort of commands that change the project.
#[derive(Clone, Copy, Debug, PartialEq, Eq)]
pub(crate) enum Deed {
    Transaction,
    Undo,
    Redo,
}

/// A sort of answers: a value, faults, or that what is asked for depends on itself.
#[derive(Clone, Copy, Debug, PartialEq, Eq)]
pub(crate) enum Outcome {
    Good,
    Bad,
    Cycle,
}

/// How many commands of this sort were done. Each command has one line, in the same order.
pub(crate) fn deeds_in(deed: Deed, commands: &[Command], lines: &[Line<Answered>]) -> usize
    ensures { result ≡ deeds_in deed commands.now (map line_of lines.now) }
{
    let mut count = 0;
    let mut place = 0;
    while place < commands.len() && place < lines.len() {
        if is_deed(deed, &commands[place], &lines[place]) {
            count += 1;
        }
        place += 1;
    }
    count
}

fn is_deed(deed: Deed, command: &Command, line: &Line<Answered>) -> bool
    ensures { result ≡ is_deed deed (command.now, line_of line.now) }
{
    is_of(deed, &command.act) && is_done(&line.reply)
}

fn is_of(deed: Deed, act: &Act) -> bool
    ensures { result ≡ is_of deed act.now }
{
    match (deed, act) {
        (Deed::Transaction, Act::Step(_) | Act::Block { .. }) => true,
        (Deed::Undo, Act::Undo) => true,
        (Deed::Redo, Act::Redo) => true,
        _ => false,
    }
}

fn is_done(reply: &Reply<Answered>) -> bool
    ensures { result ≡ is_done (reply_of reply.now) }
{
    match reply {
        Reply::Done => true,
        _ => false,
    }
}

/// How many commands are questions.
pub(crate) fn asks_in(commands: &[Command]) -> usize
    ensures { result ≡ asks_in commands.now }
{
    let mut count = 0;
    for command in commands {
        if is_ask(&command.act) {
            count += 1;
        }
    }
    count
}

fn is_ask(act: &Act) -> bool
    ensures { result ≡ is_ask act.now }
{
    match act {
        Act::Ask { .. } => true,
        _ => false,
    }
}

/// How many questions have an answer of this sort.
pub(crate) fn answers_in(outcome: Outcome, lines: &[Line<Answered>]) -> usize
    ensures { result ≡ answers_in defold_tables outcome (map line_of lines.now) }
{
    let mut count = 0;
    for line in lines {
        if is_answered(outcome, &line.reply) {
            count += 1;
        }
    }
    count
}

fn is_answered(outcome: Outcome, reply: &Reply<Answered>) -> bool
    ensures { result ≡ is_answered defold_tables outcome (reply_of reply.now) }
{
    match reply {
        Reply::Answers(answered) => is_outcome(outcome, answered.value().answer()),
        _ => false,
    }
}

fn is_outcome(outcome: Outcome, answer: &Answer) -> bool
    ensures { result ≡ is_outcome outcome answer.now }
{
    match (outcome, answer) {
        (Outcome::Good, Answer::Good(_)) => true,
        (Outcome::Bad, Answer::Bad(_)) => true,
        (Outcome::Cycle, Answer::Cycle) => true,
        _ => false,
    }
}
