//! The play of a script, command by command.
ghost use Rattle.std.specs.Prelude.{◌≡◌, ◌+◌, map, IfOk, OnOk};
ghost use Rattle.dg_kinds_coll.specs.Defold.{defold_tables};
ghost use Rattle.dg_play.specs.Play.{played, turn_of};
ghost use Rattle.dg_play.specs.Seen.{line_by, reply_by, state_by};
ghost use Rattle.dg_play.specs.Sessions.{Leaves, now_in};
ghost use Rattle.dg_play.specs.States.{IsPlayed};
ghost use Rattle.dg_play.specs.Work.{after_turn, worked_on};

use crate::asking::{alias, ask, build};
use crate::evicting::evict;
use crate::moving::{redo, undo};
use crate::pinning::{drop_name, pin};
use crate::reply::{Line, Reply};
use crate::session::Session;
use crate::state::State;
use crate::transaction::transaction;
use dg_base::Steps;
use dg_script::{Act, Command};
use std::alloc::{AllocError, Global};
use std::slice;
use std::sync::ledger::Ledger;

/// Plays the commands, one after the other, and answers what they print, in order. Linear in the commands, but for what
/// each of them costs in the session. Where memory is refused the state isn't used further.
pub fn play_commands<P: Session, L: Ledger>(
    alloc: Global,
    commands: &[Command],
    state: &mut State<P>,
    steps: &mut Steps<L>,
) -> Result<Vec<Line<P::Answer>>, AllocError>
    requires { IsPlayed P.is_ready P.shows state.old }
    ensures lines { IfOk result (λ ls. played defold_tables commands.now (state_by P.shows state.old) ≡ record { lines = map (line_by P.asked) ls.items; state = state_by P.shows state.new }) }
    ensures played { OnOk result (IsPlayed P.is_ready P.shows state.new) }
    ensures work { OnOk result (Leaves P.has_done state.old.session state.new.session (λ c w. worked_on defold_tables c commands.now (state_by P.shows state.old) w)) }
    ensures steps { OnOk result (steps.new + P.made state.old.session ≡ steps.old + P.made state.new.session) }
{
    let mut lines = Vec::new(alloc);
    for command in commands {
        let reply = turn(alloc, state, &command.act, steps)?;
        lines.push(Line {
            number: command.line,
            reply,
        })?;
    }
    Ok(lines)
}

/// Plays a command, and answers what it prints. Where memory is refused the state isn't used further.
fn turn<P: Session, L: Ledger>(
    alloc: Global,
    state: &mut State<P>,
    act: &Act,
    steps: &mut Steps<L>,
) -> Result<Reply<P::Answer>, AllocError>
    requires { IsPlayed P.is_ready P.shows state.old }
    ensures turn { IfOk result (λ r. turn_of defold_tables (state_by P.shows state.old) act.now ≡ record { state = state_by P.shows state.new; reply = reply_by P.asked r }) }
    ensures played { OnOk result (IsPlayed P.is_ready P.shows state.new) }
    ensures work { OnOk result (Leaves P.has_done state.old.session state.new.session
        (λ c w. after_turn defold_tables c (now_in (P.shows state.old.session)) act.now (turn_of defold_tables (state_by P.shows state.old) act.now) w)) }
    ensures steps { OnOk result (steps.new + P.made state.old.session ≡ steps.old + P.made state.new.session) }
{
    match act {
        Act::Step(step) => transaction(alloc, state, slice::from_ref(step)),
        Act::Block { steps: words } => transaction(alloc, state, words.as_slice()),
        Act::Undo => undo(state),
        Act::Redo => redo(state),
        Act::Pin { name } => pin(alloc, state, name.as_str()),
        Act::Drop { name } => Ok(drop_name(state, name.as_str())),
        Act::Ask { pin, at } => ask(alloc, state, pin, at, steps),
        Act::Alias { name, node } => alias(alloc, state, name.as_str(), node.as_str()),
        Act::Evict { most } => evict(state, *most),
        Act::Build { node } => build(alloc, state, node.as_str(), steps),
    }
}
