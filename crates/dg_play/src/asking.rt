//! Questions of a script.
ghost use Rattle.std.specs.Prelude.{◌≡◌, ◌+◌, is_some, true, Some, IfErr, IfOk, OnOk};
ghost use Rattle.std.specs.Option.{option_copied};
ghost use Rattle.dg_asks.specs.Asks.{Ask};
ghost use Rattle.dg_bind.specs.Question.{node_of_question};
ghost use Rattle.dg_kinds_coll.specs.Defold.{defold_tables};
ghost use Rattle.dg_line.specs.Revisions.{Seen};
ghost use Rattle.dg_play.specs.Play.{alias, ask, ask_at, asked, built, graph_now, unchanged};
ghost use Rattle.dg_play.specs.Seen.{reply_by, state_by};
ghost use Rattle.dg_play.specs.Sessions.{Leaves, now_in, revision_at};
ghost use Rattle.dg_play.specs.States.{IsPlayed, IsSilent, endpoint_reply};
ghost use Rattle.dg_play.specs.Work.{after_reply};

use crate::pins::number_named;
use crate::reply::Reply;
use crate::session::Session;
use crate::state::State;
use dg_base::{Endpoint, Label, NodeId, Steps, Str};
use dg_bind::{label_of_question, node_of_question};
use dg_kinds_coll::Defold;
use dg_labels::labels;
use dg_line::Revision;
use dg_script::EpWords;
use std::alloc::{AllocError, Global};
use std::sync::ledger::Ledger;

/// A question at a pin, or at the current revision.
pub(crate) fn ask<P: Session, L: Ledger>(
    alloc: Global,
    state: &mut State<P>,
    pin: &Option<Str>,
    at: &EpWords,
    steps: &mut Steps<L>,
) -> Result<Reply<P::Answer>, AllocError>
    requires { IsPlayed P.is_ready P.shows state.old }
    ensures turn { IfOk result (λ r. unchanged (state_by P.shows state.old) (ask (state_by P.shows state.old) pin.now at.now) ≡ record { state = state_by P.shows state.new; reply = reply_by P.asked r }) }
    ensures played { OnOk result (IsPlayed P.is_ready P.shows state.new) }
    ensures work { IfOk result (λ r. Leaves P.has_done state.old.session state.new.session (λ c w. after_reply defold_tables c (now_in (P.shows state.old.session)) (reply_by P.asked r) w)) }
    ensures steps { OnOk result (steps.new + P.made state.old.session ≡ steps.old + P.made state.new.session) }
{
    match pin {
        None => ask_number(alloc, state, None, at, steps),
        Some(name) => match number_named(state.pins.as_slice(), name.as_str()) {
            None => Ok(Reply::NoPin),
            Some(number) => ask_number(alloc, state, Some(number), at, steps),
        },
    }
}

// A question at the revision of a number, or at the current one.
fn ask_number<P: Session, L: Ledger>(
    alloc: Global,
    state: &mut State<P>,
    number: Option<u32>,
    at: &EpWords,
    steps: &mut Steps<L>,
) -> Result<Reply<P::Answer>, AllocError>
    requires { IsPlayed P.is_ready P.shows state.old }
    ensures turn { IfOk result
        (λ r. unchanged (state_by P.shows state.old) (ask_at (state_by P.shows state.old) at.now (revision_at (P.shows state.old.session) number)) ≡ record { state = state_by P.shows state.new; reply = reply_by P.asked r }) }
    ensures played { OnOk result (IsPlayed P.is_ready P.shows state.new) }
    ensures work { IfOk result (λ r. Leaves P.has_done state.old.session state.new.session (λ c w. after_reply defold_tables c (now_in (P.shows state.old.session)) (reply_by P.asked r) w)) }
    ensures steps { OnOk result (steps.new + P.made state.old.session ≡ steps.old + P.made state.new.session) }
{
    match endpoint_asked(alloc, state, number, at)? {
        Ok(endpoint) => Ok(Reply::Answers(state.session.ask(number, endpoint, steps)?)),
        Err(reply) => Ok(reply),
    }
}

// The endpoint that is asked for at a revision, or what is said where there is none.
fn endpoint_asked<P: Session>(
    alloc: Global,
    state: &State<P>,
    number: Option<u32>,
    at: &EpWords,
) -> Result<Result<Endpoint, Reply<P::Answer>>, AllocError>
    ensures reply { IfOk result (λ x. ask_at (state_by P.shows state.now) at.now (revision_at (P.shows state.now.session) number) ≡ endpoint_reply P.asked (revision_at (P.shows state.now.session) number) x) }
    ensures live { IfOk result (λ x. IfOk x (λ e. is_some (revision_at (P.shows state.now.session) number) ≡ true)) }
    ensures silent { IfOk result (λ x. IfErr x IsSilent) }
{
    let Some(revision) = revision_at(&state.session, number) else {
        return Ok(Err(Reply::NoPin));
    };
    let node = node_of_question(alloc, revision.graph(), &state.bound, at.node.as_str())?;
    let label = label_of_question(&state.names, at);
    Ok(endpoint_of(node, label))
}

fn revision_at<P: Session>(session: &P, number: Option<u32>) -> Option<&Revision<Defold>>
    ensures { option_copied result ≡ revision_at (P.shows session.now) number }
{
    match number {
        None => Some(session.now()),
        Some(number) => session.pinned(number),
    }
}

fn endpoint_of<A>(node: Option<NodeId>, label: Option<Label>) -> Result<Endpoint, Reply<A>>
    ensures reply { (seen : A → Ask) (r : Seen) → asked r node label ≡ endpoint_reply seen (Some r) result }
    ensures silent { IfErr result IsSilent }
{
    match (node, label) {
        (None, _) => Err(Reply::NoName),
        (Some(_), None) => Err(Reply::NoLabel),
        (Some(node), Some(label)) => Ok(Endpoint { node, label }),
    }
}

/// The build of a node at the current revision.
pub(crate) fn build<P: Session, L: Ledger>(
    alloc: Global,
    state: &mut State<P>,
    node: &str,
    steps: &mut Steps<L>,
) -> Result<Reply<P::Answer>, AllocError>
    requires { IsPlayed P.is_ready P.shows state.old }
    ensures turn { IfOk result
        (λ r. unchanged (state_by P.shows state.old) (built (now_in (P.shows state.old.session)) (node_of_question (graph_now (state_by P.shows state.old)) state.old.bound node.now)) ≡ record { state = state_by P.shows state.new; reply = reply_by P.asked r }) }
    ensures played { OnOk result (IsPlayed P.is_ready P.shows state.new) }
    ensures work { IfOk result (λ r. Leaves P.has_done state.old.session state.new.session (λ c w. after_reply defold_tables c (now_in (P.shows state.old.session)) (reply_by P.asked r) w)) }
    ensures steps { OnOk result (steps.new + P.made state.old.session ≡ steps.old + P.made state.new.session) }
{
    match node_of_question(alloc, state.session.now().graph(), &state.bound, node)? {
        Some(node) => {
            let endpoint = Endpoint {
                node,
                label: labels::BUILD,
            };
            Ok(Reply::Builds(state.session.ask(None, endpoint, steps)?))
        }
        None => Ok(Reply::NoName),
    }
}

/// One more name for a node.
pub(crate) fn alias<P: Session>(
    alloc: Global,
    state: &mut State<P>,
    name: &str,
    node: &str,
) -> Result<Reply<P::Answer>, AllocError>
    requires { IsPlayed P.is_ready P.shows state.old }
    ensures turn { IfOk result
        (λ r. alias (state_by P.shows state.old) name.now (node_of_question (graph_now (state_by P.shows state.old)) state.old.bound node.now) ≡ record { state = state_by P.shows state.new; reply = reply_by P.asked r }) }
    ensures played { OnOk result (IsPlayed P.is_ready P.shows state.new) }
    ensures session { OnOk result (state.new.session ≡ state.old.session) }
{
    match node_of_question(alloc, state.session.now().graph(), &state.bound, node)? {
        Some(node) => {
            state.bound.bind(name, node)?;
            Ok(Reply::Done)
        }
        None => Ok(Reply::NoName),
    }
}
