//! The passes of a room.
ghost use Rattle.std.specs.Prelude.{◌≡◌, ◌≢◌, ◌+◌, ◌*◌, ◌<◌, ◌≤◌, IfOk, OnOk, length};
ghost use Rattle.dg_desk.specs.declared.event.TheConstants.{PASSES};
ghost use Rattle.dg_room.specs.Made.{AreFresh, none_made, passed, portion, sum_of};
ghost use Rattle.dg_room.specs.Names.{act_parts};

use crate::names::RoomName;
use crate::shares::Shares;
use std::alloc::{AllocError, Global};
use std::marker::Model;

/// What one thread calls a room with. Contracts see its number, and what was made with it, which begins with
/// nothing; only the calls of its room raise a count. Pass 0 alone follows.
#[derive(Drop)]
pub struct Pass<K: RoomName> {
    pub(crate) number: u32,
    pub(crate) shares: Shares<K>,
}

impl<K: RoomName> Model for Pass<K> {
    ghost use Rattle.dg_room.specs.Made.{IsPass, Passed, passed_code};

    ghost Value = { Passed };

    ghost coded = { passed_code };

    ghost view = { λ p. record { number = p.number; made = p.shares.made } };

    ghost invariant = { λ p. IsPass p.number p.shares };
}

impl<K: RoomName> Pass<K> {
    pub fn number(&self) -> u32
        ensures { result ≡ self.now.number }
    {
        self.number
    }
}

// Pass 0, cut from all parts.
fn first_pass<K: RoomName>(whole: &mut Shares<K>) -> Pass<K>
    requires follow_parts { whole.old.follow_parts ≡ 1 }
    requires parts { 1 ≤ whole.old.parts }
    requires fresh { whole.old.made ≡ none_made }
    ensures pass { result ≡ passed 0 none_made }
    ensures follow_parts { whole.new.follow_parts ≡ 0 }
    ensures parts { whole.new.parts + 1 ≡ whole.old.parts }
    ensures made { whole.new.made ≡ none_made }
{
    let shares = whole.split(1, 1);
    Pass { number: 0, shares }
}

// Another pass.
fn other_pass<K: RoomName>(whole: &mut Shares<K>, number: u32) -> Pass<K>
    requires first { number ≢ 0 }
    requires most { number < PASSES }
    requires parts { 2 ≤ whole.old.parts }
    requires fresh { whole.old.made ≡ none_made }
    ensures pass { result ≡ passed number none_made }
    ensures follow_parts { whole.new.follow_parts ≡ whole.old.follow_parts }
    ensures parts { whole.new.parts + 2 ≡ whole.old.parts }
    ensures made { whole.new.made ≡ none_made }
{
    let shares = whole.split(0, 2);
    Pass { number, shares }
}

/// Cuts shares of all parts into passes.
pub(crate) fn split_all<K: RoomName>(
    alloc: Global,
    whole: &mut Shares<K>,
    passes: u32,
) -> Result<Vec<Pass<K>>, AllocError>
    requires some { 0 < passes }
    requires most { passes ≤ PASSES }
    requires whole { whole.old ≡ portion 1 (act_parts passes) none_made }
    ensures fresh { IfOk result (λ all. AreFresh passes all.items) }
    ensures rest { OnOk result (whole.new ≡ portion 0 0 none_made) }
{
    let mut all = Vec::new(alloc);
    all.push(first_pass(whole))?;
    for number in 1..passes {
        all.push(other_pass(whole, number))?;
    }
    Ok(all)
}

/// Adds passes to shares of no part.
pub(crate) fn merge_all<K: RoomName>(mut all: Shares<K>, passes: Vec<Pass<K>>) -> Shares<K>
    requires { all ≡ portion 0 0 none_made }
    ensures parts { result.follow_parts + result.parts ≡ 2 * length passes.items }
    ensures most_follow { result.follow_parts ≤ 1 }
    ensures most { result.parts ≤ act_parts K.names.passes }
    ensures made { result.made ≡ sum_of passes.items }
{
    for pass in passes {
        let Pass { number: _, shares } = pass;
        all.merge(shares);
    }
    all
}
