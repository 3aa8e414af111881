//! Shares of all ledgers of a room.
ghost use Rattle.std.specs.Prelude.{◌≡◌, ◌+◌, ◌≤◌};
ghost use Rattle.dg_room.specs.Made.{none_made, plus, portion};
ghost use Rattle.dg_room.specs.Names.{act_parts};

use crate::names::{Acts, Evictions, Follows, Publications, RoomName};
use std::marker::Model;
use std::sync::ledger::Share;

/// A share of each ledger, of as many parts in publications as in evictions. Contracts see the parts, and what was
/// made on them.
#[derive(Drop)]
pub(crate) struct Shares<K: RoomName> {
    pub(crate) follows: Share<Acts<K, Follows>>,
    pub(crate) publications: Share<Acts<K, Publications>>,
    pub(crate) evictions: Share<Acts<K, Evictions>>,
}

impl<K: RoomName> Model for Shares<K> {
    ghost use Rattle.std.specs.Prelude.{◌≡◌};
    ghost use Rattle.dg_room.specs.Made.{Portion, portion_code};

    ghost Value = { Portion };

    ghost coded = { portion_code };

    ghost view = { λ s. record { follow_parts = s.follows.parts; parts = s.publications.parts; made = record { follows = s.follows.amount; publications = s.publications.amount; evictions = s.evictions.amount } } };

    ghost invariant = { λ s. s.evictions.parts ≡ s.publications.parts };
}

impl<K: RoomName> Shares<K> {
    /// Cuts off some parts, while nothing was made.
    pub(crate) fn split(&mut self, follow_parts: u64, parts: u64) -> Shares<K>
        requires follow_parts { follow_parts ≤ self.old.follow_parts }
        requires parts { parts ≤ self.old.parts }
        requires fresh { self.old.made ≡ none_made }
        ensures one { result ≡ portion follow_parts parts none_made }
        ensures follow_parts { self.new.follow_parts + follow_parts ≡ self.old.follow_parts }
        ensures parts { self.new.parts + parts ≡ self.old.parts }
        ensures made { self.new.made ≡ none_made }
    {
        Shares {
            follows: self.follows.split_off(follow_parts, 0),
            publications: self.publications.split_off(parts, 0),
            evictions: self.evictions.split_off(parts, 0),
        }
    }

    /// Both together, which are no more parts than there are.
    pub(crate) fn merge(&mut self, other: Shares<K>)
        ensures new { self.new ≡ portion (self.old.follow_parts + other.follow_parts) (self.old.parts + other.parts) (plus self.old.made other.made) }
        ensures follow_parts { self.new.follow_parts ≤ 1 }
        ensures parts { self.new.parts ≤ act_parts K.names.passes }
    {
        let Shares {
            follows,
            publications,
            evictions,
        } = other;
        self.follows.merge(follows);
        self.publications.merge(publications);
        self.evictions.merge(evictions);
    }
}
