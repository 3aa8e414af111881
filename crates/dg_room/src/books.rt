//! The books of all ledgers of a room.
ghost use Rattle.std.specs.Prelude.{◌≡◌, ◌<◌};
ghost use Rattle.dg_room.specs.Made.{none_made, portion, with_eviction, with_follow, with_publication};
ghost use Rattle.dg_room.specs.Names.{AreNamed, act_parts};

use crate::names::{Acts, Blanks, Evictions, Follows, Publications, RoomName};
use crate::shares::Shares;
use std::marker::Model;
use std::sync::ledger::Book;

/// The book of each ledger. Contracts see what was made on all shares together.
#[derive(Drop)]
pub(crate) struct Books<K: RoomName> {
    follows: Book<Acts<K, Follows>>,
    publications: Book<Acts<K, Publications>>,
    evictions: Book<Acts<K, Evictions>>,
}

impl<K: RoomName> Model for Books<K> {
    ghost use Rattle.dg_room.specs.Made.{Made, made_code};

    ghost Value = { Made };

    ghost coded = { made_code };

    ghost view = { λ b. record { follows = b.follows.total; publications = b.publications.total; evictions = b.evictions.total } };
}

impl<K: RoomName> Books<K> {
    /// New books, and shares of all parts.
    pub(crate) fn open(blanks: Blanks) -> (Books<K>, Shares<K>)
        requires { AreNamed K.names blanks }
        ensures books { result.0 ≡ none_made }
        ensures shares { result.1 ≡ portion 1 (act_parts K.names.passes) none_made }
    {
        let Blanks {
            follows,
            publications,
            evictions,
        } = blanks;
        let (follows, follow_share) = follows.open::<Acts<K, Follows>>();
        let (publications, publication_share) = publications.open::<Acts<K, Publications>>();
        let (evictions, eviction_share) = evictions.open::<Acts<K, Evictions>>();
        (
            Books {
                follows,
                publications,
                evictions,
            },
            Shares {
                follows: follow_share,
                publications: publication_share,
                evictions: eviction_share,
            },
        )
    }

    pub(crate) fn follow(&mut self, shares: &mut Shares<K>)
        requires { 0 < shares.old.follow_parts }
        ensures books { self.new ≡ with_follow self.old }
        ensures shares { shares.new ≡ portion shares.old.follow_parts shares.old.parts (with_follow shares.old.made) }
    {
        self.follows.add(&mut shares.follows, 1);
    }

    pub(crate) fn publish(&mut self, shares: &mut Shares<K>)
        requires { 0 < shares.old.parts }
        ensures books { self.new ≡ with_publication self.old }
        ensures shares { shares.new ≡ portion shares.old.follow_parts shares.old.parts (with_publication shares.old.made) }
    {
        self.publications.add(&mut shares.publications, 1);
    }

    pub(crate) fn evict(&mut self, shares: &mut Shares<K>)
        requires { 0 < shares.old.parts }
        ensures books { self.new ≡ with_eviction self.old }
        ensures shares { shares.new ≡ portion shares.old.follow_parts shares.old.parts (with_eviction shares.old.made) }
    {
        self.evictions.add(&mut shares.evictions, 1);
    }

    /// A share with the one part of follows has as many as the book, for proofs.
    pub(crate) fn audit_follows(&mut self, shares: &mut Shares<K>)
        requires { shares.old.follow_parts ≡ 1 }
        ensures total { shares.old.made.follows ≡ self.old.follows }
        ensures books { self.new ≡ self.old }
        ensures shares { shares.new ≡ shares.old }
    {
        self.follows.audit(&mut shares.follows);
    }

    /// Shares of all parts have what the books have, for proofs.
    pub(crate) fn audit(&mut self, all: &mut Shares<K>)
        requires follow_parts { all.old.follow_parts ≡ 1 }
        requires parts { all.old.parts ≡ act_parts K.names.passes }
        ensures { all.old.made ≡ self.old }
    {
        self.follows.audit(&mut all.follows);
        self.publications.audit(&mut all.publications);
        self.evictions.audit(&mut all.evictions);
    }
}
