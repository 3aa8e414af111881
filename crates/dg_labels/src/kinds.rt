//! The kinds of nodes, each with its number and its name.
ghost use Rattle.std.specs.Prelude.{◌≡◌, ℕ, List, Some};
ghost use Rattle.dg_base.specs.declared.ids.Kind.{Kind};
ghost use Rattle.dg_labels.specs.Kinds.{name_of_kind, kind_named};

use crate::names::named_in;
use dg_base::Kind;

pub const NUM: Kind = Kind(1);

pub const SUM: Kind = Kind(2);

pub const TEXT: Kind = Kind(3);

pub const JOIN: Kind = Kind(4);

pub const RESOURCE_FILE: Kind = Kind(5);

pub const SCRIPT_FILE: Kind = Kind(6);

pub const GAME_OBJECT: Kind = Kind(7);

pub const COMPONENT_REF: Kind = Kind(8);

pub const COMPONENT_EMBEDDED: Kind = Kind(9);

pub const GO_INSTANCE: Kind = Kind(10);

pub const COLL_INSTANCE: Kind = Kind(11);

pub const COLLECTION: Kind = Kind(12);

/// The names of the kinds.
pub static KINDS: [(Kind, &'static str); 12] = [
    (NUM, "Num"),
    (SUM, "Sum"),
    (TEXT, "Text"),
    (JOIN, "Join"),
    (RESOURCE_FILE, "ResourceFile"),
    (SCRIPT_FILE, "ScriptFile"),
    (GAME_OBJECT, "GameObject"),
    (COMPONENT_REF, "ComponentRef"),
    (COMPONENT_EMBEDDED, "ComponentEmbedded"),
    (GO_INSTANCE, "GoInstance"),
    (COLL_INSTANCE, "CollInstance"),
    (COLLECTION, "Collection"),
];

/// The kind of a name, where there is one.
pub fn kind_named(name: &str) -> Option<Kind>
    ensures { result ≡ kind_named name.now }
{
    named_in(&KINDS, name)
}

/// Names and kinds belong together: a name's kind has that name, and a kind's name has that kind.
pub fn kinds_agree()
    ensures name { (text : List ℕ) (kind : Kind) → kind_named text ≡ Some kind → name_of_kind kind ≡ Some text }
    ensures kind { (text : List ℕ) (kind : Kind) → name_of_kind kind ≡ Some text → kind_named text ≡ Some kind }
{}
