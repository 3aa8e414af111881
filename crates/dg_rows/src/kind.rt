//! The kinds of a schema, and the look-ups of a kind. Each goes along the kinds once.
ghost use Rattle.std.specs.Prelude.{◌≡◌, map};
ghost use Rattle.dg_rows.specs.Rows.{kind_at, rows_in, labels_in, is_open_in};
ghost use Rattle.std.specs.Option.{option_map};
ghost use Rattle.dg_rows.specs.Read.{plain_row, plain_kind};

use crate::row::Rows;
use dg_base::{Kind, Label};

/// A kind: whether its nodes have open properties, its labels in order, and the rows of just these.
#[derive(Clone, Copy, Debug)]
pub struct KindRows<L, R> {
    pub kind: Kind,
    pub is_open: bool,
    pub labels: L,
    pub rows: R,
}

/// A kind as a schema's code has it.
pub type StaticKind = KindRows<&'static [Label], Rows>;

/// The kinds of a schema.
pub type Kinds = &'static [StaticKind];

/// The rows of a kind; none for a number that isn't a kind's.
pub fn rows_in(kinds: Kinds, kind: Kind) -> Rows
    ensures { map plain_row result.now ≡ rows_in (map plain_kind kinds.now) kind }
{
    let Some(found) = kind_at(kinds, kind) else {
        return &[];
    };
    found.rows
}

/// The labels of a kind; none for a number that isn't a kind's.
pub fn labels_in(kinds: Kinds, kind: Kind) -> &'static [Label]
    ensures { result.now ≡ labels_in (map plain_kind kinds.now) kind }
{
    let Some(found) = kind_at(kinds, kind) else {
        return &[];
    };
    found.labels
}

/// Whether the nodes of a kind have open properties.
pub fn is_open_in(kinds: Kinds, kind: Kind) -> bool
    ensures { result ≡ is_open_in (map plain_kind kinds.now) kind }
{
    match kind_at(kinds, kind) {
        Some(found) => found.is_open,
        None => false,
    }
}

fn kind_at(kinds: Kinds, kind: Kind) -> Option<&'static StaticKind>
    ensures { option_map (λ k. plain_kind k.now) result ≡ kind_at (map plain_kind kinds.now) kind }
{
    for one in kinds {
        if kind.0 == one.kind.0 {
            return Some(one);
        }
    }
    None
}
