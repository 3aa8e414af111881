//! The look-ups in the rows of a kind. Each goes along the rows once.
ghost use Rattle.std.specs.Prelude.{◌≡◌, map};
ghost use Rattle.std.specs.Option.{option_map};
ghost use Rattle.dg_rows.specs.Rows.{entry_at, role_of, args_of, preset_of, substitute_of};
ghost use Rattle.dg_rows.specs.Read.{plain_row, plain_entry};

use crate::row::{Entry, Rows, StaticEntry};
use dg_base::{ArgSpec, Datum, Label, Role};
use std::alloc::Global;

/// What a label is to the kind of these rows.
pub fn role_in(rows: Rows, label: Label) -> Role
    ensures { result ≡ role_of (entry_at (map plain_row rows.now) label) }
{
    match entry_at(rows, label) {
        Some(entry) => entry.role(),
        None => Role::Nothing,
    }
}

/// The arguments of an output; none for any other label.
pub fn args_in(rows: Rows, label: Label) -> &'static [ArgSpec]
    ensures { result.now ≡ args_of (entry_at (map plain_row rows.now) label) }
{
    match entry_at(rows, label) {
        Some(Entry::Output(_, args)) => args,
        Some(Entry::Cached(_, args)) => args,
        _ => &[],
    }
}

/// The default of a property; `Nil` for any other label.
pub fn preset_in(alloc: Global, rows: Rows, label: Label) -> Datum
    ensures { result ≡ preset_of (entry_at (map plain_row rows.now) label) }
{
    match entry_at(rows, label) {
        Some(Entry::Property(preset)) => preset.datum_of(alloc),
        _ => Datum::Nil,
    }
}

/// What stands in for a bad source of an input; `Nil` for a label that isn't such an input.
pub fn substitute_in(alloc: Global, rows: Rows, label: Label) -> Datum
    ensures { result ≡ substitute_of (entry_at (map plain_row rows.now) label) }
{
    match entry_at(rows, label) {
        Some(Entry::Substituted(preset)) => preset.datum_of(alloc),
        _ => Datum::Nil,
    }
}

fn entry_at(rows: Rows, label: Label) -> Option<&'static StaticEntry>
    ensures { option_map (λ e. plain_entry e.now) result ≡ entry_at (map plain_row rows.now) label }
{
    for row in rows {
        if label.0 == row.0.0 {
            return Some(&row.1);
        }
    }
    None
}
