//! The schema.
ghost use Rattle.std.specs.Prelude.{◌≡◌, Bool, map, IfOk};
ghost use Rattle.dg_rows.specs.Rows.{kind_at};
ghost use Rattle.dg_rows.specs.Read.{plain_kind};
ghost use Rattle.dg_kinds_go.specs.Go.{is_output_of};
ghost use Rattle.dg_kinds_coll.specs.Kinds.{defold_kinds, is_coll_kind};
ghost use Rattle.dg_kinds_coll.specs.Defold.{defold_made};

use crate::collections::{coll_build, coll_flat};
use crate::instances::{coll_instance, go_instance};
use crate::table::COLL_KINDS;
use dg_base::{ArgSpec, ArgVal, Datum, Kind, Label, Made, Role, Schema, Steps};
use dg_kinds_go::{GO_KINDS, go_made};
use dg_labels::{kinds, labels};
use dg_rows::{Kinds, args_in, is_open_in, labels_in, preset_in, role_in, rows_in, substitute_in};
use std::alloc::{AllocError, Global};
use std::sync::ledger::Ledger;

/// The schema of all kinds, from Num to Collection.
pub struct Defold;

impl Schema for Defold {
    ghost use Rattle.dg_kinds_coll.specs.Defold.{defold_tables, defold_laws};

    ghost tables = { defold_tables };

    ghost laws = { defold_laws };

    fn labels(kind: Kind) -> &'static [Label] {
        labels_in(kinds_with(kind), kind)
    }

    fn role(kind: Kind, label: Label) -> Role {
        role_in(rows_in(kinds_with(kind), kind), label)
    }

    fn is_open(kind: Kind) -> bool {
        is_open_in(kinds_with(kind), kind)
    }

    fn args(kind: Kind, label: Label) -> &'static [ArgSpec] {
        args_in(rows_in(kinds_with(kind), kind), label)
    }

    fn default(alloc: Global, kind: Kind, label: Label) -> Result<Datum, AllocError> {
        Ok(preset_in(alloc, rows_in(kinds_with(kind), kind), label))
    }

    fn substitute(alloc: Global, kind: Kind, label: Label) -> Result<Datum, AllocError> {
        Ok(substitute_in(alloc, rows_in(kinds_with(kind), kind), label))
    }

    fn produce<L: Ledger>(
        alloc: Global,
        kind: Kind,
        label: Label,
        args: &[ArgVal],
        steps: &mut Steps<L>,
    ) -> Result<Made, AllocError> {
        steps.tick();
        defold_made(alloc, kind, label, args)
    }
}

// The part of the table that the kind is looked up in.
fn kinds_with(kind: Kind) -> Kinds
    ensures { kind_at (map plain_kind result.now) kind ≡ kind_at defold_kinds kind }
{
    if is_coll_kind(kind) {
        &COLL_KINDS
    } else {
        &GO_KINDS
    }
}

fn is_coll_kind(kind: Kind) -> bool
    ensures { result ≡ is_coll_kind kind }
{
    kind.0 == kinds::GO_INSTANCE.0
        || kind.0 == kinds::COLL_INSTANCE.0
        || kind.0 == kinds::COLLECTION.0
}

/// The production of an output, without a count of steps; `Nil` for what is no output.
pub fn defold_made(
    alloc: Global,
    kind: Kind,
    label: Label,
    args: &[ArgVal],
) -> Result<Made, AllocError>
    ensures { IfOk result (λ m. m ≡ defold_made kind label args.now) }
{
    if is_output_of(kind, label, kinds::GO_INSTANCE, labels::INSTANCE) {
        go_instance(alloc, args)
    } else if is_output_of(kind, label, kinds::COLL_INSTANCE, labels::INSTANCE) {
        coll_instance(alloc, args)
    } else if is_output_of(kind, label, kinds::COLLECTION, labels::FLAT) {
        coll_flat(alloc, args)
    } else if is_output_of(kind, label, kinds::COLLECTION, labels::BUILD) {
        coll_build(alloc, args)
    } else {
        go_made(alloc, kind, label, args)
    }
}

fn is_output_of(kind: Kind, label: Label, of_kind: Kind, of_label: Label) -> bool
    ensures { result ≡ is_output_of kind label of_kind of_label }
{
    kind.0 == of_kind.0 && label.0 == of_label.0
}
