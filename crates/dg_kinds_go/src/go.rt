//! The schema.
ghost use Rattle.std.specs.Prelude.{◌≡◌, IfOk};
ghost use Rattle.dg_kinds_go.specs.Go.{is_output_of, go_made, go_objects_made, go_components_made};

use crate::components::{embedded_component, ref_component};
use crate::files::{file_resource, script_resource};
use crate::join::join_joined;
use crate::objects::{go_build, go_object};
use crate::sum::sum_total;
use crate::table::GO_KINDS;
use dg_base::{ArgSpec, ArgVal, Datum, Kind, Label, Made, Role, Schema, Steps};
use dg_labels::{kinds, labels};
use dg_rows::{args_in, is_open_in, labels_in, preset_in, role_in, rows_in, substitute_in};
use std::alloc::{AllocError, Global};
use std::sync::ledger::Ledger;

/// The schema of the nine kinds from Num to ComponentEmbedded.
pub struct GoKinds;

impl Schema for GoKinds {
    ghost use Rattle.dg_kinds_go.specs.Go.{go_tables, go_laws};

    ghost tables = { go_tables };

    ghost laws = { go_laws };

    fn labels(kind: Kind) -> &'static [Label] {
        labels_in(&GO_KINDS, kind)
    }

    fn role(kind: Kind, label: Label) -> Role {
        role_in(rows_in(&GO_KINDS, kind), label)
    }

    fn is_open(kind: Kind) -> bool {
        is_open_in(&GO_KINDS, kind)
    }

    fn args(kind: Kind, label: Label) -> &'static [ArgSpec] {
        args_in(rows_in(&GO_KINDS, kind), label)
    }

    fn default(alloc: Global, kind: Kind, label: Label) -> Result<Datum, AllocError> {
        Ok(preset_in(alloc, rows_in(&GO_KINDS, kind), label))
    }

    fn substitute(alloc: Global, kind: Kind, label: Label) -> Result<Datum, AllocError> {
        Ok(substitute_in(alloc, rows_in(&GO_KINDS, kind), label))
    }

    fn produce<L: Ledger>(
        alloc: Global,
        kind: Kind,
        label: Label,
        args: &[ArgVal],
        steps: &mut Steps<L>,
    ) -> Result<Made, AllocError> {
        steps.tick();
        go_made(alloc, kind, label, args)
    }
}

/// The production of an output, without a count of steps; `Nil` for what is no output.
pub fn go_made(alloc: Global, kind: Kind, label: Label, args: &[ArgVal]) -> Result<Made, AllocError>
    ensures { IfOk result (λ m. m ≡ go_made kind label args.now) }
{
    if is_output_of(kind, label, kinds::SUM, labels::TOTAL) {
        sum_total(args)
    } else if is_output_of(kind, label, kinds::JOIN, labels::JOINED) {
        join_joined(alloc, args)
    } else if is_output_of(kind, label, kinds::RESOURCE_FILE, labels::RESOURCE) {
        file_resource(alloc, args)
    } else if is_output_of(kind, label, kinds::SCRIPT_FILE, labels::RESOURCE) {
        script_resource(alloc, args)
    } else {
        go_objects_made(alloc, kind, label, args)
    }
}

fn go_objects_made(
    alloc: Global,
    kind: Kind,
    label: Label,
    args: &[ArgVal],
) -> Result<Made, AllocError>
    ensures { IfOk result (λ m. m ≡ go_objects_made kind label args.now) }
{
    if is_output_of(kind, label, kinds::GAME_OBJECT, labels::OBJECT) {
        go_object(alloc, args)
    } else if is_output_of(kind, label, kinds::GAME_OBJECT, labels::BUILD) {
        go_build(alloc, args)
    } else {
        go_components_made(alloc, kind, label, args)
    }
}

fn go_components_made(
    alloc: Global,
    kind: Kind,
    label: Label,
    args: &[ArgVal],
) -> Result<Made, AllocError>
    ensures { IfOk result (λ m. m ≡ go_components_made kind label args.now) }
{
    if is_output_of(kind, label, kinds::COMPONENT_REF, labels::COMPONENT) {
        ref_component(alloc, args)
    } else if is_output_of(kind, label, kinds::COMPONENT_EMBEDDED, labels::COMPONENT) {
        embedded_component(alloc, args)
    } else {
        Ok(Made::good(Datum::Nil))
    }
}

fn is_output_of(kind: Kind, label: Label, of_kind: Kind, of_label: Label) -> bool
    ensures { result ≡ is_output_of kind label of_kind of_label }
{
    kind.0 == of_kind.0 && label.0 == of_label.0
}
