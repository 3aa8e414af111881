//! The kinds that make up collections, row by row: each label with what it is to its kind.

use dg_base::ArgSpec::{Input, Own};
use dg_base::{Ty, V3};
use dg_kinds_go::{UNTURNED, ZERO3};
use dg_labels::kinds;
use dg_labels::labels::*;
use dg_rows::Entry::{Array, Cached, Owned, OwnedArray, Property};
use dg_rows::{KindRows, Preset, Row, StaticKind};

/// The scale of what was not scaled.
pub const UNSCALED: Preset = Preset::Vec3(V3 {
    x: 1_000_000_000,
    y: 1_000_000_000,
    z: 1_000_000_000,
});

/// The kinds from GoInstance to Collection, a line for each label.
#[rattlefmt::skip]
pub static COLL_KINDS: [StaticKind; 3] = [
    KindRows { kind: kinds::GO_INSTANCE, is_open: false, labels: &[ID, POSITION, ROTATION, SCALE3, SOURCE, CHILDREN, INSTANCE], rows: &[
        Row(ID, Property(Preset::Text)),
        Row(POSITION, Property(ZERO3)),
        Row(ROTATION, Property(UNTURNED)),
        Row(SCALE3, Property(UNSCALED)),
        Row(SOURCE, Owned(Ty::Object)),
        Row(CHILDREN, Array(Ty::Text)),
        Row(INSTANCE, Cached(Ty::Instance, &[Own(ID), Own(POSITION), Own(ROTATION), Own(SCALE3), Input(SOURCE), Input(CHILDREN)])),
    ] },
    KindRows { kind: kinds::COLL_INSTANCE, is_open: false, labels: &[ID, POSITION, ROTATION, SCALE3, SOURCE, INSTANCE], rows: &[
        Row(ID, Property(Preset::Text)),
        Row(POSITION, Property(ZERO3)),
        Row(ROTATION, Property(UNTURNED)),
        Row(SCALE3, Property(UNSCALED)),
        Row(SOURCE, Owned(Ty::Flat)),
        Row(INSTANCE, Cached(Ty::Sub, &[Own(ID), Own(POSITION), Own(ROTATION), Own(SCALE3), Input(SOURCE)])),
    ] },
    KindRows { kind: kinds::COLLECTION, is_open: false, labels: &[PATH, BUILD, NAME, SCALE_ALONG_Z, INSTANCES, SUBS, FLAT], rows: &[
        Row(PATH, Property(Preset::Text)),
        Row(BUILD, Cached(Ty::Build, &[Own(PATH), Own(NAME), Own(SCALE_ALONG_Z), Own(FLAT)])),
        Row(NAME, Property(Preset::Text)),
        Row(SCALE_ALONG_Z, Property(Preset::Flag(false))),
        Row(INSTANCES, OwnedArray(Ty::Instance)),
        Row(SUBS, OwnedArray(Ty::Sub)),
        Row(FLAT, Cached(Ty::Flat, &[Input(INSTANCES), Input(SUBS)])),
    ] },
];
