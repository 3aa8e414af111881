//! The nine kinds, row by row: each label with what it is to its kind.

use dg_base::ArgSpec::{Input, Open, Own};
use dg_base::{Ty, V3, V4};
use dg_labels::kinds;
use dg_labels::labels::*;
use dg_rows::Entry::{Array, Cached, Output, OwnedArray, Property, Single, Substituted};
use dg_rows::{KindRows, Preset, Row, StaticKind};

/// The place of what was not moved.
pub const ZERO3: Preset = Preset::Vec3(V3 { x: 0, y: 0, z: 0 });

/// The rotation of what was not turned.
pub const UNTURNED: Preset = Preset::Quat(V4 {
    x: 0,
    y: 0,
    z: 0,
    w: 1_000_000_000,
});

/// The kinds from Num to ComponentEmbedded, a line for each label.
#[rattlefmt::skip]
pub static GO_KINDS: [StaticKind; 9] = [
    KindRows { kind: kinds::NUM, is_open: false, labels: &[VALUE], rows: &[
        Row(VALUE, Property(Preset::Number(0))),
    ] },
    KindRows { kind: kinds::SUM, is_open: false, labels: &[TERMS, EXTRA, TOTAL], rows: &[
        Row(TERMS, Array(Ty::Number)),
        Row(EXTRA, Substituted(Preset::Number(0))),
        Row(TOTAL, Cached(Ty::Number, &[Input(TERMS), Input(EXTRA)])),
    ] },
    KindRows { kind: kinds::TEXT, is_open: false, labels: &[TEXT], rows: &[
        Row(TEXT, Property(Preset::Text)),
    ] },
    KindRows { kind: kinds::JOIN, is_open: false, labels: &[GLUE, PARTS, JOINED], rows: &[
        Row(GLUE, Property(Preset::Text)),
        Row(PARTS, Array(Ty::Text)),
        Row(JOINED, Cached(Ty::Text, &[Input(PARTS), Own(GLUE)])),
    ] },
    KindRows { kind: kinds::RESOURCE_FILE, is_open: false, labels: &[PATH, RESOURCE], rows: &[
        Row(PATH, Property(Preset::Text)),
        Row(RESOURCE, Output(Ty::Resource, &[Own(PATH)])),
    ] },
    KindRows { kind: kinds::SCRIPT_FILE, is_open: true, labels: &[PATH, RESOURCE], rows: &[
        Row(PATH, Property(Preset::Text)),
        Row(RESOURCE, Output(Ty::Resource, &[Own(PATH), Open])),
    ] },
    KindRows { kind: kinds::GAME_OBJECT, is_open: false, labels: &[PATH, COMPONENTS, OBJECT, BUILD], rows: &[
        Row(PATH, Property(Preset::Text)),
        Row(COMPONENTS, OwnedArray(Ty::Component)),
        Row(OBJECT, Cached(Ty::Object, &[Own(PATH), Input(COMPONENTS)])),
        Row(BUILD, Cached(Ty::Build, &[Own(OBJECT)])),
    ] },
    KindRows { kind: kinds::COMPONENT_REF, is_open: true, labels: &[RESOURCE, ID, POSITION, ROTATION, COMPONENT], rows: &[
        Row(RESOURCE, Single(Ty::Resource)),
        Row(ID, Property(Preset::Text)),
        Row(POSITION, Property(ZERO3)),
        Row(ROTATION, Property(UNTURNED)),
        Row(COMPONENT, Output(Ty::Component, &[Own(ID), Own(POSITION), Own(ROTATION), Input(RESOURCE), Open])),
    ] },
    KindRows { kind: kinds::COMPONENT_EMBEDDED, is_open: false, labels: &[ID, TYPE, DATA, POSITION, ROTATION, COMPONENT], rows: &[
        Row(ID, Property(Preset::Text)),
        Row(TYPE, Property(Preset::Text)),
        Row(DATA, Property(Preset::Text)),
        Row(POSITION, Property(ZERO3)),
        Row(ROTATION, Property(UNTURNED)),
        Row(COMPONENT, Output(Ty::Component, &[Own(ID), Own(TYPE), Own(DATA), Own(POSITION), Own(ROTATION)])),
    ] },
];
