//! What the outputs give, case by case, and that the schema is its table.
use crate::{Defold, defold_made};
use dg_base::{
    Answer, ArgVal, Datum, FaultCode, Fields, Held, Helds, Items, Kind, Label, Made, Role, Schema,
    Str, Ty, V3, V4,
};
use dg_kinds_go::{field_in, items_in, push_field, push_item, text_in};
use dg_labels::kinds;
use dg_labels::labels::*;
use std::alloc::{AllocError, Global};
use std::test::Fail;

/// One, in billionths.
const ONE: i64 = 1_000_000_000;

/// Position, rotation and scale.
type Place = [i64; 10];

/// An instance or an entry: its id, whether it is a child, its children's ids and its place.
type Entry = (&'static str, bool, &'static [&'static str], Place);

/// A collection in another one: its id there and its entries.
type Sub = (&'static str, &'static [Entry]);

/// An argument of a case: a place's position, rotation or scale, texts, entries, or what has them.
enum Arg {
    Nil,
    Text(&'static str),
    Texts(&'static [&'static str]),
    Flag(bool),
    Position(Place),
    Rotation(Place),
    Scale(Place),
    Entries(&'static [Entry]),
    Instances(&'static [Entry]),
    Subs(&'static [Sub]),
}

/// What an output gives: a fault, entries alone, those in a record, or an instance with its children.
enum Gives {
    Fault(FaultCode),
    Flat(&'static [Entry]),
    Sub(&'static str, &'static [Entry]),
    Built(&'static str, &'static [Entry]),
    Instance(&'static str, &'static [&'static str], Place),
}

type Case = (Kind, Label, &'static [Arg], Gives);

/// Where nothing is moved, and at one along x.
const HERE: Place = [0, 0, 0, 0, 0, 0, ONE, ONE, ONE, ONE];

const ALONG_X: Place = [ONE, 0, 0, 0, 0, 0, ONE, ONE, ONE, ONE];

const LARGEST: Place = [i64::MAX, 0, 0, 0, 0, 0, ONE, ONE, ONE, ONE];

/// At ten along x, turned about z by a quarter with eight digits, and what stands at one along x there;
/// and that where all is at five along y.
const TURNED: Place = [
    10_000_000_000,
    0,
    0,
    0,
    0,
    707_106_770,
    707_106_770,
    ONE,
    ONE,
    ONE,
];

const INSIDE: Place = [
    10_000_000_032,
    999_999_968,
    0,
    0,
    0,
    707_106_770,
    707_106_770,
    ONE,
    ONE,
    ONE,
];

const ALONG_Y: Place = [0, 5_000_000_000, 0, 0, 0, 0, ONE, ONE, ONE, ONE];

const OUTSIDE: Place = [
    10_000_000_032,
    5_999_999_968,
    0,
    0,
    0,
    707_106_770,
    707_106_770,
    ONE,
    ONE,
    ONE,
];

/// A collection whose object is the parent of another one, in a collection that is in a third.
const INNER: &[Entry] = &[
    ("/go", false, &["/kid"], ALONG_X),
    ("/kid", true, &[], ALONG_X),
];

const MIDDLE: &[Entry] = &[
    ("/b/go", false, &["/b/kid"], INSIDE),
    ("/b/kid", true, &[], ALONG_X),
];

const OUTER: &[Entry] = &[
    ("/a/b/go", false, &["/a/b/kid"], OUTSIDE),
    ("/a/b/kid", true, &[], ALONG_X),
];

/// Kinds, labels, arguments and what they give.
#[rattlefmt::skip]
static CASES: [Case; 19] = [
    (kinds::COLLECTION, FLAT, &[Arg::Instances(&[("go", false, &["kid"], ALONG_X), ("kid", false, &[], ALONG_X)]), Arg::Subs(&[])], Gives::Flat(INNER)),
    (kinds::COLL_INSTANCE, INSTANCE, &[Arg::Text("b"), Arg::Position(TURNED), Arg::Rotation(TURNED), Arg::Scale(TURNED), Arg::Entries(INNER)], Gives::Sub("b", MIDDLE)),
    (kinds::COLLECTION, FLAT, &[Arg::Instances(&[]), Arg::Subs(&[("b", MIDDLE)])], Gives::Flat(MIDDLE)),
    (kinds::COLL_INSTANCE, INSTANCE, &[Arg::Text("a"), Arg::Position(ALONG_Y), Arg::Rotation(ALONG_Y), Arg::Scale(ALONG_Y), Arg::Entries(MIDDLE)], Gives::Sub("a", OUTER)),
    // Children are named before and behind their parents; an id that no instance has is kept.
    (kinds::COLLECTION, FLAT, &[Arg::Instances(&[("a", false, &["c", "none"], HERE), ("b", false, &["a"], HERE), ("c", false, &[], HERE)]), Arg::Subs(&[("s", INNER)])], Gives::Flat(&[("/a", true, &["/c", "/none"], HERE), ("/b", false, &["/a"], HERE), ("/c", true, &[], HERE), ("/go", false, &["/kid"], ALONG_X), ("/kid", true, &[], ALONG_X)])),
    (kinds::COLLECTION, FLAT, &[Arg::Instances(&[("", false, &[""], HERE)]), Arg::Subs(&[])], Gives::Flat(&[("/", true, &["/"], HERE)])),
    (kinds::COLLECTION, FLAT, &[Arg::Instances(&[("x", false, &[], HERE), ("y", false, &[], HERE)]), Arg::Subs(&[("x", &[])])], Gives::Fault(FaultCode::DuplicateId)),
    (kinds::COLLECTION, FLAT, &[Arg::Instances(&[]), Arg::Subs(&[("x", &[]), ("x", &[])])], Gives::Fault(FaultCode::DuplicateId)),
    (kinds::COLL_INSTANCE, INSTANCE, &[Arg::Text("s"), Arg::Position(HERE), Arg::Rotation(HERE), Arg::Scale(HERE), Arg::Entries(&[])], Gives::Sub("s", &[])),
    (kinds::COLL_INSTANCE, INSTANCE, &[Arg::Text("s"), Arg::Position(HERE), Arg::Rotation(HERE), Arg::Scale(HERE), Arg::Nil], Gives::Fault(FaultCode::NoResource)),
    // A child at the largest number stays there; another entry would go past it.
    (kinds::COLL_INSTANCE, INSTANCE, &[Arg::Text("s"), Arg::Position(ALONG_X), Arg::Rotation(HERE), Arg::Scale(HERE), Arg::Entries(&[("/m", true, &[], LARGEST)])], Gives::Sub("s", &[("/s/m", true, &[], LARGEST)])),
    (kinds::COLL_INSTANCE, INSTANCE, &[Arg::Text("s"), Arg::Position(ALONG_X), Arg::Rotation(HERE), Arg::Scale(HERE), Arg::Entries(&[("/n", false, &[], HERE), ("/m", false, &[], LARGEST)])], Gives::Fault(FaultCode::Range)),
    (kinds::GO_INSTANCE, INSTANCE, &[Arg::Text("g"), Arg::Position(TURNED), Arg::Rotation(TURNED), Arg::Scale(TURNED), Arg::Text("o"), Arg::Texts(&["x", "y"])], Gives::Instance("g", &["x", "y"], TURNED)),
    (kinds::GO_INSTANCE, INSTANCE, &[Arg::Text("g"), Arg::Position(HERE), Arg::Rotation(HERE), Arg::Scale(HERE), Arg::Nil, Arg::Texts(&[])], Gives::Fault(FaultCode::NoResource)),
    (kinds::COLLECTION, BUILD, &[Arg::Text("/a/b.collection"), Arg::Text("main"), Arg::Flag(true), Arg::Entries(INNER)], Gives::Built("main", INNER)),
    (kinds::COLLECTION, BUILD, &[Arg::Text("/.collection"), Arg::Text(""), Arg::Flag(true), Arg::Entries(&[])], Gives::Built("", &[])),
    (kinds::COLLECTION, BUILD, &[Arg::Text("a.collection"), Arg::Text("main"), Arg::Flag(true), Arg::Entries(&[])], Gives::Fault(FaultCode::BadName)),
    (kinds::COLLECTION, BUILD, &[Arg::Text("/a.go"), Arg::Text("main"), Arg::Flag(true), Arg::Entries(&[])], Gives::Fault(FaultCode::BadName)),
    // A production of a game object.
    (kinds::GAME_OBJECT, BUILD, &[Arg::Nil], Gives::Fault(FaultCode::BadName)),
];

fn text(alloc: Global, text: &str) -> Result<Datum, AllocError> {
    Ok(Datum::Text(Str::of(String::from_str(alloc, text)?)))
}

fn held(alloc: Global, datum: Datum) -> Result<Held, AllocError> {
    Held::of(alloc, Answer::good(datum))
}

fn position(place: &Place) -> V3 {
    V3 {
        x: place[0],
        y: place[1],
        z: place[2],
    }
}

fn rotation(place: &Place) -> V4 {
    V4 {
        x: place[3],
        y: place[4],
        z: place[5],
        w: place[6],
    }
}

fn scale(place: &Place) -> V3 {
    V3 {
        x: place[7],
        y: place[8],
        z: place[9],
    }
}

fn texts(alloc: Global, all: &[&str]) -> Result<Items, AllocError> {
    let mut items = Items::new(alloc);
    for one in all {
        push_item(&mut items, text(alloc, one)?)?;
    }
    Ok(items)
}

// What stands at an entry is the text `o`.
fn entry(alloc: Global, of: &Entry) -> Result<Datum, AllocError> {
    let mut fields = Fields::new(alloc);
    push_field(&mut fields, ID, text(alloc, of.0)?)?;
    push_field(&mut fields, CHILD, Datum::Flag(of.1))?;
    push_field(&mut fields, CHILDREN, Datum::List(texts(alloc, of.2)?))?;
    push_field(&mut fields, POSITION, Datum::Vec3(position(&of.3)))?;
    push_field(&mut fields, ROTATION, Datum::Quat(rotation(&of.3)))?;
    push_field(&mut fields, SCALE3, Datum::Vec3(scale(&of.3)))?;
    push_field(&mut fields, OBJECT, text(alloc, "o")?)?;
    Ok(Datum::Rec(fields))
}

fn list(alloc: Global, entries: &[Entry]) -> Result<Datum, AllocError> {
    let mut all = Items::new(alloc);
    for one in entries {
        push_item(&mut all, entry(alloc, one)?)?;
    }
    Ok(Datum::List(all))
}

fn sub(alloc: Global, of: &Sub) -> Result<Datum, AllocError> {
    let mut fields = Fields::new(alloc);
    push_field(&mut fields, ID, text(alloc, of.0)?)?;
    push_field(&mut fields, ENTRIES, list(alloc, of.1)?)?;
    Ok(Datum::Rec(fields))
}

fn held_texts(alloc: Global, of: &[&str]) -> Result<ArgVal, AllocError> {
    let mut all = Helds::new(alloc);
    for one in of {
        all.push(held(alloc, text(alloc, one)?)?)?;
    }
    Ok(ArgVal::Many(all))
}

fn instances(alloc: Global, of: &[Entry]) -> Result<ArgVal, AllocError> {
    let mut all = Helds::new(alloc);
    for one in of {
        all.push(held(alloc, entry(alloc, one)?)?)?;
    }
    Ok(ArgVal::Many(all))
}

fn subs(alloc: Global, of: &[Sub]) -> Result<ArgVal, AllocError> {
    let mut all = Helds::new(alloc);
    for one in of {
        all.push(held(alloc, sub(alloc, one)?)?)?;
    }
    Ok(ArgVal::Many(all))
}

fn value(alloc: Global, arg: &Arg) -> Result<Datum, AllocError> {
    match arg {
        Arg::Text(of) => text(alloc, of),
        Arg::Flag(flag) => Ok(Datum::Flag(*flag)),
        Arg::Position(place) => Ok(Datum::Vec3(position(place))),
        Arg::Rotation(place) => Ok(Datum::Quat(rotation(place))),
        Arg::Scale(place) => Ok(Datum::Vec3(scale(place))),
        Arg::Entries(entries) => list(alloc, entries),
        _ => Ok(Datum::Nil),
    }
}

fn arg_val(alloc: Global, arg: &Arg) -> Result<ArgVal, AllocError> {
    match arg {
        Arg::Nil => Ok(ArgVal::Nil),
        Arg::Texts(of) => held_texts(alloc, of),
        Arg::Instances(entries) => instances(alloc, entries),
        Arg::Subs(of) => subs(alloc, of),
        _ => Ok(ArgVal::One(held(alloc, value(alloc, arg)?)?)),
    }
}

fn arg_vals(alloc: Global, args: &[Arg]) -> Result<Vec<ArgVal>, AllocError> {
    let mut all = Vec::new(alloc);
    for arg in args {
        all.push(arg_val(alloc, arg)?)?;
    }
    Ok(all)
}

fn is_flag(datum: Option<&Datum>, flag: bool) -> bool {
    matches!(datum, Some(Datum::Flag(is)) if *is == flag)
}

fn is_vec3(datum: Option<&Datum>, vector: V3) -> bool {
    matches!(datum, Some(Datum::Vec3(is)) if *is == vector)
}

fn is_quat(datum: Option<&Datum>, vector: V4) -> bool {
    matches!(datum, Some(Datum::Quat(is)) if *is == vector)
}

fn are_texts(items: &[Datum], of: &[&str]) -> bool {
    let mut same = items.len() == of.len();
    for (item, text) in items.iter().zip(of) {
        same = same && text_in(Some(item)) == *text;
    }
    same
}

fn stands_at(from: Option<&Datum>, place: &Place) -> bool {
    let position = is_vec3(field_in(from, POSITION), position(place));
    let rotation = is_quat(field_in(from, ROTATION), rotation(place));
    let scale = is_vec3(field_in(from, SCALE3), scale(place));
    position & rotation & scale
}

// The text `o` stands at the place, with this id and these children.
fn is_instance(from: Option<&Datum>, id: &str, children: &[&str], place: &Place) -> bool {
    let ids = text_in(field_in(from, ID)) == id;
    let children = are_texts(items_in(field_in(from, CHILDREN)), children);
    let object = text_in(field_in(from, OBJECT)) == "o";
    ids & children & object & stands_at(from, place)
}

fn is_entry(datum: &Datum, entry: &Entry) -> bool {
    let from = Some(datum);
    is_instance(from, entry.0, entry.2, &entry.3) & is_flag(field_in(from, CHILD), entry.1)
}

fn are_entries(items: &[Datum], entries: &[Entry]) -> bool {
    let mut same = items.len() == entries.len();
    for (item, entry) in items.iter().zip(entries) {
        same = same & is_entry(item, entry);
    }
    same
}

fn has_entries(from: Option<&Datum>, label: Label, text: &str, entries: &[Entry]) -> bool {
    let named = text_in(field_in(from, label)) == text;
    named & are_entries(items_in(field_in(from, ENTRIES)), entries)
}

fn is_good(datum: &Datum, expected: &Gives) -> bool {
    let from = Some(datum);
    match expected {
        Gives::Fault(_) => false,
        Gives::Flat(entries) => are_entries(items_in(from), entries),
        Gives::Sub(id, entries) => has_entries(from, ID, id, entries),
        Gives::Built(name, entries) => {
            has_entries(from, NAME, name, entries) & is_flag(field_in(from, SCALE_ALONG_Z), true)
        }
        Gives::Instance(id, children, place) => is_instance(from, id, children, place),
    }
}

fn is_fault(code: FaultCode, expected: &Gives) -> bool {
    matches!(expected, Gives::Fault(is) if *is == code)
}

fn plays(alloc: Global, case: &Case) -> Result<bool, AllocError> {
    let args = arg_vals(alloc, case.2)?;
    let made = defold_made(alloc, case.0, case.1, args.as_slice())?;
    Ok(match &made {
        Made::Good(datum) => is_good(datum, &case.3),
        Made::Fault(code) => is_fault(*code, &case.3),
    })
}

/// The place of the first case that gives something else.
fn first_other(alloc: Global, cases: &[Case]) -> Result<Option<usize>, AllocError> {
    let mut place = 0usize;
    for case in cases {
        if !plays(alloc, case)? {
            return Ok(Some(place));
        }
        place = place.saturating_add(1);
    }
    Ok(None)
}

#[test]
fn collections_are_flat_lists_of_what_stands_in_them(rt: HostRuntime) -> Result<(), Fail> {
    let other = first_other(rt.alloc(), &CASES)?;
    assert_eq!(rt; other, None);
    Ok(())
}

fn named(alloc: Global, number: u32, children: Items) -> Result<Held, AllocError> {
    let id = Datum::Text(Str::of(format!(in alloc; "i{number}")?));
    let mut fields = Fields::new(alloc);
    push_field(&mut fields, ID, id)?;
    push_field(&mut fields, CHILDREN, Datum::List(children))?;
    held(alloc, Datum::Rec(fields))
}

// The first instance is the parent of so many others.
fn family(alloc: Global, count: u32) -> Result<ArgVal, AllocError> {
    let mut children = Items::new(alloc);
    let mut all = Helds::new(alloc);
    for number in 0..count {
        push_item(
            &mut children,
            Datum::Text(Str::of(format!(in alloc; "i{number}")?)),
        )?;
        all.push(named(alloc, number, Items::new(alloc))?)?;
    }
    all.push(named(alloc, count, children)?)?;
    Ok(ArgVal::Many(all))
}

fn children_among(items: &[Datum]) -> usize {
    let mut count = 0usize;
    for item in items {
        if is_flag(field_in(Some(item), CHILD), true) {
            count = count.saturating_add(1);
        }
    }
    count
}

fn children_of_a_family(alloc: Global, count: u32) -> Result<usize, AllocError> {
    let mut args = Vec::new(alloc);
    args.push(family(alloc, count)?)?;
    args.push(subs(alloc, &[])?)?;
    let made = defold_made(alloc, kinds::COLLECTION, FLAT, args.as_slice())?;
    Ok(match &made {
        Made::Good(flat) => children_among(items_in(Some(flat))),
        Made::Fault(_) => 0,
    })
}

#[test]
fn many_children_take_no_long_time(rt: HostRuntime) -> Result<(), Fail> {
    let alloc = rt.alloc();
    assert_eq!(rt; children_of_a_family(alloc, 10_000)?, 10_000);
    Ok(())
}

#[test]
fn the_schema_is_both_tables(rt: HostRuntime) -> Result<(), Fail> {
    let alloc = rt.alloc();
    assert_eq!(rt;
        Defold::labels(kinds::COLLECTION),
        [PATH, BUILD, NAME, SCALE_ALONG_Z, INSTANCES, SUBS, FLAT].as_slice()
    );
    let source = Role::Input {
        ty: Ty::Flat,
        array: false,
        cascade: true,
        substitute: false,
    };
    assert_eq!(rt; Defold::role(kinds::COLL_INSTANCE, SOURCE), source);
    assert_eq!(rt; Defold::role(kinds::NUM, VALUE), Role::Property(Ty::Number));
    assert_eq!(rt; Defold::role(kinds::NUM, SOURCE), Role::Nothing);
    assert_eq!(rt; Defold::args(kinds::COLLECTION, BUILD).len(), 4);
    assert_eq!(rt; Defold::args(kinds::JOIN, JOINED).len(), 2);
    assert!(rt; Defold::is_open(kinds::COMPONENT_REF));
    assert!(rt; !Defold::is_open(kinds::COLLECTION));
    let scaled = Defold::default(alloc, kinds::GO_INSTANCE, SCALE3)?;
    assert!(rt; is_vec3(Some(&scaled), scale(&HERE)));
    let stands_in = Defold::substitute(alloc, kinds::SUM, EXTRA)?;
    assert!(rt; matches!(stands_in, Datum::Dec(0)));
    let nothing = defold_made(alloc, kinds::COLLECTION, NAME, &[])?;
    assert!(rt; matches!(nothing, Made::Good(Datum::Nil)));
    Ok(())
}
