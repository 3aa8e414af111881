//! What the outputs give, case by case, and that the schema is its table.
use crate::{GoKinds, go_made};
use dg_base::{
    Answer, ArgVal, Datum, FieldOf, Fields, Held, Helds, Items, Kind, Label, Made, PType, PropVal,
    Props, Role, Schema, Str, Ty, V3, V4,
};
use dg_labels::kinds;
use dg_labels::labels::*;
use std::alloc::{AllocError, Global};
use std::test::Fail;

/// An argument of a case. A prop is its name's label, its type and its text; a component is its id.
#[derive(Clone, Copy)]
enum Arg {
    Nil,
    Sub(i64),
    Dec(i64),
    Decs(&'static [i64]),
    Text(&'static str),
    Texts(&'static [&'static str]),
    Vec3,
    Quat,
    Open(&'static [(u64, PType, &'static str)]),
    Resource(&'static str, &'static [(u64, PType, &'static str)]),
    Components(&'static [&'static str]),
    Object(&'static str),
}

/// Kinds, labels, arguments and what they give.
static CASES: [Case; 30] = [
    (kinds::SUM, TOTAL, &[Arg::Decs(&[3, -4]), Arg::Sub(5)], "4"),
    (kinds::SUM, TOTAL, &[Arg::Decs(&[]), Arg::Nil], "0"),
    (
        kinds::SUM,
        TOTAL,
        &[Arg::Decs(&[9_223_372_036_854_775_807, 1, -1]), Arg::Nil],
        "9223372036854775807",
    ),
    (
        kinds::SUM,
        TOTAL,
        &[Arg::Decs(&[9_223_372_036_854_775_807]), Arg::Dec(1)],
        "fault Range",
    ),
    (
        kinds::SUM,
        TOTAL,
        &[Arg::Decs(&[-9_223_372_036_854_775_808]), Arg::Dec(0)],
        "-9223372036854775808",
    ),
    (
        kinds::SUM,
        TOTAL,
        &[Arg::Decs(&[-9_223_372_036_854_775_808, -1]), Arg::Nil],
        "fault Range",
    ),
    (
        kinds::JOIN,
        JOINED,
        &[Arg::Texts(&["a", "b", "c"]), Arg::Text("-")],
        "'a-b-c'",
    ),
    (
        kinds::JOIN,
        JOINED,
        &[Arg::Texts(&["a"]), Arg::Text("-")],
        "'a'",
    ),
    (
        kinds::JOIN,
        JOINED,
        &[Arg::Texts(&[]), Arg::Text("-")],
        "''",
    ),
    (
        kinds::JOIN,
        JOINED,
        &[Arg::Texts(&["", ""]), Arg::Text("-")],
        "'-'",
    ),
    (
        kinds::RESOURCE_FILE,
        RESOURCE,
        &[Arg::Text("/a.atlas")],
        "{9: '/a.atlas', 29: []}",
    ),
    (
        kinds::SCRIPT_FILE,
        RESOURCE,
        &[
            Arg::Text("/a.script"),
            Arg::Open(&[(1024, PType::Number, "1"), (1030, PType::Hash, "h")]),
        ],
        "{9: '/a.script', 29: [1024 Number '1', 1030 Hash 'h']}",
    ),
    (
        kinds::GAME_OBJECT,
        OBJECT,
        &[Arg::Text("/a.go"), Arg::Components(&["x", "y"])],
        "{9: '/a.go', 17: [{11: 'x'}, {11: 'y'}]}",
    ),
    (
        kinds::GAME_OBJECT,
        OBJECT,
        &[Arg::Text("/a.go"), Arg::Components(&["x", "y", "x"])],
        "fault DuplicateId",
    ),
    (
        kinds::GAME_OBJECT,
        OBJECT,
        &[Arg::Text(""), Arg::Components(&[])],
        "{9: '', 17: []}",
    ),
    (
        kinds::GAME_OBJECT,
        BUILD,
        &[Arg::Object("/a/b.go")],
        "{9: '/a/b.go'}",
    ),
    (
        kinds::GAME_OBJECT,
        BUILD,
        &[Arg::Object("/.go")],
        "{9: '/.go'}",
    ),
    (
        kinds::GAME_OBJECT,
        BUILD,
        &[Arg::Object("/a.collection")],
        "fault BadName",
    ),
    (
        kinds::GAME_OBJECT,
        BUILD,
        &[Arg::Object("a.go")],
        "fault BadName",
    ),
    (
        kinds::GAME_OBJECT,
        BUILD,
        &[Arg::Object("/a/../b.go")],
        "fault BadName",
    ),
    (
        kinds::GAME_OBJECT,
        BUILD,
        &[Arg::Object("/a//b.go")],
        "fault BadName",
    ),
    (
        kinds::GAME_OBJECT,
        BUILD,
        &[Arg::Object("")],
        "fault BadName",
    ),
    (
        kinds::COMPONENT_REF,
        COMPONENT,
        &[
            Arg::Text("p"),
            Arg::Vec3,
            Arg::Quat,
            Arg::Nil,
            Arg::Open(&[]),
        ],
        "fault NoResource",
    ),
    (
        kinds::COMPONENT_REF,
        COMPONENT,
        &[
            Arg::Text("p"),
            Arg::Vec3,
            Arg::Quat,
            Arg::Resource(
                "/p.script",
                &[(1030, PType::Number, "1"), (1024, PType::Hash, "h")],
            ),
            Arg::Open(&[(1025, PType::Url, "u"), (1030, PType::Number, "7")]),
        ],
        "{11: 'p', 9: '/p.script', 14: <1 2 3>, 15: <4 5 6 7>, 29: [1030 Number '7', 1024 Hash 'h']}",
    ),
    (
        kinds::COMPONENT_REF,
        COMPONENT,
        &[
            Arg::Text("p"),
            Arg::Vec3,
            Arg::Quat,
            Arg::Resource("/p.script", &[(1030, PType::Number, "1")]),
            Arg::Open(&[(1030, PType::Hash, "1")]),
        ],
        "fault PropType",
    ),
    (
        kinds::COMPONENT_EMBEDDED,
        COMPONENT,
        &[
            Arg::Text("e"),
            Arg::Text("tile_set2"),
            Arg::Text("d"),
            Arg::Vec3,
            Arg::Quat,
        ],
        "{11: 'e', 12: 'tile_set2', 13: 'd', 14: <1 2 3>, 15: <4 5 6 7>}",
    ),
    (
        kinds::COMPONENT_EMBEDDED,
        COMPONENT,
        &[
            Arg::Text("e"),
            Arg::Text("tileSet"),
            Arg::Text("d"),
            Arg::Vec3,
            Arg::Quat,
        ],
        "fault BadName",
    ),
    (
        kinds::COMPONENT_EMBEDDED,
        COMPONENT,
        &[
            Arg::Text("e"),
            Arg::Text(""),
            Arg::Text(""),
            Arg::Vec3,
            Arg::Quat,
        ],
        "{11: 'e', 12: '', 13: '', 14: <1 2 3>, 15: <4 5 6 7>}",
    ),
    (kinds::NUM, VALUE, &[], "nil"),
    (kinds::GO_INSTANCE, INSTANCE, &[], "nil"),
];

type Case = (Kind, Label, &'static [Arg], &'static str);

/// The place of the first case that gives something else.
fn first_other(alloc: Global, cases: &[Case]) -> Result<Option<usize>, AllocError> {
    let mut place = 0usize;
    for case in cases {
        if !gives(alloc, case)? {
            return Ok(Some(place));
        }
        place = place.saturating_add(1);
    }
    Ok(None)
}

fn gives(alloc: Global, case: &Case) -> Result<bool, AllocError> {
    let args = arg_vals(alloc, case.2)?;
    let made = go_made(alloc, case.0, case.1, args.as_slice())?;
    let text = printed(alloc, &made)?;
    Ok(text.as_str() == case.3)
}

fn arg_vals(alloc: Global, args: &[Arg]) -> Result<Vec<ArgVal>, AllocError> {
    let mut all = Vec::new(alloc);
    for arg in args {
        all.push(arg_val(alloc, *arg)?)?;
    }
    Ok(all)
}

fn arg_val(alloc: Global, arg: Arg) -> Result<ArgVal, AllocError> {
    Ok(match arg {
        Arg::Nil => ArgVal::Nil,
        Arg::Sub(number) => ArgVal::Sub(Datum::Dec(number)),
        Arg::Dec(number) => ArgVal::One(held(alloc, Datum::Dec(number))?),
        Arg::Decs(numbers) => ArgVal::Many(decs(alloc, numbers)?),
        Arg::Text(text) => ArgVal::One(held(alloc, text_of(alloc, text)?)?),
        Arg::Texts(texts) => ArgVal::Many(text_helds(alloc, texts)?),
        Arg::Vec3 => ArgVal::One(held(alloc, Datum::Vec3(V3 { x: 1, y: 2, z: 3 }))?),
        Arg::Quat => {
            let quat = Datum::Quat(V4 {
                x: 4,
                y: 5,
                z: 6,
                w: 7,
            });
            ArgVal::One(held(alloc, quat)?)
        }
        Arg::Open(props) => ArgVal::Open(open(alloc, props)?),
        Arg::Resource(path, props) => ArgVal::One(held(alloc, resource(alloc, path, props)?)?),
        Arg::Components(ids) => ArgVal::Many(components(alloc, ids)?),
        Arg::Object(path) => {
            let path = text_of(alloc, path)?;
            ArgVal::One(held(alloc, one_field(alloc, PATH, path)?)?)
        }
    })
}

fn held(alloc: Global, datum: Datum) -> Result<Held, AllocError> {
    Held::of(alloc, Answer::good(datum))
}

fn text_of(alloc: Global, text: &str) -> Result<Datum, AllocError> {
    Ok(Datum::Text(Str::of(String::from_str(alloc, text)?)))
}

fn decs(alloc: Global, numbers: &[i64]) -> Result<Helds, AllocError> {
    let mut all = Helds::new(alloc);
    for number in numbers {
        all.push(held(alloc, Datum::Dec(*number))?)?;
    }
    Ok(all)
}

fn text_helds(alloc: Global, texts: &[&str]) -> Result<Helds, AllocError> {
    let mut all = Helds::new(alloc);
    for text in texts {
        all.push(held(alloc, text_of(alloc, text)?)?)?;
    }
    Ok(all)
}

fn prop(alloc: Global, of: (u64, PType, &str)) -> Result<PropVal, AllocError> {
    Ok(PropVal {
        name: Label(of.0),
        ptype: of.1,
        text: Str::of(String::from_str(alloc, of.2)?),
    })
}

fn open(alloc: Global, props: &[(u64, PType, &str)]) -> Result<Props, AllocError> {
    let mut all = Props::new(alloc);
    for one in props {
        all.push(prop(alloc, *one)?)?;
    }
    Ok(all)
}

fn resource(alloc: Global, path: &str, props: &[(u64, PType, &str)]) -> Result<Datum, AllocError> {
    let mut items = Items::new(alloc);
    for one in props {
        items.push(Datum::Prop(prop(alloc, *one)?))?;
    }
    let mut fields = Fields::new(alloc);
    fields.push(FieldOf {
        label: PATH,
        value: text_of(alloc, path)?,
    })?;
    fields.push(FieldOf {
        label: PROPS,
        value: Datum::List(items),
    })?;
    Ok(Datum::Rec(fields))
}

fn one_field(alloc: Global, label: Label, value: Datum) -> Result<Datum, AllocError> {
    let mut fields = Fields::new(alloc);
    fields.push(FieldOf { label, value })?;
    Ok(Datum::Rec(fields))
}

fn components(alloc: Global, ids: &[&str]) -> Result<Helds, AllocError> {
    let mut all = Helds::new(alloc);
    for id in ids {
        let id = text_of(alloc, id)?;
        all.push(held(alloc, one_field(alloc, ID, id)?)?)?;
    }
    Ok(all)
}

fn printed(alloc: Global, made: &Made) -> Result<String, AllocError> {
    let mut text = String::new(alloc);
    match made {
        Made::Good(datum) => put(&mut text, datum)?,
        Made::Fault(code) => write!(text, "fault {code:?}")?,
    }
    Ok(text)
}

#[cycle(put)]
fn put(text: &mut String, datum: &Datum) -> Result<(), AllocError> {
    match datum {
        Datum::Nil => text.push_str("nil"),
        Datum::Flag(flag) => write!(text, "{flag}"),
        Datum::Dec(number) => write!(text, "{number}"),
        Datum::Text(words) => write!(text, "'{}'", words.as_str()),
        Datum::Vec3(v) => write!(text, "<{} {} {}>", v.x, v.y, v.z),
        Datum::Quat(q) => write!(text, "<{} {} {} {}>", q.x, q.y, q.z, q.w),
        Datum::Prop(p) => write!(text, "{} {:?} '{}'", p.name.0, p.ptype, p.text.as_str()),
        Datum::List(items) => put_items(text, items.as_slice()),
        Datum::Rec(fields) => put_fields(text, fields.as_slice()),
    }
}

#[cycle(put)]
fn put_items(text: &mut String, items: &[Datum]) -> Result<(), AllocError> {
    text.push_str("[")?;
    let mut first = true;
    for item in items {
        if !first {
            text.push_str(", ")?;
        }
        first = false;
        put(text, item)?;
    }
    text.push_str("]")
}

#[cycle(put)]
fn put_fields(text: &mut String, fields: &[FieldOf]) -> Result<(), AllocError> {
    text.push_str("{")?;
    let mut first = true;
    for field in fields {
        if !first {
            text.push_str(", ")?;
        }
        first = false;
        write!(text, "{}: ", field.label.0)?;
        put(text, &field.value)?;
    }
    text.push_str("}")
}

#[test]
fn outputs_give_their_values(rt: HostRuntime) -> Result<(), Fail> {
    let other = first_other(rt.alloc(), &CASES)?;
    assert_eq!(rt; other, None);
    Ok(())
}

#[test]
fn the_schema_is_the_table(rt: HostRuntime) -> Result<(), Fail> {
    let alloc = rt.alloc();
    assert_eq!(rt;
        GoKinds::labels(kinds::GAME_OBJECT),
        [PATH, COMPONENTS, OBJECT, BUILD].as_slice()
    );
    let extra = Role::Input {
        ty: Ty::Number,
        array: false,
        cascade: false,
        substitute: true,
    };
    assert_eq!(rt; GoKinds::role(kinds::SUM, EXTRA), extra);
    assert_eq!(rt; GoKinds::role(kinds::NUM, EXTRA), Role::Nothing);
    let stands_in = GoKinds::substitute(alloc, kinds::SUM, EXTRA)?;
    let text = printed(alloc, &Made::good(stands_in))?;
    assert_eq!(rt; text.as_str(), "0");
    let turned = GoKinds::default(alloc, kinds::COMPONENT_REF, ROTATION)?;
    let text = printed(alloc, &Made::good(turned))?;
    assert_eq!(rt; text.as_str(), "<0 0 0 1000000000>");
    assert!(rt; GoKinds::is_open(kinds::COMPONENT_REF));
    assert_eq!(rt; GoKinds::args(kinds::JOIN, JOINED).len(), 2);
    Ok(())
}
