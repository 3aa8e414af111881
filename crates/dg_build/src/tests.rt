//! Values of `build` outputs, and the files that are written for them.
use crate::{Targets, targets};
use dg_base::{Datum, Fields, Items, Label, Names, PType, PropVal, Str, V3, V4};
use dg_kinds_go::{push_field, push_item};
use dg_labels::labels::{
    CHILDREN, COMPONENTS, DATA, ENTRIES, ID, NAME, OBJECT, PATH, POSITION, PROPS, ROTATION,
    SCALE_ALONG_Z, SCALE3, TYPE,
};
use std::alloc::{AllocError, Global};
use std::test::Fail;

const ONE: i64 = 1_000_000_000;

/// A position, a rotation and a scale.
type Place = [i64; 10];

const HERE: Place = [0, 0, 0, 0, 0, 0, ONE, ONE, ONE, ONE];

const ASIDE: Place = [1, -2_500_000_000, 0, 0, ONE, 0, 0, ONE, ONE, 2_000_000_000];

/// Turned about z by a quarter with eight digits, at half past ten along x.
const TURNED: Place = [
    10_500_000_000,
    0,
    0,
    0,
    0,
    707_106_770,
    707_106_770,
    ONE,
    ONE,
    ONE,
];

const OUTSIDE: Place = [
    10_000_000_032,
    5_999_999_968,
    0,
    0,
    0,
    707_106_770,
    707_106_770,
    ONE,
    ONE,
    ONE,
];

const ALONG_X: Place = [ONE, 0, 0, 0, 0, 0, ONE, ONE, ONE, ONE];

/// A property's label, type and text.
type Prop = (u64, PType, &'static str);

/// A component with its id and what it is made of: a resource's path and properties, or a type and data.
enum Component {
    Ref(&'static str, Place, &'static str, &'static [Prop]),
    Embedded(&'static str, Place, &'static str, &'static str),
}

use Component::{Embedded, Ref};

/// An entry's id, children, place and components.
type Entry = (
    &'static str,
    &'static [&'static str],
    Place,
    &'static [Component],
);

/// A game object's path and components, or a collection's path, name, flag and entries.
enum Built {
    Object(&'static str, &'static [Component]),
    Collection(&'static str, &'static str, bool, &'static [Entry]),
}

/// A value, and the path and text of each file.
type Case = (Built, &'static [(&'static str, &'static str)]);

#[rattlefmt::skip]
static CASES: [Case; 11] = [
    (
        Built::Collection("/main/main.collection", "main", false, &[
            ("/go", &[], TURNED, &[Embedded("sprite", HERE, "sprite", "default_animation: \"idle\"\n")]),
        ]),
        &[
            ("/main/main_component_0.spritec", "default_animation: \"idle\"\n"),
            ("/main/main_object_0.goc", "object\ncomponent \"sprite\" \"/main/main_component_0.spritec\" 0 0 0 0 0 0 1\n"),
            ("/main/main.collectionc", "collection \"main\" 0\nobject \"/go\" \"/main/main_object_0.goc\" 10.5 0 0 0 0 0.70710677 0.70710677 1 1 1\n"),
        ],
    ),
    // A child stands behind its parent's line, and both have one text.
    (
        Built::Collection("/a.collection", "a", false, &[("/a/b/go", &["/a/b/kid"], OUTSIDE, &[]), ("/a/b/kid", &[], ALONG_X, &[])]),
        &[
            ("/a_object_0.goc", "object\n"),
            ("/a.collectionc", "collection \"a\" 0\nobject \"/a/b/go\" \"/a_object_0.goc\" 10.000000032 5.999999968 0 0 0 0.70710677 0.70710677 1 1 1\nchild \"/a/b/kid\"\nobject \"/a/b/kid\" \"/a_object_0.goc\" 1 0 0 0 0 0 1 1 1 1\n"),
        ],
    ),
    (
        Built::Collection("/m.collection", "m", false, &[("/x", &[], HERE, &[Ref("p", HERE, "/p.script", &[(1024, PType::Number, "300")])])]),
        &[
            ("/m_object_0.goc", "object\ncomponent \"p\" \"/p.scriptc\" 0 0 0 0 0 0 1\nproperty \"speed\" number \"300\"\n"),
            ("/m.collectionc", "collection \"m\" 0\nobject \"/x\" \"/m_object_0.goc\" 0 0 0 0 0 0 1 1 1 1\n"),
        ],
    ),
    (Built::Object("/p.go", &[]), &[("/p.goc", "object\n")]),
    (Built::Collection("/.collection", "", true, &[]), &[("/.collectionc", "collection \"\" 1\n")]),
    // Contents are numbered as they first appear, and equal data of another type are another content. The type
    // stands in the path. An empty type and empty data are a content too.
    (
        Built::Object("/a.b/x.y.go", &[
            Embedded("1", HERE, "sprite", "z"), Embedded("2", ASIDE, "label", "z"), Embedded("3", HERE, "sprite", "a"),
            Embedded("4", HERE, "sprite", "z"), Embedded("5", HERE, "", ""),
        ]),
        &[
            ("/a.b/x.y_component_0.spritec", "z"),
            ("/a.b/x.y_component_1.labelc", "z"),
            ("/a.b/x.y_component_2.spritec", "a"),
            ("/a.b/x.y_component_3.c", ""),
            ("/a.b/x.y.goc", "object\ncomponent \"1\" \"/a.b/x.y_component_0.spritec\" 0 0 0 0 0 0 1\ncomponent \"2\" \"/a.b/x.y_component_1.labelc\" 0.000000001 -2.5 0 0 1 0 0\ncomponent \"3\" \"/a.b/x.y_component_2.spritec\" 0 0 0 0 0 0 1\ncomponent \"4\" \"/a.b/x.y_component_0.spritec\" 0 0 0 0 0 0 1\ncomponent \"5\" \"/a.b/x.y_component_3.c\" 0 0 0 0 0 0 1\n"),
        ],
    ),
    // Quotes, bytes below 32 and a name that isn't interned. Properties stand behind their component.
    (
        Built::Object("/\"q\"\n.go", &[
            Ref("a\"b", HERE, "/\\.script", &[(1025, PType::Url, "\x01\t"), (1026, PType::Hash, "é"), (13, PType::Vector3, "1, 2, 3"), (999, PType::Boolean, "true")]),
            Embedded("c", HERE, "t", "\x00"),
            Ref("d", HERE, "/d.atlas", &[]),
        ]),
        &[
            ("/\"q\"\n_component_0.tc", "\x00"),
            ("/\"q\"\n.goc", "object\ncomponent \"a\\\"b\" \"/\\\\.scriptc\" 0 0 0 0 0 0 1\nproperty \"a b\\n\" url \"\\001\\t\"\nproperty \"1026\" hash \"é\"\nproperty \"data\" vector3 \"1, 2, 3\"\nproperty \"999\" boolean \"true\"\ncomponent \"c\" \"/\\\"q\\\"\\n_component_0.tc\" 0 0 0 0 0 0 1\ncomponent \"d\" \"/d.atlasc\" 0 0 0 0 0 0 1\n"),
        ],
    ),
    // Objects are numbered as they first appear. A content is shared by objects.
    (
        Built::Collection("/c.collection", "c\r", true, &[
            ("/z", &[], HERE, &[Ref("z", HERE, "/z.script", &[])]),
            ("/a", &["/z", "/\"", ""], ASIDE, &[Embedded("s", HERE, "sprite", "one")]),
            ("/z2", &[], HERE, &[Ref("z", HERE, "/z.script", &[])]),
            ("/b", &[], HERE, &[Embedded("s", ASIDE, "sprite", "one")]),
            ("/e", &[], HERE, &[]),
        ]),
        &[
            ("/c_component_0.spritec", "one"),
            ("/c_object_0.goc", "object\ncomponent \"z\" \"/z.scriptc\" 0 0 0 0 0 0 1\n"),
            ("/c_object_1.goc", "object\ncomponent \"s\" \"/c_component_0.spritec\" 0 0 0 0 0 0 1\n"),
            ("/c_object_2.goc", "object\ncomponent \"s\" \"/c_component_0.spritec\" 0.000000001 -2.5 0 0 1 0 0\n"),
            ("/c_object_3.goc", "object\n"),
            ("/c.collectionc", "collection \"c\\r\" 1\nobject \"/z\" \"/c_object_0.goc\" 0 0 0 0 0 0 1 1 1 1\nobject \"/a\" \"/c_object_1.goc\" 0.000000001 -2.5 0 0 1 0 0 1 1 2\nchild \"/z\"\nchild \"/\\\"\"\nchild \"\"\nobject \"/z2\" \"/c_object_0.goc\" 0 0 0 0 0 0 1 1 1 1\nobject \"/b\" \"/c_object_2.goc\" 0 0 0 0 0 0 1 1 1 1\nobject \"/e\" \"/c_object_3.goc\" 0 0 0 0 0 0 1 1 1 1\n"),
        ],
    ),
    // A game object and a collection of one stem have files of one path, of which a later one replaces an earlier
    // one. So have a collection and itself after a change.
    (
        Built::Object("/c.go", &[Embedded("s", HERE, "sprite", "two")]),
        &[("/c_component_0.spritec", "two"), ("/c.goc", "object\ncomponent \"s\" \"/c_component_0.spritec\" 0 0 0 0 0 0 1\n")],
    ),
    (
        Built::Collection("/c.collection", "c", false, &[("/e", &[], HERE, &[])]),
        &[("/c_object_0.goc", "object\n"), ("/c.collectionc", "collection \"c\" 0\nobject \"/e\" \"/c_object_0.goc\" 0 0 0 0 0 0 1 1 1 1\n")],
    ),
    // An ending stands at the end alone.
    (Built::Object("/c.collection.go", &[]), &[("/c.collection.goc", "object\n")]),
];

fn text(alloc: Global, text: &str) -> Result<Datum, AllocError> {
    Ok(Datum::Text(Str::of(String::from_str(alloc, text)?)))
}

fn push_place(fields: &mut Fields, place: &Place) -> Result<(), AllocError> {
    let position = V3 {
        x: place[0],
        y: place[1],
        z: place[2],
    };
    let rotation = V4 {
        x: place[3],
        y: place[4],
        z: place[5],
        w: place[6],
    };
    push_field(fields, POSITION, Datum::Vec3(position))?;
    push_field(fields, ROTATION, Datum::Quat(rotation))
}

fn props(alloc: Global, all: &[Prop]) -> Result<Items, AllocError> {
    let mut items = Items::new(alloc);
    for one in all {
        let prop = PropVal {
            name: Label(one.0),
            ptype: one.1,
            text: Str::of(String::from_str(alloc, one.2)?),
        };
        push_item(&mut items, Datum::Prop(prop))?;
    }
    Ok(items)
}

fn component_value(alloc: Global, of: &Component) -> Result<Datum, AllocError> {
    let mut fields = Fields::new(alloc);
    match of {
        Ref(id, place, path, all) => {
            push_field(&mut fields, ID, text(alloc, id)?)?;
            push_field(&mut fields, PATH, text(alloc, path)?)?;
            push_place(&mut fields, place)?;
            push_field(&mut fields, PROPS, Datum::List(props(alloc, all)?))?;
        }
        Embedded(id, place, kind, body) => {
            push_field(&mut fields, ID, text(alloc, id)?)?;
            push_field(&mut fields, TYPE, text(alloc, kind)?)?;
            push_field(&mut fields, DATA, text(alloc, body)?)?;
            push_place(&mut fields, place)?;
        }
    }
    Ok(Datum::Rec(fields))
}

fn object_value(alloc: Global, path: &str, components: &[Component]) -> Result<Datum, AllocError> {
    let mut all = Items::new(alloc);
    for one in components {
        push_item(&mut all, component_value(alloc, one)?)?;
    }
    let mut fields = Fields::new(alloc);
    push_field(&mut fields, PATH, text(alloc, path)?)?;
    push_field(&mut fields, COMPONENTS, Datum::List(all))?;
    Ok(Datum::Rec(fields))
}

fn texts(alloc: Global, all: &[&str]) -> Result<Items, AllocError> {
    let mut items = Items::new(alloc);
    for one in all {
        push_item(&mut items, text(alloc, one)?)?;
    }
    Ok(items)
}

fn entry_value(alloc: Global, of: &Entry) -> Result<Datum, AllocError> {
    let mut fields = Fields::new(alloc);
    push_field(&mut fields, ID, text(alloc, of.0)?)?;
    push_field(&mut fields, CHILDREN, Datum::List(texts(alloc, of.1)?))?;
    push_place(&mut fields, &of.2)?;
    let scale = V3 {
        x: of.2[7],
        y: of.2[8],
        z: of.2[9],
    };
    push_field(&mut fields, SCALE3, Datum::Vec3(scale))?;
    push_field(&mut fields, OBJECT, object_value(alloc, "", of.3)?)?;
    Ok(Datum::Rec(fields))
}

fn collection_value(
    alloc: Global,
    path: &str,
    name: &str,
    along_z: bool,
    entries: Items,
) -> Result<Datum, AllocError> {
    let mut fields = Fields::new(alloc);
    push_field(&mut fields, PATH, text(alloc, path)?)?;
    push_field(&mut fields, NAME, text(alloc, name)?)?;
    push_field(&mut fields, SCALE_ALONG_Z, Datum::Flag(along_z))?;
    push_field(&mut fields, ENTRIES, Datum::List(entries))?;
    Ok(Datum::Rec(fields))
}

fn built_value(alloc: Global, of: &Built) -> Result<Datum, AllocError> {
    match of {
        Built::Object(path, components) => object_value(alloc, path, components),
        Built::Collection(path, name, along_z, entries) => {
            let mut all = Items::new(alloc);
            for one in *entries {
                push_item(&mut all, entry_value(alloc, one)?)?;
            }
            collection_value(alloc, path, name, *along_z, all)
        }
    }
}

/// Two open names.
fn names(alloc: Global) -> Result<Names, AllocError> {
    let mut names = Names::new(alloc);
    names.intern("speed")?;
    names.intern("a b\n")?;
    Ok(names)
}

fn are_targets(files: &Targets, expected: &[(&str, &str)]) -> bool {
    let mut same = files.as_slice().len() == expected.len();
    for (file, of) in files.as_slice().iter().zip(expected) {
        let path = file.path.as_str() == of.0;
        same = same & path & (file.bytes.as_slice() == of.1.as_bytes());
    }
    same
}

/// The place of the first case that gives other files.
fn first_other(alloc: Global, cases: &[Case]) -> Result<Option<usize>, AllocError> {
    let names = names(alloc)?;
    let mut place = 0usize;
    for case in cases {
        let files = targets(alloc, &built_value(alloc, &case.0)?, &names)?;
        if !are_targets(&files, case.1) {
            return Ok(Some(place));
        }
        place = place.saturating_add(1);
    }
    Ok(None)
}

#[test]
fn files_of_values(rt: HostRuntime) -> Result<(), Fail> {
    let other = first_other(rt.alloc(), &CASES)?;
    assert_eq!(rt; other, None);
    Ok(())
}

#[rattlefmt::skip]
static EQUAL: Entry = ("/o", &[], HERE, &[Embedded("s", HERE, "sprite", "one")]);

fn files_of_equals(alloc: Global, count: u32) -> Result<usize, AllocError> {
    let mut entries = Items::new(alloc);
    for _ in 0..count {
        push_item(&mut entries, entry_value(alloc, &EQUAL)?)?;
    }
    let value = collection_value(alloc, "/many.collection", "many", false, entries)?;
    let names = Names::new(alloc);
    Ok(targets(alloc, &value, &names)?.as_slice().len())
}

#[test]
fn many_equal_objects_have_one_file(rt: HostRuntime) -> Result<(), Fail> {
    let files = files_of_equals(rt.alloc(), 10_000)?;
    assert_eq!(rt; files, 3);
    Ok(())
}
