//! Loads of small projects.
use crate::whole::load;
use dg_base::{Names, Refusal};
use dg_files::{MemFiles, are_distinct};
use std::alloc::{AllocError, Global};
use std::test::Fail;

/// Files, each with its path and its bytes.
type Project = &'static [(&'static str, &'static [u8])];

/// Projects, with the steps and the bound names of their loads.
static STEPS: [(Project, &'static str); 2] = [
    (
        &[
            ("/p.script", b"go.property(\"speed\", 100)"),
            (
                "/p.go",
                b"components { id: \"p\" component: \"/p.script\" properties { id: \"speed\" value: \"250\" type: PROPERTY_TYPE_NUMBER } }",
            ),
            (
                "/m.collection",
                b"name: \"m\" instances { id: \"x\" prototype: \"/p.go\" component_properties { id: \"p\" properties { id: \"speed\" value: \"300\" type: PROPERTY_TYPE_NUMBER } } }",
            ),
        ],
        "[Make { kind: Kind(6) }, Set { node: New(0), label: Label(9), value: Text(Str { text: \"/p.script\" }) }, Set { node: New(0), label: Label(1024), value: Prop(PropVal { name: Label(1024), ptype: Number, text: Str { text: \"100\" } }) }, Make { kind: Kind(7) }, Set { node: New(1), label: Label(9), value: Text(Str { text: \"/p.go\" }) }, Make { kind: Kind(8) }, Set { node: New(2), label: Label(11), value: Text(Str { text: \"p\" }) }, Set { node: New(2), label: Label(1024), value: Prop(PropVal { name: Label(1024), ptype: Number, text: Str { text: \"250\" } }) }, Connect { src: New(0), label: Label(10), node: New(2), input: Label(10) }, Connect { src: New(2), label: Label(16), node: New(1), input: Label(17) }, Make { kind: Kind(12) }, Set { node: New(3), label: Label(9), value: Text(Str { text: \"/m.collection\" }) }, Set { node: New(3), label: Label(24), value: Text(Str { text: \"m\" }) }, Make { kind: Kind(10) }, Set { node: New(4), label: Label(11), value: Text(Str { text: \"x\" }) }, Override { root: New(1) }, Set { node: In { root: Boxed { inner: New(5) }, original: Boxed { inner: New(2) } }, label: Label(1024), value: Prop(PropVal { name: Label(1024), ptype: Number, text: Str { text: \"300\" } }) }, Connect { src: New(5), label: Label(18), node: New(4), input: Label(21) }, Connect { src: New(4), label: Label(23), node: New(3), input: Label(26) }] [Bound { name: Str { text: \"/p.script\" }, node: 0 }, Bound { name: Str { text: \"/p.go\" }, node: 1 }, Bound { name: Str { text: \"/p.go#p\" }, node: 2 }, Bound { name: Str { text: \"/m.collection\" }, node: 3 }, Bound { name: Str { text: \"/m.collection#x\" }, node: 4 }, Bound { name: Str { text: \"/m.collection#x/source\" }, node: 5 }]",
    ),
    (
        &[
            (
                "/o.go",
                b"embedded_components { id: \"a\" type: \"t\" data: \"d\" position { x: 1 } }\ncomponents { id: \"a\" component: \"/builtins/q\" rotation { z: 1 w: 0 } }\ncomponents { id: \"b\" component: \"/builtins/q\" }\ncomponents { id: \"b\" component: \"/l.png\" }",
            ),
            ("/l.png", b""),
            (
                "/c.collection",
                b"name: \"c\" scale_along_z: 1\nembedded_instances { id: \"e\" data: \"components { id: \\\"k\\\" component: \\\"/l.png\\\" }\" children: \"i\" scale: 2 }\ninstances { id: \"i\" prototype: \"/o.go\" children: \"e\" children: \"i\" scale3 { x: 3 }\ncomponent_properties { id: \"a\" properties { id: \"no\" value: \"1\" type: PROPERTY_TYPE_HASH } } component_properties { id: \"b\" properties { id: \"yes\" value: \"2\" type: PROPERTY_TYPE_URL } } }",
            ),
            (
                "/b.collection",
                b"name: \"b\" collection_instances { id: \"s\" collection: \"/c.collection\" instance_properties { id: \"/e\" properties { id: \"k\" properties { id: \"deep\" value: \"3\" type: PROPERTY_TYPE_QUAT } } } }",
            ),
            (
                "/a.collection",
                b"name: \"a\" collection_instances { id: \"t\" collection: \"/b.collection\" instance_properties { id: \"s/i\" properties { id: \"b\" properties { id: \"deep\" value: \"4\" type: PROPERTY_TYPE_BOOLEAN } } } instance_properties { id: \"s//i\" properties { id: \"b\" properties { id: \"none\" value: \"5\" type: PROPERTY_TYPE_NUMBER } } } instance_properties { id: \"i\" properties { id: \"b\" properties { id: \"none\" value: \"6\" type: PROPERTY_TYPE_NUMBER } } } }",
            ),
        ],
        "[Make { kind: Kind(7) }, Set { node: New(0), label: Label(9), value: Text(Str { text: \"/o.go\" }) }, Make { kind: Kind(5) }, Set { node: New(1), label: Label(9), value: Text(Str { text: \"/builtins/q\" }) }, Make { kind: Kind(8) }, Set { node: New(2), label: Label(11), value: Text(Str { text: \"a\" }) }, Set { node: New(2), label: Label(15), value: Quat(V4 { x: 0, y: 0, z: 1000000000, w: 0 }) }, Connect { src: New(1), label: Label(10), node: New(2), input: Label(10) }, Connect { src: New(2), label: Label(16), node: New(0), input: Label(17) }, Make { kind: Kind(8) }, Set { node: New(3), label: Label(11), value: Text(Str { text: \"b\" }) }, Connect { src: New(1), label: Label(10), node: New(3), input: Label(10) }, Connect { src: New(3), label: Label(16), node: New(0), input: Label(17) }, Make { kind: Kind(5) }, Set { node: New(4), label: Label(9), value: Text(Str { text: \"/l.png\" }) }, Make { kind: Kind(8) }, Set { node: New(5), label: Label(11), value: Text(Str { text: \"b\" }) }, Connect { src: New(4), label: Label(10), node: New(5), input: Label(10) }, Connect { src: New(5), label: Label(16), node: New(0), input: Label(17) }, Make { kind: Kind(9) }, Set { node: New(6), label: Label(11), value: Text(Str { text: \"a\" }) }, Set { node: New(6), label: Label(12), value: Text(Str { text: \"t\" }) }, Set { node: New(6), label: Label(13), value: Text(Str { text: \"d\" }) }, Set { node: New(6), label: Label(14), value: Vec3(V3 { x: 1000000000, y: 0, z: 0 }) }, Connect { src: New(6), label: Label(16), node: New(0), input: Label(17) }, Make { kind: Kind(12) }, Set { node: New(7), label: Label(9), value: Text(Str { text: \"/a.collection\" }) }, Set { node: New(7), label: Label(24), value: Text(Str { text: \"a\" }) }, Make { kind: Kind(12) }, Set { node: New(8), label: Label(9), value: Text(Str { text: \"/b.collection\" }) }, Set { node: New(8), label: Label(24), value: Text(Str { text: \"b\" }) }, Make { kind: Kind(12) }, Set { node: New(9), label: Label(9), value: Text(Str { text: \"/c.collection\" }) }, Set { node: New(9), label: Label(24), value: Text(Str { text: \"c\" }) }, Set { node: New(9), label: Label(25), value: Flag(true) }, Make { kind: Kind(10) }, Set { node: New(10), label: Label(11), value: Text(Str { text: \"i\" }) }, Set { node: New(10), label: Label(20), value: Vec3(V3 { x: 3000000000, y: 1000000000, z: 1000000000 }) }, Override { root: New(0) }, Set { node: In { root: Boxed { inner: New(11) }, original: Boxed { inner: New(5) } }, label: Label(1024), value: Prop(PropVal { name: Label(1024), ptype: Url, text: Str { text: \"2\" } }) }, Connect { src: New(11), label: Label(18), node: New(10), input: Label(21) }, Connect { src: New(10), label: Label(23), node: New(9), input: Label(26) }, Make { kind: Kind(10) }, Set { node: New(12), label: Label(11), value: Text(Str { text: \"e\" }) }, Set { node: New(12), label: Label(20), value: Vec3(V3 { x: 2000000000, y: 2000000000, z: 2000000000 }) }, Make { kind: Kind(7) }, Make { kind: Kind(8) }, Set { node: New(14), label: Label(11), value: Text(Str { text: \"k\" }) }, Connect { src: New(4), label: Label(10), node: New(14), input: Label(10) }, Connect { src: New(14), label: Label(16), node: New(13), input: Label(17) }, Connect { src: New(13), label: Label(18), node: New(12), input: Label(21) }, Connect { src: New(12), label: Label(23), node: New(9), input: Label(26) }, Connect { src: New(12), label: Label(11), node: New(10), input: Label(22) }, Connect { src: New(10), label: Label(11), node: New(10), input: Label(22) }, Connect { src: New(10), label: Label(11), node: New(12), input: Label(22) }, Make { kind: Kind(11) }, Set { node: New(15), label: Label(11), value: Text(Str { text: \"s\" }) }, Override { root: New(9) }, Set { node: In { root: Boxed { inner: New(16) }, original: Boxed { inner: New(14) } }, label: Label(1025), value: Prop(PropVal { name: Label(1025), ptype: Quat, text: Str { text: \"3\" } }) }, Connect { src: New(16), label: Label(28), node: New(15), input: Label(21) }, Connect { src: New(15), label: Label(23), node: New(8), input: Label(27) }, Make { kind: Kind(11) }, Set { node: New(17), label: Label(11), value: Text(Str { text: \"t\" }) }, Override { root: New(8) }, Set { node: In { root: Boxed { inner: New(18) }, original: Boxed { inner: In { root: Boxed { inner: New(16) }, original: Boxed { inner: In { root: Boxed { inner: New(11) }, original: Boxed { inner: New(5) } } } } } }, label: Label(1025), value: Prop(PropVal { name: Label(1025), ptype: Boolean, text: Str { text: \"4\" } }) }, Connect { src: New(18), label: Label(28), node: New(17), input: Label(21) }, Connect { src: New(17), label: Label(23), node: New(7), input: Label(27) }] [Bound { name: Str { text: \"/o.go\" }, node: 0 }, Bound { name: Str { text: \"/o.go#a\" }, node: 2 }, Bound { name: Str { text: \"/o.go#b\" }, node: 3 }, Bound { name: Str { text: \"/o.go#b\" }, node: 5 }, Bound { name: Str { text: \"/o.go#a\" }, node: 6 }, Bound { name: Str { text: \"/a.collection\" }, node: 7 }, Bound { name: Str { text: \"/b.collection\" }, node: 8 }, Bound { name: Str { text: \"/c.collection\" }, node: 9 }, Bound { name: Str { text: \"/c.collection#i\" }, node: 10 }, Bound { name: Str { text: \"/c.collection#i/source\" }, node: 11 }, Bound { name: Str { text: \"/c.collection#e\" }, node: 12 }, Bound { name: Str { text: \"/c.collection#e/source\" }, node: 13 }, Bound { name: Str { text: \"/c.collection#e/source#k\" }, node: 14 }, Bound { name: Str { text: \"/b.collection#s\" }, node: 15 }, Bound { name: Str { text: \"/b.collection#s/source\" }, node: 16 }, Bound { name: Str { text: \"/a.collection#t\" }, node: 17 }, Bound { name: Str { text: \"/a.collection#t/source\" }, node: 18 }]",
    ),
];

/// Projects, with their bad places.
static BAD: [(Project, &'static str); 5] = [
    (
        &[(
            "/r.collection",
            b"name: \"r\"\ncollection_instances {\nid: \"me\"\ncollection: \"/r.collection\"\n}",
        )],
        "/r.collection 2 Recursive\n",
    ),
    (
        &[
            (
                "/c.collection",
                b"name: \"c\"\ncollection_instances { id: \"d\" collection: \"/d.collection\" }",
            ),
            (
                "/d.collection",
                b"name: \"d\"\n\ncollection_instances { id: \"c\" collection: \"/c.collection\" }\ncollection_instances { id: \"b\" collection: \"/b.collection\" }\ncollection_instances { id: \"e\" collection: \"/e.collection\" }",
            ),
            ("/b.collection", b"name: 1"),
        ],
        "/b.collection 1 Form\n/d.collection 3 Recursive\n/d.collection 5 Absent\n",
    ),
    (
        &[
            ("/a.script", b"go.property(\"a\", 1)\xff"),
            ("/b.go", b"\ncomponents { ) }"),
            ("/c.go", b"\n\ncomponents { id: \"x\" }"),
            ("/d.collection", b"name:\n\"x\" instances {\nid: 1 }"),
            ("/e.collection", b"name: \"x\"\ninstances {\n"),
            (
                "/f.go",
                b"a {a {a {a {a {a {a {a {a {a {a {a {a {a {a {a {a {a {a {a {a {a {a {a {a {a {a {a {a {a {a {a {a {a {a {a {a {a {a {a {a {a {a {a {a {a {a {a {a {a {a {a {a {a {a {a {a {a {a {a {a {a {a {a {a {",
            ),
            ("/g.go", b"\xc0"),
        ],
        "/a.script 0 Utf8\n/b.go 2 Token\n/c.go 3 Missing\n/d.collection 3 Form\n/e.collection 2 Unclosed\n/f.go 1 Nesting\n/g.go 0 Utf8\n",
    ),
    (
        &[
            (
                "/x/b.go",
                b"components { id: \"q\"\ncomponent: \"/none.script\" }\ncomponents { id: \"r\" component: \"/x/b.go\" }",
            ),
            (
                "/x/a.collection",
                b"name: \"a\"\n\nembedded_instances {\nid: \"e\"\ndata: \"components {\"\nchildren: \"none\"\n}\nembedded_instances { id: \"g\" data: \"components { id: \\\"i\\\" component: \\\"/no\\\" }\\n\\ncomponents { id: \\\"i\\\" component: \\\"/no\\\" }\" }\ninstances { id: \"h\" prototype: \"/none.go\" children: \"e\" }",
            ),
        ],
        "/x/a.collection 3 Data\n/x/a.collection 6 Absent\n/x/a.collection 8 Absent\n/x/a.collection 8 Absent\n/x/a.collection 9 Absent\n/x/b.go 1 Absent\n",
    ),
    (
        &[
            ("/../a.go", b"x"),
            ("a.go", b"x"),
            ("/build/a.go", b"x"),
            ("/.h/a.go", b"x"),
            ("/b//c.go", b"x"),
            ("/a.gox", b"x"),
            ("/A.go", b"x"),
            ("/a.go.script", b""),
        ],
        "/A.go 1 Token\n",
    ),
];

/// The files of a project, of which one call fails.
fn files_of(
    alloc: Global,
    project: &[(&str, &[u8])],
    failing: u64,
) -> Result<MemFiles, AllocError> {
    let mut tree = Vec::new(alloc);
    for (path, bytes) in project {
        let bytes = Vec::from_slice(alloc, bytes)?;
        tree.push((String::from_str(alloc, path)?, bytes))?;
    }
    if !are_distinct(&tree) {
        return Err(AllocError);
    }
    Ok(MemFiles::new(alloc, tree, vec![in alloc; failing]?))
}

/// The steps of a load and the names that it binds, or why it ends.
fn steps_of(alloc: Global, project: &[(&str, &[u8])], failing: u64) -> Result<String, AllocError> {
    let mut files = files_of(alloc, project, failing)?;
    let mut names = Names::new(alloc);
    match load(alloc, &mut files, &mut names) {
        Ok(loaded) => {
            format!(in alloc;
                "{:?} {:?}",
                loaded.steps.as_slice(),
                loaded.bound.as_slice()
            )
        }
        Err(Refusal::Because(end)) => format!(in alloc; "{end:?}"),
        Err(Refusal::NoMemory) => Err(AllocError),
    }
}

/// The bad places of a load, a line for each.
fn bad_of(alloc: Global, project: &[(&str, &[u8])]) -> Result<String, AllocError> {
    let mut files = files_of(alloc, project, 0)?;
    let mut names = Names::new(alloc);
    let mut text = String::new(alloc);
    if let Ok(loaded) = load(alloc, &mut files, &mut names) {
        for bad in loaded.bad.as_slice() {
            let line = format!(in alloc; "{} {} {:?}\n", bad.path.as_str(), bad.line, bad.code)?;
            text.push_str(line.as_str())?;
        }
    }
    Ok(text)
}

#[test]
fn a_project_becomes_steps(rt: HostRuntime) -> Result<(), Fail> {
    let alloc = rt.alloc();
    for (project, expected) in STEPS {
        let steps = steps_of(alloc, project, 0)?;
        assert_eq!(rt; steps.as_str(), expected);
    }
    Ok(())
}

#[test]
fn bad_places_are_told_in_order(rt: HostRuntime) -> Result<(), Fail> {
    let alloc = rt.alloc();
    for (project, expected) in BAD {
        let places = bad_of(alloc, project)?;
        assert_eq!(rt; places.as_str(), expected);
    }
    Ok(())
}

#[test]
fn a_failing_call_ends_the_load(rt: HostRuntime) -> Result<(), Fail> {
    let alloc = rt.alloc();
    for (failing, expected) in [
        (1, "FileFault"),
        (2, "FileFault"),
        (
            3,
            "[Make { kind: Kind(12) }, Set { node: New(0), label: Label(9), value: Text(Str { text: \"/r.collection\" }) }, Set { node: New(0), label: Label(24), value: Text(Str { text: \"r\" }) }] [Bound { name: Str { text: \"/r.collection\" }, node: 0 }]",
        ),
    ] {
        let ended = steps_of(alloc, &[("/r.collection", b"name: 'r'")], failing)?;
        assert_eq!(rt; ended.as_str(), expected);
    }
    Ok(())
}
