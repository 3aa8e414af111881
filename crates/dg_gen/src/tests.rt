//! Projects of some seeds and sizes.
use crate::{Project, project};
use std::alloc::{AllocError, Global};
use std::test::Fail;

/// A text somewhere in a project: that of the file with this number, whose path is said too, or the script, or a part of
/// the script from its begin or to its end.
enum Part {
    File(usize, &'static str, &'static str),
    Script(&'static str),
    Begin(&'static str),
    End(&'static str),
}

use Part::{Begin, End, File, Script};

/// A seed, a size, how many files there are, and parts of the project.
type Case = (u64, u32, usize, &'static [Part]);

#[rattlefmt::skip]
static CASES: [Case; 6] = [
    (7, 1, 3, &[
        File(0, "/g/s0.script", "go.property(\"speed\", 64)\n"),
        File(1, "/g/o0.go", "components {\n  id: \"s\"\n  component: \"/g/s0.script\"\n}\n"),
        File(2, "/g/c0.collection", "name: \"c0\"\ninstances {\n  id: \"a\"\n  prototype: \"/g/o0.go\"\n  position {\n    x: 6\n  }\n}\n"),
        Script("set /g/c0.collection#a.position vec3 68 0 0\npin p0\nset /g/o0.go#s:speed number \"74\"\nask p0 /g/c0.collection.flat\nundo\nask now /g/c0.collection.flat\nredo\nbuild /g/c0.collection\n"),
    ]),
    (7, 2, 6, &[
        File(0, "/g/s0.script", "go.property(\"speed\", 64)\n"),
        File(2, "/g/s1.script", "go.property(\"speed\", 6)\n"),
        File(3, "/g/o1.go", "components {\n  id: \"s\"\n  component: \"/g/s1.script\"\n}\n"),
        File(4, "/g/c0.collection", "name: \"c0\"\ninstances {\n  id: \"a\"\n  prototype: \"/g/o0.go\"\n  position {\n    x: 68\n  }\n}\n"),
        File(5, "/g/c1.collection", "name: \"c1\"\ninstances {\n  id: \"a\"\n  prototype: \"/g/o1.go\"\n  position {\n    x: 74\n  }\n}\ncollection_instances {\n  id: \"b\"\n  collection: \"/g/c0.collection\"\n  position {\n    x: 31\n  }\n}\n"),
        Script("set /g/c0.collection#a.position vec3 65 0 0\npin p0\nset /g/o0.go#s:speed number \"34\"\nask p0 /g/c1.collection.flat\nundo\nask now /g/c1.collection.flat\nredo\nset /g/c1.collection#a.position vec3 90 0 0\npin p1\nset /g/o1.go#s:speed number \"85\"\nask p1 /g/c1.collection.flat\nundo\nask now /g/c1.collection.flat\nredo\nbuild /g/c1.collection\n"),
    ]),
    (7, 16, 48, &[
        File(30, "/g/s15.script", "go.property(\"speed\", 22)\n"),
        File(47, "/g/c15.collection", "name: \"c15\"\ninstances {\n  id: \"a\"\n  prototype: \"/g/o15.go\"\n  position {\n    x: 26\n  }\n}\ncollection_instances {\n  id: \"b\"\n  collection: \"/g/c14.collection\"\n  position {\n    x: 6\n  }\n}\n"),
        Begin("set /g/c0.collection#a.position vec3 4 0 0\npin p0\nset /g/o0.go#s:speed number \"50\"\nask p0 /g/c15.collection.flat\n"),
        End("set /g/c15.collection#a.position vec3 60 0 0\npin p15\nset /g/o15.go#s:speed number \"84\"\nask p15 /g/c15.collection.flat\nundo\nask now /g/c15.collection.flat\nredo\nbuild /g/c15.collection\n"),
    ]),
    (7, 64, 192, &[
        File(126, "/g/s63.script", "go.property(\"speed\", 4)\n"),
        File(191, "/g/c63.collection", "name: \"c63\"\ninstances {\n  id: \"a\"\n  prototype: \"/g/o63.go\"\n  position {\n    x: 8\n  }\n}\ncollection_instances {\n  id: \"b\"\n  collection: \"/g/c62.collection\"\n  position {\n    x: 80\n  }\n}\n"),
        Begin("set /g/c0.collection#a.position vec3 70 0 0\npin p0\nset /g/o0.go#s:speed number \"36\"\n"),
        End("vec3 49 0 0\npin p63\nset /g/o63.go#s:speed number \"30\"\nask p63 /g/c63.collection.flat\nundo\nask now /g/c63.collection.flat\nredo\nbuild /g/c63.collection\n"),
    ]),
    // A zero is written too.
    (80, 1, 3, &[
        File(2, "/g/c0.collection", "name: \"c0\"\ninstances {\n  id: \"a\"\n  prototype: \"/g/o0.go\"\n  position {\n    x: 0\n  }\n}\n"),
    ]),
    // The greatest seed.
    (18446744073709551615, 1, 3, &[File(0, "/g/s0.script", "go.property(\"speed\", 29)\n"), Begin("set /g/c0.collection#a.position vec3 62 0 0\n")]),
];

fn has_part(project: &Project, part: &Part) -> bool {
    let script = project.script.as_slice();
    match part {
        File(place, path, text) => match project.files.get(*place) {
            Some(file) => {
                let named = file.0.as_str() == *path;
                named & (file.1.as_slice() == text.as_bytes())
            }
            None => false,
        },
        Script(text) => script == text.as_bytes(),
        Begin(text) => script.starts_with(text.as_bytes()),
        End(text) => script.ends_with(text.as_bytes()),
    }
}

fn has_parts(project: &Project, parts: &[Part]) -> bool {
    let mut all = true;
    for part in parts {
        all = all & has_part(project, part);
    }
    all
}

fn is_as_said(alloc: Global, case: &Case) -> Result<bool, AllocError> {
    if case.1 < 1 {
        return Ok(false);
    }
    let project = project(alloc, case.0, case.1)?;
    Ok(has_parts(&project, case.3) & (project.files.len() == case.2))
}

#[test]
fn projects_of_seeds_and_sizes(rt: HostRuntime) -> Result<(), Fail> {
    for case in &CASES {
        assert!(rt; is_as_said(rt.alloc(), case)?);
    }
    Ok(())
}
