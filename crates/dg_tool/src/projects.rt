//! Projects, and what is printed of them.

/// A project by its files, the words of a run, its status and what it prints.
pub(crate) struct Case<'a> {
    pub(crate) files: &'a [(&'a str, &'a [u8])],
    pub(crate) words: &'a str,
    pub(crate) status: u8,
    pub(crate) text: &'a str,
}

const RECURSIVE: &[u8] =
    b"name: \"r\"\ncollection_instances {\nid: \"me\"\ncollection: \"/r.collection\"\n}\n";

const ALL_BAD: &[(&str, &[u8])] = &[
    ("/t.go", b"\ncomponents: ="),
    (
        "/a.go",
        b"components { id: \"a\" component: \"/none.sound\" }",
    ),
    (
        "/b.collection",
        b"name: \"b\"\ncollection_instances {\n  id: \"me\"\n  collection: \"/b.collection\"\n}\nembedded_instances { id: \"e\"\n data: \"components {\" }\ninstances { id: \"i\" prototype: \"/a.go\"\n children: \"i\"\n children: \"nobody\" }\n",
    ),
    ("/d.go", b"components {\n id: \"d\"\n"),
    ("/f.collection", b"name: \"f\" scale_along_z: 2"),
    ("/g.script", b"\xff"),
    ("/m.go", b"components { component: \"/s.script\" }"),
    ("/x/../y.go", b"="),
    ("/.hid/z.go", b"="),
    ("/build/q.go", b"="),
    ("/note.txt", b"="),
];

const ALL_BAD_CHECKED: &str = "bad /a.go 1 Absent
bad /b.collection 2 Recursive
bad /b.collection 6 Data
bad /b.collection 10 Absent
bad /d.go 1 Unclosed
bad /f.collection 1 Form
bad /g.script 0 Utf8
bad /m.go 1 Missing
bad /t.go 2 Token
nodes 14 arcs 7 bad 9
";

const NESTED: &[(&str, &[u8])] = &[
    ("/o.go", b""),
    (
        "/c.collection",
        b"name: \"c\"
instances { id: \"go\" prototype: \"/o.go\" children: \"kid\" position { x: 1 } }
instances { id: \"kid\" prototype: \"/o.go\" position { x: 1 } }
",
    ),
    (
        "/b.collection",
        b"name: \"b\"
collection_instances { id: \"b\" collection: \"/c.collection\" position { x: 10 } rotation { z: 0.70710677 w: 0.70710677 } }
",
    ),
    (
        "/a.collection",
        b"name: \"a\"
collection_instances { id: \"a\" collection: \"/b.collection\" position { y: 5 } }
",
    ),
    ("/e.txt", b"ask now /a.collection.flat"),
];

const DECLARED: &[(&str, &[u8])] = &[
    ("/p.script", b"go.property(\"speed\", 100)\n"),
    (
        "/p.go",
        b"components { id: \"p\" component: \"/p.script\" properties { id: \"speed\" value: \"250\" type: PROPERTY_TYPE_NUMBER } }",
    ),
    (
        "/m.collection",
        b"name: \"m\" instances { id: \"x\" prototype: \"/p.go\" component_properties { id: \"p\" properties { id: \"speed\" value: \"300\" type: PROPERTY_TYPE_NUMBER } } }",
    ),
    ("/q.go", b"components {"),
    (
        "/e.txt",
        b"ask now \"/p.go#p.component\"\nask now \"/m.collection#x/source.object\"\nask now \"/p.go#p:speed\"\nask now /q.go.object",
    ),
];

pub(crate) static PROJECTS: [Case<'static>; 9] = [
    Case {
        files: &[("/r.collection", RECURSIVE)],
        words: "check",
        status: 0,
        text: "bad /r.collection 2 Recursive\nnodes 2 arcs 1 bad 1\n",
    },
    Case {
        files: &[(
            "/x.go",
            b"components { id: \"a\" component: \"/none.sound\" }",
        )],
        words: "check",
        status: 0,
        text: "bad /x.go 1 Absent\nnodes 2 arcs 1 bad 1\n",
    },
    Case {
        files: &[],
        words: "check",
        status: 0,
        text: "nodes 0 arcs 0 bad 0\n",
    },
    Case {
        files: ALL_BAD,
        words: "check --",
        status: 0,
        text: ALL_BAD_CHECKED,
    },
    Case {
        files: NESTED,
        words: "run /e.txt --workers 0",
        status: 0,
        text: "1: ({id: \"/a/b/go\", child: false, children: (\"/a/b/kid\"), position: [10.000000032, 5.999999968, 0], rotation: [0, 0, 0.70710677, 0.70710677], scale3: [1, 1, 1], object: {path: \"/o.go\", components: ()}}, {id: \"/a/b/kid\", child: true, children: (), position: [1, 0, 0], rotation: [0, 0, 0, 1], scale3: [1, 1, 1], object: {path: \"/o.go\", components: ()}})\n",
    },
    Case {
        files: DECLARED,
        words: "run /e.txt",
        status: 0,
        text: "bad /q.go 1 Unclosed
1: {id: \"p\", path: \"/p.script\", position: [0, 0, 0], rotation: [0, 0, 0, 1], props: (speed number \"250\")}
2: {path: \"/p.go\", components: ({id: \"p\", path: \"/p.script\", position: [0, 0, 0], rotation: [0, 0, 0, 1], props: (speed number \"300\")})}
3: speed number \"250\"
4: fault 4.object Defective
",
    },
    // The script is read before the project, and nothing is printed of one that isn't played.
    Case {
        files: &[("/r.collection", RECURSIVE), ("/e.txt", b"frob")],
        words: "run /e.txt",
        status: 3,
        text: "error: script line 1 Word\n",
    },
    Case {
        files: &[("/r.collection", RECURSIVE)],
        words: "run /e.txt",
        status: 2,
        text: "error: no input\n",
    },
    Case {
        files: &[("/r.collection", RECURSIVE), ("/e.txt", b"")],
        words: "run /e.txt",
        status: 0,
        text: "bad /r.collection 2 Recursive\n",
    },
];

/// Two game objects beside a script.
pub(crate) static FAILING: Case<'static> = Case {
    files: &[
        ("/a.go", b""),
        ("/b.go", b""),
        ("/e.txt", b"make Num a\nask now a.value\n"),
    ],
    words: "run /e.txt --workers 0",
    status: 4,
    text: "",
};

/// A build by the project's files, the words of a run, the numbers of the call of the files and of the put that fail (0 for
/// none), how many bytes a put takes, its status, what it prints, and what it leaves in build files (nothing for one that
/// isn't there).
pub(crate) struct Build<'a> {
    pub(crate) files: &'a [(&'a str, &'a [u8])],
    pub(crate) words: &'a str,
    pub(crate) failing_call: u64,
    pub(crate) failing_put: u64,
    pub(crate) most: usize,
    pub(crate) status: u8,
    pub(crate) text: &'a str,
    pub(crate) built: &'a [(&'a str, &'a str)],
}

const EMBEDDED: &[(&str, &[u8])] = &[(
    "/main/main.collection",
    b"name: \"main\"
scale_along_z: 0
embedded_instances {
  id: \"go\"
  data: \"embedded_components {\\n\"
  \"  id: \\\"sprite\\\"\\n\"
  \"  type: \\\"sprite\\\"\\n\"
  \"  data: \\\"default_animation: \\\\\\\"idle\\\\\\\"\\\\n\"
  \"\\\"\\n\"
  \"}\\n\"
  \"\"
  position {
    x: 10.5
  }
  rotation {
    z: 0.70710677
    w: 0.70710677
  }
}
",
)];

const COMPONENT: (&str, &str) = (
    "/build/default/main/main_component_0.spritec",
    "default_animation: \"idle\"\n",
);

const OBJECT: (&str, &str) = (
    "/build/default/main/main_object_0.goc",
    "object\ncomponent \"sprite\" \"/main/main_component_0.spritec\" 0 0 0 0 0 0 1\n",
);

const COLLECTION: (&str, &str) = (
    "/build/default/main/main.collectionc",
    "collection \"main\" 0\nobject \"/go\" \"/main/main_object_0.goc\" 10.5 0 0 0 0 0.70710677 0.70710677 1 1 1\n",
);

const REBUILT: &[(&str, &[u8])] = &[
    ("/p.script", b"go.property(\"speed\", 100)\n"),
    (
        "/p.go",
        b"components { id: \"p\" component: \"/p.script\" properties { id: \"speed\" value: \"250\" type: PROPERTY_TYPE_NUMBER } }",
    ),
    (
        "/m.collection",
        b"name: \"m\" instances { id: \"x\" prototype: \"/p.go\" component_properties { id: \"p\" properties { id: \"speed\" value: \"300\" type: PROPERTY_TYPE_NUMBER } } }",
    ),
    ("/build/default/p.goc", b"of yesterday"),
    ("/build/default/q.goc", b"of another"),
    (
        "/e.txt",
        b"build /m.collection\nset \"/p.go#p:speed\" number \"7\"\nbuild /p.go\nbuild /p.script\nbuild x\nmake GameObject g\nbuild g\n",
    ),
];

const OF_M: (&str, &str) = (
    "/build/default/m_object_0.goc",
    "object\ncomponent \"p\" \"/p.scriptc\" 0 0 0 0 0 0 1\nproperty \"speed\" number \"300\"\n",
);

const WHOLE_M: (&str, &str) = (
    "/build/default/m.collectionc",
    "collection \"m\" 0\nobject \"/x\" \"/m_object_0.goc\" 0 0 0 0 0 0 1 1 1 1\n",
);

const WHOLE_P: (&str, &str) = (
    "/build/default/p.goc",
    "object\ncomponent \"p\" \"/p.scriptc\" 0 0 0 0 0 0 1\nproperty \"speed\" number \"7\"\n",
);

const REBUILT_TEXT: &str = "1: built 2
2: ok
3: built 1
4: fault 1.build NoEndpoint
5: NoName
6: ok
7: fault 8.build BadName
";

const PLACED: (&str, &str) = (
    "/build/default/a.collectionc",
    "collection \"a\" 0
object \"/a/b/go\" \"/a_object_0.goc\" 10.000000032 5.999999968 0 0 0 0.70710677 0.70710677 1 1 1
child \"/a/b/kid\"
object \"/a/b/kid\" \"/a_object_0.goc\" 1 0 0 0 0 0 1 1 1 1
",
);

pub(crate) static BUILDS: [Build<'static>; 9] = [
    Build {
        files: EMBEDDED,
        words: "build /main/main.collection --workers 0",
        failing_call: 0,
        failing_put: 0,
        most: 4096,
        status: 0,
        text: "1: built 3\n",
        built: &[COMPONENT, OBJECT, COLLECTION],
    },
    // After the list and the read of the collection the third call writes the component, the fourth the object.
    Build {
        files: EMBEDDED,
        words: "build main/main.collection",
        failing_call: 4,
        failing_put: 0,
        most: 4096,
        status: 4,
        text: "",
        built: &[
            COMPONENT,
            ("/build/default/main/main_object_0.goc", ""),
            ("/build/default/main/main.collectionc", ""),
        ],
    },
    Build {
        files: EMBEDDED,
        words: "build main/main.collection",
        failing_call: 0,
        failing_put: 3,
        most: 1,
        status: 5,
        text: "1:",
        built: &[COMPONENT, OBJECT, COLLECTION],
    },
    Build {
        files: REBUILT,
        words: "run /e.txt",
        failing_call: 0,
        failing_put: 0,
        most: 1,
        status: 0,
        text: REBUILT_TEXT,
        built: &[
            OF_M,
            WHOLE_M,
            WHOLE_P,
            ("/build/default/q.goc", "of another"),
        ],
    },
    // The fifth call behind the script's read and the list is the first write, the seventh the third one.
    Build {
        files: REBUILT,
        words: "run /e.txt",
        failing_call: 8,
        failing_put: 0,
        most: 4096,
        status: 4,
        text: "1: built 2\n2: ok\n",
        built: &[OF_M, WHOLE_M, ("/build/default/p.goc", "of yesterday")],
    },
    Build {
        files: REBUILT,
        words: "build m.collection --workers 0",
        failing_call: 0,
        failing_put: 0,
        most: 4096,
        status: 0,
        text: "1: built 2\n",
        built: &[OF_M, WHOLE_M, ("/build/default/p.goc", "of yesterday")],
    },
    Build {
        files: REBUILT,
        words: "build none.collection",
        failing_call: 0,
        failing_put: 0,
        most: 4096,
        status: 0,
        text: "1: NoName\n",
        built: &[("/build/default/m_object_0.goc", "")],
    },
    Build {
        files: &[("/r.collection", RECURSIVE)],
        words: "build /r.collection --workers 0",
        failing_call: 0,
        failing_put: 0,
        most: 4096,
        status: 0,
        text: "bad /r.collection 2 Recursive\n1: fault 2.instance Defective\n",
        built: &[("/build/default/r.collectionc", "")],
    },
    // A collection in a collection: what is placed and turned above stands in one row.
    Build {
        files: NESTED,
        words: "build /a.collection --workers 0",
        failing_call: 0,
        failing_put: 0,
        most: 4096,
        status: 0,
        text: "1: built 2\n",
        built: &[("/build/default/a_object_0.goc", "object\n"), PLACED],
    },
];
