//! Scripts and files with what they print, and words with how they end.

pub(crate) const FIRST: &str = "make Num a
make Num b
make Sum s
set a.value 3
set b.value 4
connect a.value s.terms
connect b.value s.terms
ask now s.total
";

pub(crate) const FIRST_LINES: &str = "1: ok
2: ok
3: ok
4: ok
5: ok
6: ok
7: ok
8: 7
";

pub(crate) const TEN: &str = "make Num a
make Num b
make Num c
make Num d
make Num e
make Num f
make Num g
make Num h
make Num i
make Num j
make Sum s
set a.value 999999999
set b.value 999999999
set c.value 999999999
set d.value 999999999
set e.value 999999999
set f.value 999999999
set g.value 999999999
set h.value 999999999
set i.value 999999999
set j.value 999999999
connect a.value s.terms
connect b.value s.terms
connect c.value s.terms
connect d.value s.terms
connect e.value s.terms
connect f.value s.terms
connect g.value s.terms
connect h.value s.terms
connect i.value s.terms
ask now s.total
connect j.value s.terms
ask now s.total
";

pub(crate) static SPELLED: [(&str, &str); 6] = [
    ("", ""),
    ("\n# a comment\n \t\r\n", ""),
    ("\r\n  # a comment\nmake Num a\n", "3: ok\n"),
    (
        "\"make\" \"Sum\" \"s\"\n\"ask\"\t\"now\" \"s.total\"",
        "1: ok\n2: 0\n",
    ),
    (
        "make  Num  _a1\r\nset _a1.value 1.5e0\r\nmake Sum s\r\nconnect _a1.value s.terms\r\nask now s.total\r\n",
        "1: ok\n2: ok\n3: ok\n4: ok\n5: 1.5\n",
    ),
    ("begin\n\n# none\nend", "1: Empty\n"),
];

/// Faults and what stands in for them, cycles, kinds and types.
pub(crate) static GRAPHS: [(&str, &str); 5] = [
    (
        "make Num a\nmake Sum s\nmake Sum t\nconnect a.value s.terms\nconnect s.total t.terms\nask now t.total\nask now s.total\nask now t.total",
        "1: ok\n2: ok\n3: ok\n4: ok\n5: ok\n6: 0\n7: 0\n8: 0\n",
    ),
    (
        "make Num a\nmake Num b\nmake Sum s\nset a.value 9223372036.854775807\nset b.value 9223372036.854775807\nconnect a.value s.terms\nconnect b.value s.terms\nask now s.total\nmake Sum u\nconnect s.total u.extra\nask now u.total",
        "1: ok\n2: ok\n3: ok\n4: ok\n5: ok\n6: ok\n7: ok\n8: fault 3.total Range\n9: ok\n10: ok\n11: 0\n",
    ),
    (
        "make Sum p\nconnect p.total p.terms\nmake Sum q\nconnect p.total q.extra\nask now q.total\nask now p.total",
        "1: ok\n2: ok\n3: ok\n4: ok\n5: cycle\n6: cycle\n",
    ),
    (
        "make Num a\nmake Sum s\nbegin\nconnect a.value s.terms\nconnect a.value s.terms\nend\ndisconnect a.value s.terms\ndisconnect a.value s.terms\nconnect a.value s.value\nset a.value \"x\"",
        "1: ok\n2: ok\n3: ok\n7: ok\n8: refused step 1 NoArc\n9: refused step 1 NotInput\n10: refused step 1 ValueType\n",
    ),
    (
        "make Num a\ndefective a on\nask now a.value\ndefective a off\nask now a.value\nmake Text t\nconnect t.text a.value\nmake Join j\nconnect t.text j.parts\nconnect t.text j.total\nconnect a.value j.parts\nconnect j.parts j.parts\nclear a.value\nclear a.text\nclear a:speed\nmake ScriptFile f\nset f:speed number \"1\"\nask now f:speed\nclear f:speed\nask now f:speed\nask now f.resource\nask now a.child\nask now a.1",
        "1: ok\n2: ok\n3: 0\n4: ok\n5: 0\n6: ok\n7: refused step 1 NotInput\n8: ok\n9: ok\n10: refused step 1 NotInput\n11: refused step 1 ArcType\n12: refused step 1 NotOutput\n13: ok\n14: refused step 1 NotProperty\n15: refused step 1 NotProperty\n16: ok\n17: ok\n18: speed number \"1\"\n19: ok\n20: fault 4:speed NoEndpoint\n21: {path: \"\", props: ()}\n22: fault 1.child NoEndpoint\n23: NoLabel\n",
    ),
];

/// What is refused before a transaction is tried, and what is kept of it.
pub(crate) static NAMES: [(&str, &str); 5] = [
    (
        "make Num a\nmake Num b\ndelete b\nbegin\nset a.value 5\nmake Num c\nset b.value 1\nend\nask now a.value",
        "1: ok\n2: ok\n3: ok\n4: refused step 3 NoNode\n9: 0\n",
    ),
    ("set a.value 1", "1: refused step 1 NoName\n"),
    (
        "make Num a\nask now b.value\nask now a.frob\nask now b.frob\nset a.frob 1\nconnect b.value a.frob\nconnect a.frob a.frob\nconnect a.value b.frob\nalias c b\nalias c a\nask now c.value\nask now a@a.value\nset a@a.value 1\ndelete a@b",
        "1: ok\n2: NoName\n3: NoLabel\n4: NoName\n5: refused step 1 NoLabel\n6: refused step 1 NoName\n7: refused step 1 NoLabel\n8: refused step 1 NoName\n9: NoName\n10: ok\n11: 0\n12: NoName\n13: refused step 1 NoNode\n14: refused step 1 NoName\n",
    ),
    (
        "make ScriptFile f\nbegin\nset f:speed number \"1\"\nset f:size number \"2\"\nset g:more number \"3\"\nend\nask now f:speed\nask now f:size\nask now f:more\nset f:x number \"1\"\nask now f:x\nbegin\nset f:y number \"4\"\ndelete f\nset f:z number \"2\"\nend\nask now f:y\nask now f:z\nask now f:x\nmake Num n\nset n:w number \"1\"\nask now f:w",
        "1: ok\n2: refused step 3 NoName\n7: fault 1:speed NoEndpoint\n8: fault 1:size NoEndpoint\n9: NoLabel\n10: ok\n11: x number \"1\"\n12: refused step 3 NoNode\n17: fault 1:y NoEndpoint\n18: fault 1:z NoEndpoint\n19: x number \"1\"\n20: ok\n21: refused step 1 NotProperty\n22: fault 1:w NoEndpoint\n",
    ),
    (
        "make Num a\nset a.value 1\nbegin\nmake Num a\nset a.value 2\nmake Num b\nset b.text \"x\"\nend\nask now a.value\nask now b.value\nbegin\nset a.value 3\nmake Num a\nset a.value 4\nend\nask now a.value\nbegin\nset b.value 1\nmake Num b\nend\nmake Num b\nbegin\ndelete b\nmake Num b\nset b.value 6\nend\nask now b.value\ndelete a\nask now a.value\nset a.value 1\nalias c a\nask now c.value",
        "1: ok\n2: ok\n3: refused step 4 NotProperty\n9: 1\n10: NoName\n11: ok\n16: 4\n17: refused step 1 NoName\n21: ok\n22: ok\n27: 6\n28: ok\n29: fault 2.value NoEndpoint\n30: refused step 1 NoNode\n31: ok\n32: fault 2.value NoEndpoint\n",
    ),
];

/// Owned nodes, and overrides of them.
pub(crate) static OVERRIDES: [(&str, &str); 4] = [
    (
        "make GameObject g\nmake ComponentEmbedded c\nset c.id \"c\"\nconnect c.component g.components\ndelete g\nask now c.id",
        "1: ok\n2: ok\n3: ok\n4: ok\n5: ok\n6: fault 2.id NoEndpoint\n",
    ),
    (
        "make GameObject g\nmake ComponentEmbedded c\nbegin\nset c.id \"c\"\nset c.type \"sprite\"\nconnect c.component g.components\nend\noverride o g\nalias oc c@o\nset c.data \"one\"\nask now oc.data\nset oc.data \"two\"\nset c.data \"three\"\nask now oc.data\nclear oc.data\nask now oc.data\ndelete o\nask now c.data\nask now oc.data",
        "1: ok\n2: ok\n3: ok\n8: ok\n9: ok\n10: ok\n11: \"one\"\n12: ok\n13: ok\n14: \"two\"\n15: ok\n16: \"three\"\n17: ok\n18: \"three\"\n19: fault 4.data NoEndpoint\n",
    ),
    (
        "make GameObject g\nmake ComponentEmbedded c\nset c.id \"c\"\nconnect c.component g.components\noverride o g\nmake ComponentEmbedded d\nset d.id \"d\"\nconnect d.component g.components\nask now o.object",
        "1: ok\n2: ok\n3: ok\n4: ok\n5: ok\n6: ok\n7: ok\n8: ok\n9: {path: \"\", components: ({id: \"c\", type: \"\", data: \"\", position: [0, 0, 0], rotation: [0, 0, 0, 1]}, {id: \"d\", type: \"\", data: \"\", position: [0, 0, 0], rotation: [0, 0, 0, 1]})}\n",
    ),
    (
        "make GameObject g\nmake ComponentEmbedded c\nset c.id \"c\"\nconnect c.component g.components\noverride o g\noverride p o\nmake ComponentEmbedded d\nset d.id \"d\"\nconnect d.component g.components\nalias x d@o\nalias y x@p\nask now y.id",
        "1: ok\n2: ok\n3: ok\n4: ok\n5: ok\n6: ok\n7: ok\n8: ok\n9: ok\n10: ok\n11: ok\n12: \"d\"\n",
    ),
];

/// Undo and redo, and pins, which show their revision's graph with today's names.
pub(crate) static EDITED: [(&str, &str); 6] = [
    (
        "undo\nmake Num a\nundo\nredo\nredo",
        "1: NothingToUndo\n2: ok\n3: ok\n4: ok\n5: NothingToRedo\n",
    ),
    (
        "make Num a\npin old\nset a.value 9\nask old a.value\nask now a.value",
        "1: ok\n2: pinned 1\n3: ok\n4: 0\n5: 9\n",
    ),
    ("ask p a.value", "1: NoPin\n"),
    (
        "pin p\nmake Num a\npin q\npin q\nset a.value 2\npin r\nask p a.value\nask q a.value\nask r a.value\ndrop q\nask q a.value\ndrop q\nset a.value 3\npin q\nask q a.value\nask r a.value\nundo\nundo\npin s\nask now a.value\nask s a.value\nask r a.value\ndrop nowhere",
        "1: pinned 0\n2: ok\n3: pinned 1\n4: PinUsed\n5: ok\n6: pinned 2\n7: fault 1.value NoEndpoint\n8: 0\n9: 2\n10: ok\n11: NoPin\n12: NoPin\n13: ok\n14: pinned 3\n15: 3\n16: 2\n17: ok\n18: ok\n19: pinned 5\n20: 0\n21: 0\n22: 2\n23: NoPin\n",
    ),
    (
        "make GameObject g\nmake ComponentEmbedded c\nset c.id \"c\"\nconnect c.component g.components\noverride o g\npin whole\nalias oc c@o\nset oc.id \"mine\"\ndelete g\npin gone\nask whole c@o.id\nask gone c@o.id\nask whole oc.id\nask now oc.id\nundo\nask now c@o.id\nundo\nask now c@o.id\nundo\nask now oc.id\nask whole oc.id\nredo\nask now c@o.id\nredo\nredo\nredo\nask now oc.id\nask whole oc.id",
        "1: ok\n2: ok\n3: ok\n4: ok\n5: ok\n6: pinned 5\n7: ok\n8: ok\n9: ok\n10: pinned 7\n11: \"c\"\n12: NoName\n13: \"c\"\n14: fault 4.id NoEndpoint\n15: ok\n16: \"mine\"\n17: ok\n18: \"c\"\n19: ok\n20: fault 4.id NoEndpoint\n21: \"c\"\n22: ok\n23: \"c\"\n24: ok\n25: ok\n26: NothingToRedo\n27: fault 4.id NoEndpoint\n28: \"c\"\n",
    ),
    (
        "make ScriptFile a\nset a:speed number \"1\"\nundo\nundo\nask now a:speed\nmake Num b\nask now b.value\nask now a.value\nredo\nalias c a\nask now c.value\nset c.value 1\nundo\nredo\nbegin\nmake Num d\nset d.value 4\nmake Num d\nend\nundo\nask now d.value\nredo\nask now d.value\nbegin\nend\nundo\nset d.value 1\nredo\nbegin\nset b.value 2\nset b.value 3\nend\nundo\nask now b.value\nredo\nask now b.value\nundo\nset b.value 5\nredo\nask now b.value",
        "1: ok\n2: ok\n3: ok\n4: ok\n5: fault 1:speed NoEndpoint\n6: ok\n7: 0\n8: fault 1.value NoEndpoint\n9: NothingToRedo\n10: ok\n11: fault 1.value NoEndpoint\n12: refused step 1 NoNode\n13: ok\n14: ok\n15: ok\n20: ok\n21: fault 4.value NoEndpoint\n22: ok\n23: 0\n24: Empty\n26: ok\n27: refused step 1 NoNode\n28: ok\n29: ok\n33: ok\n34: 0\n35: ok\n36: 3\n37: ok\n38: ok\n39: NothingToRedo\n40: 5\n",
    ),
];

pub(crate) static REFUSED: [(&str, &str); 5] = [
    ("begin\nmake Num a\n", "error: script line 1 OpenBlock\n"),
    ("frob\n", "error: script line 1 Word\n"),
    ("begin\nundo\nend\n", "error: script line 2 InBlock\n"),
    ("make Num 1a\n", "error: script line 1 Value\n"),
    ("undo\n\nmake Num\n", "error: script line 3 Arity\n"),
];

/// Files, and what their formatting prints and ends with. The first four are those of the examples.
pub(crate) static FORMATTED: [(&str, &str, u8, &str); 16] = [
    (
        "/hero.go",
        "components {\n  id: \"script\"\n  component: \"/main/hero.script\"\n  position {\n    x: 1.5\n    y: -2.0e-1\n    z: 0.0\n  }\n  rotation {\n    z: 0.70710677\n    w: 7.0710677E-1\n  }\n  properties {\n    id: \"speed\"\n    value: \"120.0\"\n    type: PROPERTY_TYPE_NUMBER\n  }\n  properties {\n    id: \"home\"\n    value: \"10.0, 20.0, 0.5\"\n    type: PROPERTY_TYPE_VECTOR3\n  }\n  property_decls {\n    number_entries {\n      key: \"speed\"\n      id: 4\n    }\n  }\n}\nembedded_components {\n  id: \"sprite\"\n  type: \"sprite\"\n  data: \"default_animation: \\\"walk\\\"\\n\"\n  \"material: \\\"/builtins/materials/sprite.material\\\"\\n\"\n  \"textures {\\n\"\n  \"  sampler: \\\"texture_sampler\\\"\\n\"\n  \"  texture: \\\"/main/hero.atlas\\\"\\n\"\n  \"}\\n\"\n  \"\"\n  position {\n    z: 1.0E-1\n  }\n}\nembedded_components {\n  id: \"collisionobject\"\n  type: \"collisionobject\"\n  data: \"type: COLLISION_OBJECT_TYPE_KINEMATIC\\n\"\n  \"mass: 0.0\\n\"\n  \"group: \\\"hero\\\"\\n\"\n  \"embedded_collision_shape {\\n\"\n  \"  shapes {\\n\"\n  \"    shape_type: TYPE_BOX\\n\"\n  \"    id: \\\"caf\\303\\251 \\\\\\\"box\\\\\\\"\\\"\\n\"\n  \"  }\\n\"\n  \"  data: 16.0\\n\"\n  \"}\\n\"\n  \"\"\n  rotation {\n    w: 1.0\n  }\n}\n",
        0,
        "components {\n  id: \"script\"\n  component: \"/main/hero.script\"\n  position {\n    x: 1.5\n    y: -0.2\n  }\n  rotation {\n    z: 0.70710677\n    w: 0.70710677\n  }\n  properties {\n    id: \"speed\"\n    value: \"120.0\"\n    type: PROPERTY_TYPE_NUMBER\n  }\n  properties {\n    id: \"home\"\n    value: \"10.0, 20.0, 0.5\"\n    type: PROPERTY_TYPE_VECTOR3\n  }\n  property_decls {\n    number_entries {\n      key: \"speed\"\n      id: 4\n    }\n  }\n}\nembedded_components {\n  id: \"sprite\"\n  type: \"sprite\"\n  data: \"default_animation: \\\"walk\\\"\\nmaterial: \\\"/builtins/materials/sprite.material\\\"\\ntextures {\\n  sampler: \\\"texture_sampler\\\"\\n  texture: \\\"/main/hero.atlas\\\"\\n}\\n\"\n  position {\n    z: 0.1\n  }\n}\nembedded_components {\n  id: \"collisionobject\"\n  type: \"collisionobject\"\n  data: \"type: COLLISION_OBJECT_TYPE_KINEMATIC\\nmass: 0.0\\ngroup: \\\"hero\\\"\\nembedded_collision_shape {\\n  shapes {\\n    shape_type: TYPE_BOX\\n    id: \\\"café \\\\\\\"box\\\\\\\"\\\"\\n  }\\n  data: 16.0\\n}\\n\"\n}\n",
    ),
    (
        "/terse.go",
        "# one line each, with either quote, commas and semicolons\ncomponents: { id: 'a', component: '/main/a.script'; position { x: 1e0, y: +.5; z: -0 } };\n\nembedded_components { id: \"b\"; type: 'label', data: 'text: \"It\\'s\"' ' line \\061\\x0a'; font: \"/a.font\" }  # a field of another tool\n\n# the second `id` counts, and so does the last position\ncomponents {\n  id: \"old\" id: \"c\"\n  component: \"/main/c.factory\"\n  position { x: 9 }\n  position { }\n  properties { id: 'tint', value: '1, 1, 1, 1', type: PROPERTY_TYPE_VECTOR4 }\n  properties { id: 'turn', value: '0, 0, 0, 1', type: PROPERTY_TYPE_QUAT, note { by: hand } }\n}\nversion: 1\n",
        0,
        "components {\n  id: \"a\"\n  component: \"/main/a.script\"\n  position {\n    x: 1\n    y: 0.5\n  }\n}\ncomponents {\n  id: \"c\"\n  component: \"/main/c.factory\"\n  properties {\n    id: \"tint\"\n    value: \"1, 1, 1, 1\"\n    type: PROPERTY_TYPE_VECTOR4\n  }\n  properties {\n    id: \"turn\"\n    value: \"0, 0, 0, 1\"\n    type: PROPERTY_TYPE_QUAT\n    note {\n      by: hand\n    }\n  }\n}\nembedded_components {\n  id: \"b\"\n  type: \"label\"\n  data: \"text: \\\"It's\\\" line 1\\n\"\n  font: \"/a.font\"\n}\nversion: 1\n",
    ),
    (
        "/level.collection",
        "name: \"level\"\ninstances {\n  id: \"hero\"\n  prototype: \"/main/hero.go\"\n  position {\n    x: 480.0\n    y: 3.2e2\n  }\n  children: \"lamp\"\n  children: \"shadow\"\n  component_properties {\n    id: \"script\"\n    properties {\n      id: \"speed\"\n      value: \"1.5e2\"\n      type: PROPERTY_TYPE_NUMBER\n    }\n    properties {\n      id: \"target\"\n      value: \"main:/door#script\"\n      type: PROPERTY_TYPE_URL\n    }\n  }\n  scale3 {\n    x: 2.0\n    y: 2.0\n    z: 1.0\n  }\n}\ninstances {\n  id: \"door\"\n  prototype: \"/main/door.go\"\n  scale: 5.0E-1\n}\ncollection_instances {\n  id: \"north\"\n  collection: \"/main/room.collection\"\n  position {\n    x: 0.0\n    y: 1024.0\n    z: 0.0\n  }\n  rotation {\n    x: 0.0\n    y: 0.0\n    z: 1.0\n    w: 0.0\n  }\n  scale3 {\n    x: 1.0\n    y: 1.0\n    z: 1.0\n  }\n  instance_properties {\n    id: \"chest/lid\"\n    properties {\n      id: \"script\"\n      properties {\n        id: \"locked\"\n        value: \"true\"\n        type: PROPERTY_TYPE_BOOLEAN\n      }\n      properties {\n        id: \"sound\"\n        value: \"creak\"\n        type: PROPERTY_TYPE_HASH\n      }\n    }\n  }\n}\nscale_along_z: 1\nembedded_instances {\n  id: \"lamp\"\n  data: \"embedded_components {\\n\"\n  \"  id: \\\"light\\\"\\n\"\n  \"  type: \\\"sprite\\\"\\n\"\n  \"  data: \\\"default_animation: \\\\\\\"glow\\\\\\\"\\\\n\"\n  \"material: \\\\\\\"/builtins/materials/sprite.material\\\\\\\"\\\\n\"\n  \"\\\"\\n\"\n  \"  position {\\n\"\n  \"    y: 12.0\\n\"\n  \"  }\\n\"\n  \"}\\n\"\n  \"\"\n  position {\n    x: -4.0\n    y: 16.0\n    z: 1.0E-4\n  }\n}\nembedded_instances {\n  id: \"shadow\"\n  children: \"lamp\"\n  data: \"components {\\n  id: \\\"shade\\\"\\n  component: \\\"/main/shade.script\\\"\\n}\\n\"\n  rotation {\n    w: 9.0E-1\n    z: -4.3588990E-1\n  }\n}\n",
        0,
        "name: \"level\"\nscale_along_z: 1\ninstances {\n  id: \"hero\"\n  prototype: \"/main/hero.go\"\n  children: \"lamp\"\n  children: \"shadow\"\n  position {\n    x: 480\n    y: 320\n  }\n  scale3 {\n    x: 2\n    y: 2\n  }\n  component_properties {\n    id: \"script\"\n    properties {\n      id: \"speed\"\n      value: \"1.5e2\"\n      type: PROPERTY_TYPE_NUMBER\n    }\n    properties {\n      id: \"target\"\n      value: \"main:/door#script\"\n      type: PROPERTY_TYPE_URL\n    }\n  }\n}\ninstances {\n  id: \"door\"\n  prototype: \"/main/door.go\"\n  scale3 {\n    x: 0.5\n    y: 0.5\n    z: 0.5\n  }\n}\nembedded_instances {\n  id: \"lamp\"\n  data: \"embedded_components {\\n  id: \\\"light\\\"\\n  type: \\\"sprite\\\"\\n  data: \\\"default_animation: \\\\\\\"glow\\\\\\\"\\\\nmaterial: \\\\\\\"/builtins/materials/sprite.material\\\\\\\"\\\\n\\\"\\n  position {\\n    y: 12.0\\n  }\\n}\\n\"\n  position {\n    x: -4\n    y: 16\n    z: 0.0001\n  }\n}\nembedded_instances {\n  id: \"shadow\"\n  children: \"lamp\"\n  data: \"components {\\n  id: \\\"shade\\\"\\n  component: \\\"/main/shade.script\\\"\\n}\\n\"\n  rotation {\n    z: -0.4358899\n    w: 0.9\n  }\n}\ncollection_instances {\n  id: \"north\"\n  collection: \"/main/room.collection\"\n  position {\n    y: 1024\n  }\n  rotation {\n    z: 1\n    w: 0\n  }\n  instance_properties {\n    id: \"chest/lid\"\n    properties {\n      id: \"script\"\n      properties {\n        id: \"locked\"\n        value: \"true\"\n        type: PROPERTY_TYPE_BOOLEAN\n      }\n      properties {\n        id: \"sound\"\n        value: \"creak\"\n        type: PROPERTY_TYPE_HASH\n      }\n    }\n  }\n}\n",
    ),
    (
        "/turned.collection",
        "# a scale that stands before and behind three scales, and a name in two parts\nname: \"tur\" 'ned'\nscale_along_z: false\ninstances {\n  id: \"a\"\n  prototype: \"/main/hero.go\"\n  scale: 3\n  scale3 { z: 0.000000001 }\n}\ncollection_instances {\n  scale3 { }\n  scale: 2.0\n  collection: \"/main/level.collection\"\n  id: \"level\"\n}\nembedded_instances { id: \"empty\" data: \"\" scale: 0.25 }\n",
        0,
        "name: \"turned\"\ninstances {\n  id: \"a\"\n  prototype: \"/main/hero.go\"\n  scale3 {\n    z: 0.000000001\n  }\n}\nembedded_instances {\n  id: \"empty\"\n  data: \"\"\n  scale3 {\n    x: 0.25\n    y: 0.25\n    z: 0.25\n  }\n}\ncollection_instances {\n  id: \"level\"\n  collection: \"/main/level.collection\"\n}\n",
    ),
    (
        "/p.go",
        "components { id:\"p\" component:'/p.script' scale { x: 2.0 } position { x: 1e1 y:0.0 } }",
        0,
        "components {\n  id: \"p\"\n  component: \"/p.script\"\n  position {\n    x: 10\n  }\n  scale {\n    x: 2.0\n  }\n}\n",
    ),
    (
        "/p.go",
        "components { id:\"p\" component:'/p.script' scale { x: 2.0 } position { x: 1e1",
        3,
        "error: file line 1 Unclosed\n",
    ),
    (
        "/m.collection",
        "name:\"m\" zeta:1 name:'n'",
        0,
        "name: \"n\"\nzeta: 1\n",
    ),
    (
        "/p.go",
        "components { id: \"p\" }",
        3,
        "error: file line 1 Missing\n",
    ),
    ("/p.go", "\n\ncomponents: 1", 3, "error: file line 3 Form\n"),
    ("/p.go", "\n}", 3, "error: file line 2 Token\n"),
    ("/p.go", "", 0, ""),
    ("/p.go", "z: 1", 0, "z: 1\n"),
    ("/m.collection", "", 3, "error: file line 1 Missing\n"),
    (
        "/d/m.collection",
        "name: \"a\\\"b\" # a comment\n",
        0,
        "name: \"a\\\"b\"\n",
    ),
    ("/p.txt", "z: 1", 1, "error: usage\n"),
    ("/d/../p.go", "z: 1", 1, "error: usage\n"),
];

/// A script that is asked for what was asked before, at revisions old and new, across edits that fault and that
/// close a cycle.
const LONG: &str = "make Num a
make Num b
make Sum s
make Sum t
make Sum u
make Join j
connect a.value s.terms
connect b.value s.terms
connect s.total t.terms
connect b.value t.terms
connect t.total u.extra
connect s.total u.terms
ask now u.total
ask now t.total
pin old
set b.value 4
ask now u.total
ask old u.total
ask now s.total
undo
ask now u.total
ask old t.total
redo
ask now u.total
evict 2
ask now u.total
ask now u.total
set a.value 9223372036.854775807
set b.value 1
ask now u.total
connect u.total s.terms
ask now u.total
ask old u.total
undo
drop old
ask now t.total
ask now s.total
delete s
ask now u.total
undo
ask now u.total
";

const LONG_LINES: &str = "1: ok
2: ok
3: ok
4: ok
5: ok
6: ok
7: ok
8: ok
9: ok
10: ok
11: ok
12: ok
13: 0
14: 0
15: pinned 12
16: ok
17: 12
18: 0
19: 4
20: ok
21: 0
22: 0
23: ok
24: 12
25: ok
26: 12
27: 12
28: ok
29: ok
30: fault 3.total Range
31: ok
32: cycle
33: 0
34: ok
35: ok
36: fault 3.total Range
37: fault 3.total Range
38: ok
39: 1
40: ok
41: fault 3.total Range
";

/// A script, the size of the cache, what is printed of the commands, and of the work.
pub(crate) struct Worked {
    pub script: &'static str,
    pub cache: &'static str,
    pub lines: &'static str,
    pub work: &'static str,
}

/// What is printed of the commands is the same for every cache; how much is evaluated isn't.
pub(crate) static WORKED: [Worked; 11] = [
    // Collections in collections, and an override of one.
    Worked {
        script: "make GameObject g\nset g.path \"/g.go\"\nmake GoInstance i\nset i.id \"kid\"\nconnect g.object i.source\nmake Collection c\nset c.name \"main\"\nconnect i.instance c.instances\nask now c.flat\nset i.position vec3 1 2 3\nmake CollInstance n\nset n.id \"sub\"\nconnect c.flat n.source\nask now n.instance\nmake Collection d\nconnect n.instance d.subs\nset n.position vec3 10 0 0\nask now d.flat\nask now d.build\nset d.path \"/d.collection\"\nask now d.build\noverride o c\nalias oi i@o\nset oi.id \"own\"\nask now o.flat\ndelete d\nask now n.instance\nask now c.flat\n",
        cache: "4096",
        lines: "1: ok\n2: ok\n3: ok\n4: ok\n5: ok\n6: ok\n7: ok\n8: ok\n9: ({id: \"/kid\", child: false, children: (), position: [0, 0, 0], rotation: [0, 0, 0, 1], scale3: [1, 1, 1], object: {path: \"/g.go\", components: ()}})\n10: ok\n11: ok\n12: ok\n13: ok\n14: {id: \"sub\", entries: ({id: \"/sub/kid\", child: false, children: (), position: [1, 2, 3], rotation: [0, 0, 0, 1], scale3: [1, 1, 1], object: {path: \"/g.go\", components: ()}})}\n15: ok\n16: ok\n17: ok\n18: ({id: \"/sub/kid\", child: false, children: (), position: [11, 2, 3], rotation: [0, 0, 0, 1], scale3: [1, 1, 1], object: {path: \"/g.go\", components: ()}})\n19: fault 5.build BadName\n20: ok\n21: {path: \"/d.collection\", name: \"\", scale_along_z: false, entries: ({id: \"/sub/kid\", child: false, children: (), position: [11, 2, 3], rotation: [0, 0, 0, 1], scale3: [1, 1, 1], object: {path: \"/g.go\", components: ()}})}\n22: ok\n23: ok\n24: ok\n25: ({id: \"/own\", child: false, children: (), position: [1, 2, 3], rotation: [0, 0, 0, 1], scale3: [1, 1, 1], object: {path: \"/g.go\", components: ()}})\n26: ok\n27: fault 4.instance NoEndpoint\n28: fault 3.flat NoEndpoint\n",
        work: "work 13 kept 13 late 0\n",
    },
    // The example of the cache.
    Worked {
        script: "make Num lives\nmake Num speed\nmake Sum sum\nset lives.value 3\nconnect lives.value sum.terms\npin start\nset speed.value 5\nask start sum.total\nask now sum.total\nset lives.value 2\nask start sum.total\nask now sum.total\n",
        cache: "1",
        lines: "1: ok\n2: ok\n3: ok\n4: ok\n5: ok\n6: pinned 5\n7: ok\n8: 3\n9: 3\n10: ok\n11: 3\n12: 2\n",
        work: "work 3 kept 2 late 1\n",
    },
    Worked {
        script: "make Num x\nmake Sum s\nconnect x.value s.terms\npin p\nset x.value 2\nundo\nask p s.total",
        cache: "4096",
        lines: "1: ok\n2: ok\n3: ok\n4: pinned 3\n5: ok\n6: ok\n7: 0\n",
        work: "work 1 kept 0 late 1\n",
    },
    Worked {
        script: "make Num x\nmake Sum s\nconnect x.value s.terms\npin p\ndelete s\nundo\nask p s.total",
        cache: "4096",
        lines: "1: ok\n2: ok\n3: ok\n4: pinned 3\n5: ok\n6: ok\n7: 0\n",
        work: "work 1 kept 0 late 1\n",
    },
    Worked {
        script: "make Num x\nmake Num y\nmake Sum s\nconnect x.value s.terms\npin p\nset y.value 5\nask p s.total\nask now s.total",
        cache: "4096",
        lines: "1: ok\n2: ok\n3: ok\n4: ok\n5: pinned 4\n6: ok\n7: 0\n8: 0\n",
        work: "work 1 kept 1 late 0\n",
    },
    Worked {
        script: "make Num a\nmake Sum s\nmake Sum t\nconnect a.value s.terms\nconnect s.total t.terms\nask now t.total\nask now s.total\nask now t.total\nevict 1",
        cache: "1",
        lines: "1: ok\n2: ok\n3: ok\n4: ok\n5: ok\n6: 0\n7: 0\n8: 0\n9: ok\n",
        work: "work 4 kept 4 late 0\n",
    },
    Worked {
        script: "make Num a\nmake Sum s\nmake Sum t\nconnect a.value s.terms\nconnect s.total t.terms\nask now t.total\nask now s.total\nask now t.total\nevict 1",
        cache: "4096",
        lines: "1: ok\n2: ok\n3: ok\n4: ok\n5: ok\n6: 0\n7: 0\n8: 0\n9: ok\n",
        work: "work 2 kept 2 late 0\n",
    },
    Worked {
        script: LONG,
        cache: "1",
        lines: LONG_LINES,
        work: "work 32 kept 32 late 8\n",
    },
    Worked {
        script: LONG,
        cache: "2",
        lines: LONG_LINES,
        work: "work 29 kept 29 late 8\n",
    },
    Worked {
        script: LONG,
        cache: "3",
        lines: LONG_LINES,
        work: "work 25 kept 25 late 8\n",
    },
    Worked {
        script: LONG,
        cache: "1000000",
        lines: LONG_LINES,
        work: "work 25 kept 25 late 8\n",
    },
];

/// Words with how they end over the script `make`: the status and the one line of an error.
pub(crate) static WORDS_ENDED: [(&str, u8, &str); 17] = [
    ("run", 1, "error: usage\n"),
    ("run /e.txt --workers", 1, "error: usage\n"),
    ("run /e.txt --workers 17", 1, "error: usage\n"),
    ("run /e.txt --workers 0 0", 1, "error: usage\n"),
    ("run /e.txt --stats", 1, "error: usage\n"),
    ("run /e.txt --cache 0", 1, "error: usage\n"),
    ("run /e.txt/ --workers 0", 1, "error: usage\n"),
    ("run /../e.txt --workers 0", 1, "error: usage\n"),
    ("play /e.txt --workers 0", 1, "error: usage\n"),
    ("run /none --workers 0", 2, "error: no input\n"),
    ("run /e.txt/a --workers 0", 2, "error: no input\n"),
    ("run /e.txt --workers 0", 3, "error: script line 1 Arity\n"),
    (
        "run --cache=1 e.txt --workers=16",
        3,
        "error: script line 1 Arity\n",
    ),
    ("check", 0, "nodes 0 arcs 0 bad 0\n"),
    ("build /e.txt", 0, "1: NoName\n"),
    (
        "gen 7 1",
        0,
        "files 3 nodes 7 arcs 4\nedits 2 undos 1 redos 1 asks 2\ngood 2 bad 0 cycle 0\nbuilt 2 sum 68\n",
    ),
    ("gen 7 65", 1, "error: usage\n"),
];

/// Words that make a project, the number of the put that fails (0 for none), the status and what is printed.
pub(crate) static MADE: [(&str, u64, u8, &str); 5] = [
    (
        "gen 7 1 --workers 0",
        0,
        0,
        "files 3 nodes 7 arcs 4\nedits 2 undos 1 redos 1 asks 2\ngood 2 bad 0 cycle 0\nbuilt 2 sum 68\n",
    ),
    (
        "gen 7 2",
        0,
        0,
        "files 6 nodes 19 arcs 10\nedits 4 undos 2 redos 2 asks 4\ngood 4 bad 0 cycle 0\nbuilt 3 sum 186\n",
    ),
    (
        "gen 7 16 --workers 8",
        0,
        0,
        "files 48 nodes 712 arcs 94\nedits 32 undos 16 redos 16 asks 32\ngood 32 bad 0 cycle 0\nbuilt 17 sum 5703\n",
    ),
    // The same draws: the seed counts modulo 2^31.
    (
        "gen 2147483655 1 --cache 1",
        0,
        0,
        "files 3 nodes 7 arcs 4\nedits 2 undos 1 redos 1 asks 2\ngood 2 bad 0 cycle 0\nbuilt 2 sum 68\n",
    ),
    (
        "gen 7 2 --workers 16",
        3,
        5,
        "files 6 nodes 19 arcs 10\nedits 4 undos 2 redos 2 asks 4\n",
    ),
];
