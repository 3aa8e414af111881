//! Scripts, and what they are read as.
use crate::{BadLine, Command, ScriptCode, read_script};
use dg_base::Refusal;
use std::alloc::{AllocError, Global};
use std::test::Fail;

/// Scripts that are read, and their commands.
static READ: [(&str, &str); 20] = [
    ("", "Items { items: [] }"),
    ("\r", "Items { items: [] }"),
    (" \t\n# \"a\n \t#undo\r\n", "Items { items: [] }"),
    (
        "make Num a\r\n\n # c\noverride b a@x",
        "Items { items: [Command { line: 1, act: Step(Make { kind: Kind(1), name: Str { text: \"a\" } }) }, Command { line: 4, act: Step(Override { name: Str { text: \"b\" }, node: Str { text: \"a@x\" } }) }] }",
    ),
    (
        "make Sum _\nmake Text A1\nmake Join now\nmake ResourceFile a\nmake ScriptFile a\nmake GameObject a",
        "Items { items: [Command { line: 1, act: Step(Make { kind: Kind(2), name: Str { text: \"_\" } }) }, Command { line: 2, act: Step(Make { kind: Kind(3), name: Str { text: \"A1\" } }) }, Command { line: 3, act: Step(Make { kind: Kind(4), name: Str { text: \"now\" } }) }, Command { line: 4, act: Step(Make { kind: Kind(5), name: Str { text: \"a\" } }) }, Command { line: 5, act: Step(Make { kind: Kind(6), name: Str { text: \"a\" } }) }, Command { line: 6, act: Step(Make { kind: Kind(7), name: Str { text: \"a\" } }) }] }",
    ),
    (
        "make ComponentRef a\nmake ComponentEmbedded a\nmake GoInstance a\nmake CollInstance a\nmake Collection a",
        "Items { items: [Command { line: 1, act: Step(Make { kind: Kind(8), name: Str { text: \"a\" } }) }, Command { line: 2, act: Step(Make { kind: Kind(9), name: Str { text: \"a\" } }) }, Command { line: 3, act: Step(Make { kind: Kind(10), name: Str { text: \"a\" } }) }, Command { line: 4, act: Step(Make { kind: Kind(11), name: Str { text: \"a\" } }) }, Command { line: 5, act: Step(Make { kind: Kind(12), name: Str { text: \"a\" } }) }] }",
    ),
    (
        "set a.x -1.5\nset a.x 9223372036.854775807\nset \"a.b:c\" hash \"\\101\\n\"",
        "Items { items: [Command { line: 1, act: Step(Set { at: EpWords { node: Str { text: \"a\" }, by_name: false, label: Str { text: \"x\" } }, value: Plain(Dec(-1500000000)) }) }, Command { line: 2, act: Step(Set { at: EpWords { node: Str { text: \"a\" }, by_name: false, label: Str { text: \"x\" } }, value: Plain(Dec(9223372036854775807)) }) }, Command { line: 3, act: Step(Set { at: EpWords { node: Str { text: \"a.b\" }, by_name: true, label: Str { text: \"c\" } }, value: Named { ptype: Hash, text: Str { text: \"A\\n\" } } }) }] }",
    ),
    (
        "set a.x vec3 1 2 .5\nset a.x quat 0 0 0 1",
        "Items { items: [Command { line: 1, act: Step(Set { at: EpWords { node: Str { text: \"a\" }, by_name: false, label: Str { text: \"x\" } }, value: Plain(Vec3(V3 { x: 1000000000, y: 2000000000, z: 500000000 })) }) }, Command { line: 2, act: Step(Set { at: EpWords { node: Str { text: \"a\" }, by_name: false, label: Str { text: \"x\" } }, value: Plain(Quat(V4 { x: 0, y: 0, z: 0, w: 1000000000 })) }) }] }",
    ),
    (
        "set a.x true\nset a.x false\nset a.x \"true\"\nset a.x \"vec3\"",
        "Items { items: [Command { line: 1, act: Step(Set { at: EpWords { node: Str { text: \"a\" }, by_name: false, label: Str { text: \"x\" } }, value: Plain(Flag(true)) }) }, Command { line: 2, act: Step(Set { at: EpWords { node: Str { text: \"a\" }, by_name: false, label: Str { text: \"x\" } }, value: Plain(Flag(false)) }) }, Command { line: 3, act: Step(Set { at: EpWords { node: Str { text: \"a\" }, by_name: false, label: Str { text: \"x\" } }, value: Plain(Text(Str { text: \"true\" })) }) }, Command { line: 4, act: Step(Set { at: EpWords { node: Str { text: \"a\" }, by_name: false, label: Str { text: \"x\" } }, value: Plain(Text(Str { text: \"vec3\" })) }) }] }",
    ),
    (
        "set a:x number \"1\"\nset a:x url \"\"\nset a:x vector3 \"1\"\nset a:x vector4 \"1\"\nset a:x quat \"1\"\nset a:x boolean \"true\"",
        "Items { items: [Command { line: 1, act: Step(Set { at: EpWords { node: Str { text: \"a\" }, by_name: true, label: Str { text: \"x\" } }, value: Named { ptype: Number, text: Str { text: \"1\" } } }) }, Command { line: 2, act: Step(Set { at: EpWords { node: Str { text: \"a\" }, by_name: true, label: Str { text: \"x\" } }, value: Named { ptype: Url, text: Str { text: \"\" } } }) }, Command { line: 3, act: Step(Set { at: EpWords { node: Str { text: \"a\" }, by_name: true, label: Str { text: \"x\" } }, value: Named { ptype: Vector3, text: Str { text: \"1\" } } }) }, Command { line: 4, act: Step(Set { at: EpWords { node: Str { text: \"a\" }, by_name: true, label: Str { text: \"x\" } }, value: Named { ptype: Vector4, text: Str { text: \"1\" } } }) }, Command { line: 5, act: Step(Set { at: EpWords { node: Str { text: \"a\" }, by_name: true, label: Str { text: \"x\" } }, value: Named { ptype: Quat, text: Str { text: \"1\" } } }) }, Command { line: 6, act: Step(Set { at: EpWords { node: Str { text: \"a\" }, by_name: true, label: Str { text: \"x\" } }, value: Named { ptype: Boolean, text: Str { text: \"true\" } } }) }] }",
    ),
    (
        "clear a:b.c\nclear a.b:c\nclear ..x",
        "Items { items: [Command { line: 1, act: Step(Clear { at: EpWords { node: Str { text: \"a:b\" }, by_name: false, label: Str { text: \"c\" } } }) }, Command { line: 2, act: Step(Clear { at: EpWords { node: Str { text: \"a.b\" }, by_name: true, label: Str { text: \"c\" } } }) }, Command { line: 3, act: Step(Clear { at: EpWords { node: Str { text: \".\" }, by_name: false, label: Str { text: \"x\" } } }) }] }",
    ),
    (
        "clear @@@@@@@@@@@@@@@@@@@@@@@@@@@@@@@@@@@@@@@@@@@@@@@@@@@@@@@@@@@@@@@@.@@",
        "Items { items: [Command { line: 1, act: Step(Clear { at: EpWords { node: Str { text: \"@@@@@@@@@@@@@@@@@@@@@@@@@@@@@@@@@@@@@@@@@@@@@@@@@@@@@@@@@@@@@@@@\" }, by_name: false, label: Str { text: \"@@\" } } }) }] }",
    ),
    (
        "begin\ndelete @\n# c\n\ndefective a off\nend\nundo",
        "Items { items: [Command { line: 1, act: Block { steps: Items { items: [Delete { node: Str { text: \"@\" } }, Defective { node: Str { text: \"a\" }, on: false }] } } }, Command { line: 7, act: Undo }] }",
    ),
    (
        "begin\nend\ndefective a \"on\"\n",
        "Items { items: [Command { line: 1, act: Block { steps: Items { items: [] } } }, Command { line: 3, act: Step(Defective { node: Str { text: \"a\" }, on: true }) }] }",
    ),
    (
        "connect a.x b.y\ndisconnect a.x b.y",
        "Items { items: [Command { line: 1, act: Step(Connect { src: EpWords { node: Str { text: \"a\" }, by_name: false, label: Str { text: \"x\" } }, dst: EpWords { node: Str { text: \"b\" }, by_name: false, label: Str { text: \"y\" } } }) }, Command { line: 2, act: Step(Disconnect { src: EpWords { node: Str { text: \"a\" }, by_name: false, label: Str { text: \"x\" } }, dst: EpWords { node: Str { text: \"b\" }, by_name: false, label: Str { text: \"y\" } } }) }] }",
    ),
    (
        "redo\npin p\ndrop p\nask now a.x\nask \"now\" a.x\nask \"p\" a:x",
        "Items { items: [Command { line: 1, act: Redo }, Command { line: 2, act: Pin { name: Str { text: \"p\" } } }, Command { line: 3, act: Drop { name: Str { text: \"p\" } } }, Command { line: 4, act: Ask { pin: None, at: EpWords { node: Str { text: \"a\" }, by_name: false, label: Str { text: \"x\" } } } }, Command { line: 5, act: Ask { pin: None, at: EpWords { node: Str { text: \"a\" }, by_name: false, label: Str { text: \"x\" } } } }, Command { line: 6, act: Ask { pin: Some(Str { text: \"p\" }), at: EpWords { node: Str { text: \"a\" }, by_name: true, label: Str { text: \"x\" } } } }] }",
    ),
    (
        "build \"a b\"\nalias now a\nevict 00000000000001000000\nevict \"0\"",
        "Items { items: [Command { line: 1, act: Build { node: Str { text: \"a b\" } } }, Command { line: 2, act: Alias { name: Str { text: \"now\" }, node: Str { text: \"a\" } } }, Command { line: 3, act: Evict { most: 1000000 } }, Command { line: 4, act: Evict { most: 0 } }] }",
    ),
    (
        "\"undo\"\t\r\nundo\n\nredo \r",
        "Items { items: [Command { line: 1, act: Undo }, Command { line: 2, act: Undo }, Command { line: 4, act: Redo }] }",
    ),
    (
        "delete \"\"\ndelete #a\ndelete a\"b\ndelete a\\n",
        "Items { items: [Command { line: 1, act: Step(Delete { node: Str { text: \"\" } }) }, Command { line: 2, act: Step(Delete { node: Str { text: \"#a\" } }) }, Command { line: 3, act: Step(Delete { node: Str { text: \"a\\\"b\" } }) }, Command { line: 4, act: Step(Delete { node: Str { text: \"a\\\\n\" } }) }] }",
    ),
    (
        "delete \"a\\\"\\\\\\n\\r\\t\\177#\"",
        "Items { items: [Command { line: 1, act: Step(Delete { node: Str { text: \"a\\\"\\\\\\n\\r\\t\\u{7f}#\" } }) }] }",
    ),
];

/// Scripts with a bad line, its number and its code.
static REFUSED: [(&[u8], u32, ScriptCode); 90] = [
    (b"\xff", 1, ScriptCode::Utf8),
    (b"undo\n# \xc3", 2, ScriptCode::Utf8),
    (b"undo\n\xc3\r\nfoo", 2, ScriptCode::Utf8),
    (b"\xed\xa0\x80", 1, ScriptCode::Utf8),
    (b"\xe2\x82\n\xac", 1, ScriptCode::Utf8),
    (b"foo\n\xff", 1, ScriptCode::Word),
    (b"undo\npin \"a", 2, ScriptCode::Value),
    (b"foo \"\\200\"", 1, ScriptCode::Value),
    (b"begin\nundo \"\\x\"", 2, ScriptCode::Value),
    (b"pin \"\\12\"", 1, ScriptCode::Value),
    (b"pin \"\\08\"", 1, ScriptCode::Value),
    (b"pin \"a\"b", 1, ScriptCode::Value),
    (b"pin \"a\"\"b\"", 1, ScriptCode::Value),
    (b"undo \"a\nb\"", 1, ScriptCode::Value),
    (b"foo", 1, ScriptCode::Word),
    (b"\"un\" do", 1, ScriptCode::Word),
    (b"Undo", 1, ScriptCode::Word),
    (b"\"\"", 1, ScriptCode::Word),
    (b"undo\r\r", 1, ScriptCode::Word),
    (b"\r\r", 1, ScriptCode::Word),
    (b"undo\r1", 1, ScriptCode::Word),
    (b"undo\xc2\xa0", 1, ScriptCode::Word),
    (b"\"#\"", 1, ScriptCode::Word),
    (b"begin\nfoo", 2, ScriptCode::Word),
    (b"\n#\n\n1", 4, ScriptCode::Word),
    (b"foo\nend", 1, ScriptCode::Word),
    (b"begin\nundo 1", 2, ScriptCode::InBlock),
    (b"begin\nbegin", 2, ScriptCode::InBlock),
    (b"begin\n\npin now", 3, ScriptCode::InBlock),
    (b"begin\nend\nbegin\nask", 4, ScriptCode::InBlock),
    (b"end x", 1, ScriptCode::NoBlock),
    (b"begin\nend\nend", 3, ScriptCode::NoBlock),
    (b"end", 1, ScriptCode::NoBlock),
    (b"undo 1", 1, ScriptCode::Arity),
    (b"undo #", 1, ScriptCode::Arity),
    (b"begin x", 1, ScriptCode::Arity),
    (b"begin\nend x", 2, ScriptCode::Arity),
    (b"make Num", 1, ScriptCode::Arity),
    (b"make Num a # b", 1, ScriptCode::Arity),
    (b"delete a\"b c\"", 1, ScriptCode::Arity),
    (b"set", 1, ScriptCode::Arity),
    (b"set a.x", 1, ScriptCode::Arity),
    (b"set a.x 1 2", 1, ScriptCode::Arity),
    (b"set a.x vec3 1 2", 1, ScriptCode::Arity),
    (b"set a.x vec3 1 2 3 4", 1, ScriptCode::Arity),
    (b"set a.x quat 0 0 0", 1, ScriptCode::Arity),
    (b"set a.x \"vec3\" 1 2 3", 1, ScriptCode::Arity),
    (b"set a.x \"quat\" 0 0 0 1", 1, ScriptCode::Arity),
    (b"set a:x hash", 1, ScriptCode::Arity),
    (b"set a:x vec3 1 2 3", 1, ScriptCode::Arity),
    (b"set a.x:y 1", 1, ScriptCode::Arity),
    (b"set a:x.y hash \"t\"", 1, ScriptCode::Arity),
    (b"ask now", 1, ScriptCode::Arity),
    (b"evict 1 2", 1, ScriptCode::Arity),
    (b"set a 1", 1, ScriptCode::Value),
    (b"set a vec3 1 2 3", 1, ScriptCode::Value),
    (b"set a.x tru", 1, ScriptCode::Value),
    (b"set a.x 9223372036.854775808", 1, ScriptCode::Value),
    (b"set a.x vec3 1 \"2\" 3", 1, ScriptCode::Value),
    (b"set a.x quat 0 0 0 1_", 1, ScriptCode::Value),
    (b"set a:x hash t", 1, ScriptCode::Value),
    (b"set a:x \"hash\" \"t\"", 1, ScriptCode::Value),
    (b"set a:x color \"t\"", 1, ScriptCode::Value),
    (b"set :x hash \"t\"", 1, ScriptCode::Value),
    (b"make num a", 1, ScriptCode::Value),
    (b"make Num 1a", 1, ScriptCode::Value),
    (b"make Num a-b", 1, ScriptCode::Value),
    (b"make Num \xc3\xa9", 1, ScriptCode::Value),
    (b"make Num \"\"", 1, ScriptCode::Value),
    (b"pin now", 1, ScriptCode::Value),
    (b"drop \"now\"", 1, ScriptCode::Value),
    (b"pin a\rb", 1, ScriptCode::Value),
    (b"ask 1 a.x", 1, ScriptCode::Value),
    (b"defective a On", 1, ScriptCode::Value),
    (b"connect a.x b:y", 1, ScriptCode::Value),
    (b"disconnect a:x b.y", 1, ScriptCode::Value),
    (b"ask now a", 1, ScriptCode::Value),
    (b"ask now a.", 1, ScriptCode::Value),
    (b"clear .x", 1, ScriptCode::Value),
    (b"clear a..", 1, ScriptCode::Value),
    (b"clear a.x:", 1, ScriptCode::Value),
    (
        b"delete @@@@@@@@@@@@@@@@@@@@@@@@@@@@@@@@@@@@@@@@@@@@@@@@@@@@@@@@@@@@@@@@@",
        1,
        ScriptCode::Value,
    ),
    (
        b"clear @@@@@@@@@@@@@@@@@@@@@@@@@@@@@@@@@@@@@@@@@@@@@@@@@@@@@@@@@@@@@@@@@.x",
        1,
        ScriptCode::Value,
    ),
    (b"evict 1000001", 1, ScriptCode::Value),
    (b"evict 000000000000000000001", 1, ScriptCode::Value),
    (b"evict -1", 1, ScriptCode::Value),
    (b"evict \"\"", 1, ScriptCode::Value),
    (b"\n\nbegin\n", 3, ScriptCode::OpenBlock),
    (b"begin\n# x\n", 1, ScriptCode::OpenBlock),
    (b"begin\nend\nbegin\r\nmake Num a", 3, ScriptCode::OpenBlock),
];

/// Scripts of a text, a byte that stands so many times, and a text: whether a line is too long, and
/// which.
static LONG: [(&str, u8, usize, &str, Option<u32>); 7] = [
    ("", b'#', 65536, "", None),
    ("", b'#', 65537, "", Some(1)),
    ("", b' ', 65536, "\r\n", None),
    ("undo\n", b' ', 65537, "\n", Some(2)),
    ("\"", b'a', 65536, "", Some(1)),
    ("\n\nfoo", b' ', 65534, "\r", Some(3)),
    ("undo", b' ', 65532, "\nundo", None),
];

fn reads_as(alloc: Global, script: &str, expected: &str) -> Result<bool, AllocError> {
    match read_script(alloc, script.as_bytes()) {
        Ok(commands) => Ok(format!(in alloc; "{commands:?}")?.as_str() == expected),
        Err(_) => Ok(false),
    }
}

/// The first case that is read otherwise, or how many there are.
fn first_other(alloc: Global, cases: &[(&str, &str)]) -> Result<usize, AllocError> {
    for (place, case) in cases.iter().enumerate() {
        if !reads_as(alloc, case.0, case.1)? {
            return Ok(place);
        }
    }
    Ok(cases.len())
}

fn is_refused(alloc: Global, script: &[u8], line: u32, code: ScriptCode) -> bool {
    match read_script(alloc, script) {
        Ok(_) => false,
        Err(refusal) => refusal == Refusal::Because(BadLine { line, code }),
    }
}

/// The first case that isn't refused so, or how many there are.
fn first_taken(alloc: Global, cases: &[(&[u8], u32, ScriptCode)]) -> usize {
    for (place, case) in cases.iter().enumerate() {
        if !is_refused(alloc, case.0, case.1, case.2) {
            return place;
        }
    }
    cases.len()
}

fn long(
    alloc: Global,
    front: &str,
    byte: u8,
    count: usize,
    back: &str,
) -> Result<Vec<u8>, AllocError> {
    let mut script = Vec::new(alloc);
    script.extend_from_slice(front.as_bytes())?;
    for _ in 0..count {
        script.push(byte)?;
    }
    script.extend_from_slice(back.as_bytes())?;
    Ok(script)
}

fn is_too_long(alloc: Global, script: &[u8], line: Option<u32>) -> bool {
    match line {
        Some(line) => is_refused(alloc, script, line, ScriptCode::TooLong),
        None => read_script(alloc, script).is_ok(),
    }
}

/// The first case of another length, or how many there are.
fn first_longer(
    alloc: Global,
    cases: &[(&str, u8, usize, &str, Option<u32>)],
) -> Result<usize, AllocError> {
    for (place, case) in cases.iter().enumerate() {
        let script = long(alloc, case.0, case.1, case.2, case.3)?;
        if !is_too_long(alloc, script.as_slice(), case.4) {
            return Ok(place);
        }
    }
    Ok(cases.len())
}

/// How many commands there are, and the line of the last.
fn ends_at(alloc: Global, script: &[u8]) -> Option<(usize, u32)> {
    match read_script(alloc, script) {
        Ok(commands) => match commands.as_slice().last() {
            Some(Command { line, .. }) => Some((commands.len(), *line)),
            None => None,
        },
        Err(_) => None,
    }
}

#[test]
fn reads_each_command(rt: HostRuntime) -> Result<(), Fail> {
    assert_eq!(rt; first_other(rt.alloc(), &READ)?, 20);
    Ok(())
}

#[test]
fn names_the_first_bad_line_and_its_first_code(rt: HostRuntime) -> Result<(), Fail> {
    assert_eq!(rt; first_taken(rt.alloc(), &REFUSED), 90);
    Ok(())
}

#[test]
fn counts_the_bytes_of_a_line(rt: HostRuntime) -> Result<(), Fail> {
    assert_eq!(rt; first_longer(rt.alloc(), &LONG)?, 7);
    Ok(())
}

#[test]
fn reads_65536_lines_of_a_mebibyte(rt: HostRuntime) -> Result<(), Fail> {
    let alloc = rt.alloc();
    let mut script = Vec::new(alloc);
    for _ in 0..65536 {
        script.extend_from_slice(b"evict 000000001\n")?;
    }
    assert_eq!(rt; script.len(), 1_048_576);
    assert_eq!(rt; ends_at(alloc, script.as_slice()), Some((65536, 65536)));
    Ok(())
}
