//! Texts, and what each call answers of them.
use crate::{ends_in, is_name, is_project_path, quoted, split_at_last, text_of};
use std::alloc::{AllocError, Global};
use std::test::Fail;

/// Texts, and how they are quoted: every escape, the bytes beside them, and bytes from 128 upward.
static QUOTES: [(&str, &str); 12] = [
    ("", "\"\""),
    ("\"", "\"\\\"\""),
    ("\\", "\"\\\\\""),
    ("\n", "\"\\n\""),
    ("\r", "\"\\r\""),
    ("\t", "\"\\t\""),
    ("\0", "\"\\000\""),
    ("\x08\x0b\x0c", "\"\\010\\013\\014\""),
    ("\x1f", "\"\\037\""),
    (" !'~", "\" !'~\""),
    ("\x7f", "\"\\177\""),
    ("\u{80}é7", "\"\u{80}é7\""),
];

/// Texts, and what stands before and behind their last point or colon, or twice nothing.
static SPLITS: [(&str, &str, &str); 6] = [
    ("a.b:c", "a.b", "c"),
    ("é.ü", "é", "ü"),
    ("a.", "a", ""),
    (":a", "", "a"),
    ("a", "", ""),
    ("", "", ""),
];

/// Paths, and whether they are project paths.
static PATHS: [(&str, bool); 9] = [
    ("/a/b.go", true),
    ("/.a/b c", true),
    ("/...", true),
    ("a/b", false),
    ("/", false),
    ("/a//b", false),
    ("/a/", false),
    ("/a/./b", false),
    ("/..", false),
];

fn quotes(alloc: Global) -> Result<bool, AllocError> {
    for case in &QUOTES {
        if quoted(alloc, case.0)?.as_slice() != case.1.as_bytes() {
            return Ok(false);
        }
    }
    Ok(true)
}

fn halves(text: &str) -> (&str, &str) {
    match split_at_last(text, b".:") {
        Some((before, _, behind)) => (before, behind),
        None => ("", ""),
    }
}

fn splits() -> bool {
    SPLITS.iter().all(|case| halves(case.0) == (case.1, case.2))
}

fn tells_paths(alloc: Global) -> Result<bool, AllocError> {
    for case in &PATHS {
        if is_project_path(alloc, case.0)? != case.1 {
            return Ok(false);
        }
    }
    Ok(true)
}

#[test]
fn quotes_every_escape(rt: HostRuntime) -> Result<(), Fail> {
    assert!(rt; quotes(rt.alloc())?);
    Ok(())
}

#[test]
fn splits_at_the_last_mark(rt: HostRuntime) -> Result<(), Fail> {
    assert!(rt; splits());
    Ok(())
}

#[test]
fn tells_project_paths(rt: HostRuntime) -> Result<(), Fail> {
    assert!(rt; tells_paths(rt.alloc())?);
    assert!(rt; ends_in("/a.go", ".go"));
    assert!(rt; !ends_in("go", ".go"));
    Ok(())
}

#[test]
fn tells_names_and_texts(rt: HostRuntime) -> Result<(), Fail> {
    assert!(rt; is_name("_a9"));
    assert!(rt; !is_name("9a"));
    assert!(rt; text_of(b"a\xc3\xa9") == Some("aé"));
    assert!(rt; text_of(b"a\xc3").is_none());
    Ok(())
}
