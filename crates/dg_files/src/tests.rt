//! The edge, and each call once.
use super::{
    DirFiles, Failed, Files, Got, Listing, MemFiles, MemSink, Sink, StdSink, are_distinct,
    is_listed,
};
use dg_base::Refusal;
use std::alloc::{AllocError, Global};
use std::fs;
use std::process::Abort;
use std::test::Fail;

/// What is found at a path, in one word.
fn found<F: Files>(alloc: Global, files: &mut F, path: &str, most: usize) -> &'static str {
    match files.read(alloc, path, most) {
        Ok(Got::Absent) => "absent",
        Ok(Got::Longer) => "longer",
        Ok(Got::Whole(bytes)) if bytes.as_slice() == b"three".as_slice() => "three",
        Ok(Got::Whole(_)) => "other",
        Err(_) => "refused",
    }
}

/// The paths that are listed, each behind a blank.
fn list_text<F: Files>(alloc: Global, files: &mut F) -> Result<String, Refusal<Failed>> {
    let Listing::All(paths) = files.list(alloc)? else {
        return Ok(String::from_str(alloc, "more")?);
    };
    let mut text = String::new(alloc);
    for path in paths.as_slice() {
        text.push(' ')?;
        text.push_str(path.as_str())?;
    }
    Ok(text)
}

/// Writes each path twice.
fn write_twice<F: Files>(
    alloc: Global,
    files: &mut F,
    paths: &[&str],
) -> Result<(), Refusal<Failed>> {
    for path in paths {
        files.write(alloc, path, b"first")?;
        files.write(alloc, path, b"three")?;
    }
    Ok(())
}

#[test]
fn a_folder_gives_back_what_is_written(rt: HostRuntime) -> Result<(), Fail> {
    let alloc = rt.alloc();
    let root = "dg_files_test_folder";
    let _ = fs::remove_dir_all(&rt, root);
    let mut files = DirFiles::new(rt, String::from_str(alloc, root)?);
    let paths = ["/z", "/main/b.go", "/main/.b", "/.git/x", "/build/out"];
    write_twice(alloc, &mut files, &paths)?;
    assert_eq!(rt; list_text(alloc, &mut files)?.as_str(), " /main/b.go /z");
    for (path, most, word) in [
        ("/z", 5, "three"),
        ("/build/out", 9, "three"),
        ("/z", 4, "longer"),
        ("/main", 9, "absent"),
        ("/none", 9, "absent"),
        ("/z/none", 9, "absent"),
    ] {
        assert_eq!(rt; found(alloc, &mut files, path, most), word, "at {path}");
    }
    fs::remove_dir_all(&rt, root)?;
    Ok(())
}

#[test]
fn a_folder_counts_its_failures(rt: HostRuntime) -> Result<(), Fail> {
    let alloc = rt.alloc();
    let mut files = DirFiles::new(rt, String::from_str(alloc, "dg_files_test_none")?);
    assert!(rt; files.list(alloc).is_err());
    assert_eq!(rt; files.faults(), 1);
    Ok(())
}

#[test]
fn standard_output_takes_bytes(rt: HostRuntime) -> Result<(), Fail> {
    let mut sink = StdSink::new(rt);
    assert!(rt; sink.put(b"taken\n")? > 0);
    assert_eq!(rt; sink.faults(), 0);
    Ok(())
}

/// Two files, of which one isn't listed.
fn two_files(rt: &impl Abort, alloc: Global, fail: u64) -> Result<MemFiles, AllocError> {
    let mut tree = Vec::new(alloc);
    for path in ["/a", "/build/b"] {
        let bytes = Vec::from_slice(alloc, b"three")?;
        tree.push((String::from_str(alloc, path)?, bytes))?;
    }
    assert!(rt; are_distinct(&tree));
    Ok(MemFiles::new(alloc, tree, vec![in alloc; fail]?))
}

/// Which of a listing, a read and a write are answered, in this order.
fn three_calls<F: Files>(alloc: Global, files: &mut F) -> (bool, bool, bool) {
    let listed = files.list(alloc).is_ok();
    let read = files.read(alloc, "/a", 5).is_ok();
    let written = files.write(alloc, "/build/b", b"new").is_ok();
    (listed, read, written)
}

#[test]
fn the_listed_calls_fail(rt: HostRuntime) -> Result<(), Fail> {
    let alloc = rt.alloc();
    for (failing, answered) in [
        (0, (true, true, true)),
        (1, (false, true, true)),
        (2, (true, false, true)),
        (3, (true, true, false)),
    ] {
        let mut files = two_files(&rt, alloc, failing)?;
        assert_eq!(rt; three_calls(alloc, &mut files), answered, "at {failing}");
    }
    Ok(())
}

#[test]
fn memory_gives_back_what_is_written(rt: HostRuntime) -> Result<(), Fail> {
    let alloc = rt.alloc();
    let mut files = two_files(&rt, alloc, 0)?;
    write_twice(alloc, &mut files, &["/c", "/build/c"])?;
    assert_eq!(rt; list_text(alloc, &mut files)?.as_str(), " /a /c");
    for (path, most, word) in [("/c", 5, "three"), ("/a", 4, "longer"), ("/b", 5, "absent")] {
        assert_eq!(rt; found(alloc, &mut files, path, most), word, "at {path}");
    }
    assert_eq!(rt; files.get("/build/c"), Some(b"three".as_slice()));
    assert_eq!(rt; files.faults(), 0);
    Ok(())
}

#[test]
fn a_byte_at_a_put(rt: HostRuntime) -> Result<(), Fail> {
    let alloc = rt.alloc();
    let mut sink = MemSink::new(alloc, vec![in alloc; 2]?, 1);
    for (piece, answer) in [
        ("ab", Ok(1)),
        ("bc", Err(Refusal::Because(Failed))),
        ("bc", Ok(1)),
        ("", Ok(0)),
    ] {
        assert_eq!(rt; sink.put(piece.as_bytes()), answer, "at {piece}");
    }
    assert_eq!(rt; sink.as_slice(), b"ab".as_slice());
    assert_eq!(rt; sink.faults(), 1);
    Ok(())
}

#[test]
fn hidden_and_built_paths_are_not_listed(rt: HostRuntime) {
    for (path, listed) in [
        ("/a/build/b", true),
        ("/build", true),
        ("/builds/a", true),
        ("/build/a", false),
        ("/a/.b/c", false),
        (".a", false),
        ("a.b", true),
    ] {
        assert_eq!(rt; is_listed(path), listed, "at {path}");
    }
}
