//! Deeds over files and a sink in memory, with a call that fails.
use super::{Deed, Stop, do_all, put_lines};
use dg_base::{Refusal, Str};
use dg_files::{Bytes, Failed, MemFiles, MemSink, are_distinct};
use std::alloc::{AllocError, Global};
use std::test::Fail;

fn write(alloc: Global, path: &str, bytes: &str) -> Result<Deed, AllocError> {
    Ok(Deed::Write {
        path: Str::of(String::from_str(alloc, path)?),
        bytes: Bytes::from_slice(alloc, bytes.as_bytes())?,
    })
}

fn put(alloc: Global, line: &str) -> Result<Deed, AllocError> {
    Ok(Deed::Put(Bytes::from_slice(alloc, line.as_bytes())?))
}

/// Two files, each before the line that tells of it.
fn two_builds(alloc: Global) -> Result<Vec<Deed>, AllocError> {
    let mut deeds = Vec::new(alloc);
    deeds.push(write(alloc, "/a", "new")?)?;
    deeds.push(put(alloc, "1: a\n")?)?;
    deeds.push(write(alloc, "/b", "two")?)?;
    deeds.push(put(alloc, "2: b\n")?)?;
    Ok(deeds)
}

/// The file `/a` with the bytes `old`, and the number of the call that fails, 0 for none.
fn old_file(alloc: Global, failing: u64) -> Result<MemFiles, AllocError> {
    let mut tree = Vec::new(alloc);
    let bytes = Vec::from_slice(alloc, b"old")?;
    tree.push((String::from_str(alloc, "/a")?, bytes))?;
    if !are_distinct(&tree) {
        return Err(AllocError);
    }
    Ok(MemFiles::new(alloc, tree, vec![in alloc; failing]?))
}

/// A sink that takes so many bytes a put, and the number of the put that fails, 0 for none.
fn sink(alloc: Global, failing: u64, most: usize) -> Result<MemSink, AllocError> {
    Ok(MemSink::new(alloc, vec![in alloc; failing]?, most.max(1)))
}

/// Whether the file at the path has these bytes, or is absent where there are none.
fn holds(files: &MemFiles, path: &str, bytes: &str) -> bool {
    match files.get(path) {
        Some(found) => !bytes.is_empty() && found == bytes.as_bytes(),
        None => bytes.is_empty(),
    }
}

#[test]
fn deeds_are_done_in_order_until_a_call_fails(rt: HostRuntime) -> Result<(), Fail> {
    let alloc = rt.alloc();
    let deeds = two_builds(alloc)?;
    for (write, put, most, end, first, second, text) in [
        (0, 0, 4096, Ok(()), "new", "two", "1: a\n2: b\n"),
        (0, 0, 1, Ok(()), "new", "two", "1: a\n2: b\n"),
        (1, 0, 4096, Err(Stop::FileFault), "old", "", ""),
        (2, 0, 4096, Err(Stop::FileFault), "new", "", "1: a\n"),
        (2, 0, 1, Err(Stop::FileFault), "new", "", "1: a\n"),
        (3, 0, 4096, Ok(()), "new", "two", "1: a\n2: b\n"),
        (0, 1, 4096, Err(Stop::SinkFault), "new", "", ""),
        (0, 2, 4096, Err(Stop::SinkFault), "new", "two", "1: a\n"),
        (0, 3, 4096, Ok(()), "new", "two", "1: a\n2: b\n"),
        (0, 1, 1, Err(Stop::SinkFault), "new", "", ""),
        (0, 4, 1, Err(Stop::SinkFault), "new", "", "1: "),
        (0, 6, 1, Err(Stop::SinkFault), "new", "two", "1: a\n"),
        (0, 10, 1, Err(Stop::SinkFault), "new", "two", "1: a\n2: b"),
        (0, 11, 1, Ok(()), "new", "two", "1: a\n2: b\n"),
        (2, 2, 4096, Err(Stop::FileFault), "new", "", "1: a\n"),
        (2, 1, 4096, Err(Stop::SinkFault), "new", "", ""),
    ] {
        let mut files = old_file(alloc, write)?;
        let mut out = sink(alloc, put, most)?;
        let ended = do_all(alloc, &mut files, &mut out, &deeds);
        assert_eq!(rt; ended, end, "{write} {put} {most}");
        assert!(rt; holds(&files, "/a", first), "{write} {put} {most}");
        assert!(rt; holds(&files, "/b", second), "{write} {put} {most}");
        assert_eq!(rt; out.as_slice(), text.as_bytes(), "{write} {put} {most}");
    }
    Ok(())
}

#[test]
fn lines_are_put_until_a_put_fails(rt: HostRuntime) -> Result<(), Fail> {
    let alloc = rt.alloc();
    let mut lines = Vec::new(alloc);
    for line in ["ab\n", "", "c\n"] {
        lines.push(Bytes::from_slice(alloc, line.as_bytes())?)?;
    }
    for (failing, most, end, text) in [
        (0, 4096, Ok(()), "ab\nc\n"),
        (0, 2, Ok(()), "ab\nc\n"),
        (2, 4096, Err(Refusal::Because(Failed)), "ab\n"),
        (2, 2, Err(Refusal::Because(Failed)), "ab"),
        (5, 1, Err(Refusal::Because(Failed)), "ab\nc"),
    ] {
        let mut out = sink(alloc, failing, most)?;
        assert_eq!(rt; put_lines(&mut out, &lines), end, "{failing} {most}");
        assert_eq!(rt; out.as_slice(), text.as_bytes(), "{failing} {most}");
    }
    Ok(())
}
