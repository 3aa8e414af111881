//! Projects: loaded and checked, built, and made.
use crate::cases::MADE;
use crate::projects::{BUILDS, Build, Case, FAILING, PROJECTS};
use crate::tests::{Outside, ends, played, project_of, words_of};
use dg_files::{MemFiles, MemSink, are_distinct};
use std::alloc::{AllocError, Global};
use std::test::Fail;

/// Whether the files at these paths have these bytes, or are absent where there are none.
fn holds(files: &MemFiles, built: &[(&str, &str)]) -> bool {
    for (path, text) in built {
        let as_due = match files.get(path) {
            Some(found) => found == text.as_bytes(),
            None => text.is_empty(),
        };
        if !as_due {
            return false;
        }
    }
    true
}

/// Whether a build ends with the status, having printed and written what is due, where a call of the files (0 for none)
/// and a put fail.
fn builds(alloc: Global, case: &Build<'_>) -> Result<bool, AllocError> {
    let words = words_of(alloc, case.words)?;
    let mut files = project_of(alloc, case.files, case.failing_call)?;
    let fail = vec![in alloc; case.failing_put]?;
    let mut out = MemSink::new(alloc, fail, case.most.max(1));
    let ended = played(alloc, words.as_slice(), &mut files, &mut out);
    Ok(
        ended.status.code() == case.status
            && out.as_slice() == case.text.as_bytes()
            && holds(&files, case.built),
    )
}

#[test]
fn builds_are_written_before_their_lines(rt: HostRuntime) -> Result<(), Fail> {
    for case in BUILDS.iter() {
        assert!(rt; builds(rt.alloc(), case)?, "{} {}", case.words, case.text);
    }
    Ok(())
}

/// Whether a run over a project ends with the status, having printed just the text.
fn prints(alloc: Global, case: &Case<'_>, failing: u64) -> Result<bool, AllocError> {
    let words = words_of(alloc, case.words)?;
    let mut files = project_of(alloc, case.files, failing)?;
    let mut out = MemSink::new(alloc, Vec::new(alloc), 4096);
    let ended = played(alloc, words.as_slice(), &mut files, &mut out);
    Ok(ended.status.code() == case.status && out.as_slice() == case.text.as_bytes())
}

#[test]
fn projects_are_loaded_and_checked(rt: HostRuntime) -> Result<(), Fail> {
    for case in PROJECTS.iter() {
        assert!(rt; prints(rt.alloc(), case, 0)?, "{}", case.text);
    }
    // The script, the list, the two files: where one of these calls fails, nothing is printed.
    for call in 1..5 {
        assert!(rt; prints(rt.alloc(), &FAILING, call)?, "{call}");
    }
    Ok(())
}

/// Whether the project of so many scripts of so many blanks each, and one blank more in the last one where it is to have
/// that, is checked so.
fn blanks_are(
    alloc: Global,
    count: usize,
    size: usize,
    more: usize,
    text: &str,
) -> Result<bool, AllocError> {
    let mut tree = Vec::new(alloc);
    for number in 0..count {
        let path = format!(in alloc; "/{number}.script")?;
        let bytes = if number == 0 { more } else { size };
        tree.push((path, vec![in alloc; b' '; bytes]?))?;
    }
    if !are_distinct(&tree) {
        return Err(AllocError);
    }
    let mut files = MemFiles::new(alloc, tree, Vec::new(alloc));
    let mut out = MemSink::new(alloc, Vec::new(alloc), 4096);
    let words = words_of(alloc, "check")?;
    played(alloc, words.as_slice(), &mut files, &mut out);
    Ok(out.as_slice() == text.as_bytes())
}

#[test]
fn a_project_has_at_most_4096_files_of_64_mib(rt: HostRuntime) -> Result<(), Fail> {
    let alloc = rt.alloc();
    for (count, size, more, text) in [
        (4096, 0, 0, "nodes 4096 arcs 0 bad 0\n"),
        (4097, 0, 0, "error: too large files\n"),
        (64, 1_048_576, 1_048_576, "nodes 64 arcs 0 bad 0\n"),
        (65, 1_048_576, 1, "error: too large total\n"),
        (2, 0, 1_048_577, "error: too large file\n"),
    ] {
        assert!(rt; blanks_are(alloc, count, size, more, text)?, "{count}");
    }
    Ok(())
}

#[test]
fn a_project_is_made_and_played_without_a_call_of_the_files(rt: HostRuntime) -> Result<(), Fail> {
    let alloc = rt.alloc();
    for (words, failing_put, status, text) in &MADE {
        for failing_read in [0, 1] {
            let outside = Outside {
                path: "/g/c0.collection",
                script: b"name: \"of another\"",
                failing_read,
                failing_put: *failing_put,
                most: 4096,
            };
            assert!(rt;
                ends(alloc, words, &outside, *status, text)?,
                "{words} {failing_read}"
            );
        }
    }
    Ok(())
}
