//! Small projects, and a file above its limit.
use crate::project::read_sources;
use dg_base::Refusal;
use dg_files::{MemFiles, are_distinct};
use std::alloc::{AllocError, Global};
use std::test::Fail;

/// So many scripts of so many blanks each.
fn blank_scripts(alloc: Global, count: usize, size: usize) -> Result<MemFiles, AllocError> {
    let mut tree = Vec::new(alloc);
    for number in 0..count {
        let path = format!(in alloc; "/{number}.script")?;
        tree.push((path, vec![in alloc; b' '; size]?))?;
    }
    if !are_distinct(&tree) {
        return Err(AllocError);
    }
    Ok(MemFiles::new(alloc, tree, Vec::new(alloc)))
}

/// How many files are read, or which limit is passed.
fn read(alloc: Global, count: usize, size: usize) -> Result<String, AllocError> {
    let mut files = blank_scripts(alloc, count, size)?;
    match read_sources(alloc, &mut files) {
        Ok(sources) => format!(in alloc; "{}", sources.file_count),
        Err(Refusal::Because(end)) => format!(in alloc; "{end:?}"),
        Err(Refusal::NoMemory) => Err(AllocError),
    }
}

#[test]
fn files_are_counted_and_one_may_be_too_large(rt: HostRuntime) -> Result<(), Fail> {
    let alloc = rt.alloc();
    for (count, size, expected) in [
        (0, 0, "0"),
        (1, 0, "1"),
        (3, 10, "3"),
        (1, 1_048_577, "TooLarge(File)"),
    ] {
        let ended = read(alloc, count, size)?;
        assert_eq!(rt; ended.as_str(), expected);
    }
    Ok(())
}
