use crate::{Task, Usage, read_words};
use dg_base::Refusal;
use std::alloc::{AllocError, Global};
use std::test::Fail;

// What words say, which a bar separates: as a plain reading of the grammar in Python has them.
static READ: [(&str, &str); 146] = [
    ("run|a", "run /a 4 4096 false"),
    ("run|/main.script", "run /main.script 4 4096 false"),
    ("run|a/b.script", "run /a/b.script 4 4096 false"),
    ("run|a|--workers|0", "run /a 0 4096 false"),
    ("run|a|--workers=0", "run /a 0 4096 false"),
    ("run|--workers|0|a", "run /a 0 4096 false"),
    ("run|--workers=16|a", "run /a 16 4096 false"),
    ("run|--workers=17|a", "usage"),
    ("run|a|--workers|00", "run /a 0 4096 false"),
    (
        "run|a|--workers|00000000000000000016",
        "run /a 16 4096 false",
    ),
    ("run|a|--workers|000000000000000000016", "usage"),
    ("run|a|--workers", "usage"),
    ("run|a|--workers=", "usage"),
    ("run|a|--workers|--stats", "usage"),
    ("run|a|--workers|-1", "usage"),
    ("run|a|--workers=-1", "usage"),
    ("run|a|--workers|+1", "usage"),
    ("run|a|--workers=0x1", "usage"),
    ("run|a|--workers|1|--workers|2", "usage"),
    ("run|a|--workers=1|--workers=1", "usage"),
    ("run|a|--work|1", "usage"),
    ("run|a|-w|1", "usage"),
    ("run|a|--cache|1", "run /a 4 1 false"),
    ("run|a|--cache|0", "usage"),
    ("run|a|--cache=1000000", "run /a 4 1000000 false"),
    ("run|a|--cache=1000001", "usage"),
    ("run|a|--cache|4097|--workers=3", "run /a 3 4097 false"),
    ("run|a|--cache|1|--cache|1", "usage"),
    ("run|a|--stats", "usage"),
    ("run|a|--stats|--workers|0", "run /a 0 4096 true"),
    ("run|a|--stats|--workers|00", "run /a 0 4096 true"),
    ("run|--stats|a|--workers=0", "run /a 0 4096 true"),
    ("run|a|--stats|--workers|4", "usage"),
    ("run|a|--stats=true|--workers|0", "usage"),
    ("run|a|--stats=|--workers|0", "usage"),
    ("run|a|--stats|--stats|--workers|0", "usage"),
    ("run", "usage"),
    ("run|a|b", "usage"),
    ("run|--", "usage"),
    ("run|--|a", "run /a 4 4096 false"),
    ("run|a|--", "run /a 4 4096 false"),
    ("run|--|a|--workers|0", "usage"),
    ("run|--workers|0|--|a", "run /a 0 4096 false"),
    ("run|--workers|0|--|-a", "run /-a 0 4096 false"),
    ("run|--workers|--|a", "usage"),
    ("run|--|--", "run /-- 4 4096 false"),
    ("run|--|-", "run /- 4 4096 false"),
    ("run|--|--stats", "run /--stats 4 4096 false"),
    ("run|--|a|--", "usage"),
    ("run|-", "usage"),
    ("run|-a", "usage"),
    ("run|---", "usage"),
    ("run|--=a", "usage"),
    ("run|--a=b|c", "usage"),
    ("run|a|-h", "usage"),
    ("run|a|--help", "usage"),
    ("run|-h", "usage"),
    ("run|--help", "usage"),
    ("run|a|--version", "usage"),
    ("run|a|-V", "usage"),
    ("run|/", "usage"),
    ("run|//a", "usage"),
    ("run|a//b", "usage"),
    ("run|a/", "usage"),
    ("run|a/../b", "usage"),
    ("run|.", "usage"),
    ("run|..", "usage"),
    ("run|./a", "usage"),
    ("run|...", "run /... 4 4096 false"),
    ("run|a=b", "run /a=b 4 4096 false"),
    ("run|--workers=0|--cache=9|--stats|/a", "run /a 0 9 true"),
    ("check", "check"),
    ("check|--", "check"),
    ("check|--|a", "usage"),
    ("check|a", "usage"),
    ("check|-", "usage"),
    ("check|-h", "usage"),
    ("check|--help", "usage"),
    ("check|--workers|0", "usage"),
    ("check|--stats", "usage"),
    ("check|--|--", "usage"),
    ("build|/a.go", "build /a.go 4"),
    ("build|a.go|--workers|2", "build /a.go 2"),
    ("build|a.go|--cache|2", "usage"),
    ("build|a.go|--stats", "usage"),
    ("build", "usage"),
    ("build|a|b", "usage"),
    ("build|--|-a.go", "build /-a.go 4"),
    ("build|a.go|--workers|17", "usage"),
    ("gen|1|2", "gen 1 2 4 4096"),
    ("gen|0|1", "gen 0 1 4 4096"),
    ("gen|0|64", "gen 0 64 4 4096"),
    ("gen|0|65", "usage"),
    ("gen|0|0", "usage"),
    (
        "gen|18446744073709551615|1",
        "gen 18446744073709551615 1 4 4096",
    ),
    ("gen|18446744073709551616|1", "usage"),
    ("gen|99999999999999999999|1", "usage"),
    ("gen|00000000000000000001|1", "gen 1 1 4 4096"),
    ("gen|000000000000000000001|1", "usage"),
    ("gen|1", "usage"),
    ("gen|1|2|3", "usage"),
    ("gen|-1|2", "usage"),
    ("gen|--|-1|2", "usage"),
    ("gen|1|2|--workers|0|--cache|7", "gen 1 2 0 7"),
    ("gen|--workers=16|1|--cache=1000000|2", "gen 1 2 16 1000000"),
    ("gen|1|2|--stats", "usage"),
    ("gen|1|a", "usage"),
    ("format|a.go", "format /a.go"),
    ("format|/b/c.collection", "format /b/c.collection"),
    ("format|.go", "format /.go"),
    ("format|go", "usage"),
    ("format|a.gox", "usage"),
    ("format|a.GO", "usage"),
    ("format|a.script", "usage"),
    ("format|a.collection|--workers|0", "usage"),
    ("format", "usage"),
    ("format|--|-x.go", "format /-x.go"),
    ("format|--", "usage"),
    ("help", "usage"),
    ("--help", "usage"),
    ("-h", "usage"),
    ("--", "usage"),
    ("Run|a", "usage"),
    ("runs|a", "usage"),
    ("run|a|--Workers|0", "usage"),
    ("run|a|--workers|=|0", "usage"),
    ("", "usage"),
    ("|run|a", "usage"),
    ("run|", "usage"),
    ("run|a|", "usage"),
    ("run|--workers||a", "usage"),
    ("run||--", "usage"),
    ("check|", "usage"),
    ("build|", "usage"),
    ("gen||1", "usage"),
    ("gen|1|", "usage"),
    ("format|", "usage"),
    ("run|a|--cache|", "usage"),
    ("run| a", "run / a 4 4096 false"),
    ("run|a b", "run /a b 4 4096 false"),
    ("run|-- a", "usage"),
    ("run|ä", "run /ä 4 4096 false"),
    ("run|-é", "usage"),
    ("run|a|--workers|١", "usage"),
    ("run|--workers=1=1|a", "usage"),
    ("run|a|--workers|1 ", "usage"),
];

// What the words were read as.
fn said(alloc: Global, task: &Result<Task, Refusal<Usage>>) -> Result<String, AllocError> {
    match task {
        Ok(
            Task::Run {
                script,
                workers,
                cache,
                stats,
            },
        ) => format!(in alloc; "run {} {workers} {cache} {stats}", script.as_str()),
        Ok(Task::Check) => format!(in alloc; "check"),
        Ok(Task::Build { path, workers }) => format!(in alloc; "build {} {workers}", path.as_str()),
        Ok(
            Task::Gen {
                seed,
                size,
                workers,
                cache,
            },
        ) => format!(in alloc; "gen {seed} {size} {workers} {cache}"),
        Ok(Task::Format { path }) => format!(in alloc; "format {}", path.as_str()),
        Err(Refusal::Because(Usage)) => format!(in alloc; "usage"),
        Err(Refusal::NoMemory) => format!(in alloc; "no memory"),
    }
}

fn words_in(alloc: Global, line: &str) -> Result<Vec<String>, AllocError> {
    let mut words = Vec::new(alloc);
    for word in line.split('|') {
        words.push(String::from_str(alloc, word)?)?;
    }
    Ok(words)
}

// What the words of a line are read as.
fn read(alloc: Global, line: &str) -> Result<String, AllocError> {
    let words = words_in(alloc, line)?;
    said(alloc, &read_words(alloc, words.as_slice()))
}

#[test]
fn reads_lines(rt: HostRuntime) -> Result<(), Fail> {
    for (line, expected) in READ.iter() {
        let task = read(rt.alloc(), line)?;
        assert_eq!(rt; task.as_str(), *expected);
    }
    Ok(())
}

// A path of so many letters.
fn reads_path(alloc: Global, letter: &str, count: usize) -> Result<bool, AllocError> {
    let mut line = String::from_str(alloc, "build|")?;
    for _ in 0..count {
        line.push_str(letter)?;
    }
    let task = read(alloc, line.as_str())?;
    Ok(task.as_str() != "usage")
}

// No word at all, and paths that are built at their most bytes and their most `@`; a slash comes before each.
#[test]
fn reads_ends(rt: HostRuntime) -> Result<(), Fail> {
    let alloc = rt.alloc();
    let none: Vec<String> = Vec::new(alloc);
    let task = said(alloc, &read_words(alloc, none.as_slice()))?;
    assert_eq!(rt; task.as_str(), "usage");
    assert!(rt; reads_path(alloc, "a", 16_381)?);
    assert!(rt; !reads_path(alloc, "a", 16_382)?);
    assert!(rt; reads_path(alloc, "@", 64)?);
    assert!(rt; !reads_path(alloc, "@", 65)?);
    Ok(())
}
