//! Scripts and files, and what the whole tool ends with and prints.
ghost use Rattle.std.specs.Prelude.{◌≡◌, ◌<◌};

use crate::cases::{
    EDITED, FIRST, FIRST_LINES, FORMATTED, GRAPHS, NAMES, OVERRIDES, REFUSED, SPELLED, TEN,
    WORDS_ENDED,
};
use crate::{Ended, run_alone};
use dg_alone::AloneDesk;
use dg_base::Steps;
use dg_files::{MemFiles, MemSink, are_distinct};
use itoa::Buffer;
use std::alloc::{AllocError, Global};
use std::marker::Brand;
use std::sync::ledger::{Blank, Ledger};
use std::test::Fail;

pub(crate) const WORDS: &str = "run /e.txt --workers 0";

/// What a run has outside of it: a file, which is the script at `/e.txt` mostly, the numbers of the read and of the put that
/// fail (0 for none), and how many bytes a put takes.
#[derive(Drop)]
pub(crate) struct Outside<'a> {
    pub(crate) path: &'a str,
    pub(crate) script: &'a [u8],
    pub(crate) failing_read: u64,
    pub(crate) failing_put: u64,
    pub(crate) most: usize,
}

pub(crate) fn sound(script: &str) -> Outside<'_> {
    Outside {
        path: "/e.txt",
        script: script.as_bytes(),
        failing_read: 0,
        failing_put: 0,
        most: 4096,
    }
}

pub(crate) fn words_of(alloc: Global, text: &str) -> Result<Vec<String>, AllocError> {
    let mut words = Vec::new(alloc);
    for word in text.split(' ') {
        words.push(String::from_str(alloc, word)?)?;
    }
    Ok(words)
}

/// Files at these paths, of which one call fails (0 for none).
pub(crate) fn project_of(
    alloc: Global,
    files: &[(&str, &[u8])],
    failing: u64,
) -> Result<MemFiles, AllocError> {
    let mut tree = Vec::new(alloc);
    for (path, bytes) in files {
        tree.push((
            String::from_str(alloc, path)?,
            Vec::from_slice(alloc, bytes)?,
        ))?;
    }
    if !are_distinct(&tree) {
        return Err(AllocError);
    }
    Ok(MemFiles::new(alloc, tree, vec![in alloc; failing]?))
}

fn ended<L: Ledger>(
    alloc: Global,
    words: &[String],
    files: &mut MemFiles,
    out: &mut MemSink,
    blank: Blank,
) -> Ended<AloneDesk>
    requires name { blank.name ≡ L.name }
    requires parts { blank.parts ≡ L.parts }
    requires some { 0 < blank.parts }
{
    let mut steps = Steps::<L>::open(blank);
    run_alone(alloc, words, files, out, &mut steps)
}

pub(crate) fn played(
    alloc: Global,
    words: &[String],
    files: &mut MemFiles,
    out: &mut MemSink,
) -> Ended<AloneDesk> {
    ended::<Brand>(alloc, words, files, out, Blank::new(1))
}

/// How a run ended, and what it printed.
pub(crate) fn run(
    alloc: Global,
    words: &str,
    outside: &Outside<'_>,
) -> Result<(Ended<AloneDesk>, Vec<u8>), AllocError> {
    let words = words_of(alloc, words)?;
    let mut files = project_of(
        alloc,
        &[(outside.path, outside.script)],
        outside.failing_read,
    )?;
    let fail = vec![in alloc; outside.failing_put]?;
    let mut out = MemSink::new(alloc, fail, outside.most.max(1));
    let ended = played(alloc, words.as_slice(), &mut files, &mut out);
    Ok((ended, Vec::from_slice(alloc, out.as_slice())?))
}

/// Whether a run ends with the status, having printed just the text. A desk is there just where a script was played to
/// its end.
pub(crate) fn ends(
    alloc: Global,
    words: &str,
    outside: &Outside<'_>,
    status: u8,
    text: &str,
) -> Result<bool, AllocError> {
    let (ended, printed) = run(alloc, words, outside)?;
    let plays = words.starts_with("run") || words.starts_with("build") || words.starts_with("gen");
    let played = plays && ended.status.code() == 0;
    Ok(
        ended.status.code() == status
            && printed.as_slice() == text.as_bytes()
            && ended.desk.is_some() == played,
    )
}

#[test]
fn the_first_script_ends_as_the_outside_lets_it(rt: HostRuntime) -> Result<(), Fail> {
    let alloc = rt.alloc();
    for (most, failing_read, failing_put, status, text) in [
        (4096, 0, 0, 0, FIRST_LINES),
        (1, 0, 0, 0, FIRST_LINES),
        (4096, 1, 0, 4, ""),
        (4096, 2, 0, 4, ""),
        // Beside the read of the script and the list of a project without files no call of the files is made, and no
        // put beside those of the lines.
        (4096, 3, 0, 0, FIRST_LINES),
        (4096, 0, 1, 5, ""),
        (4096, 0, 2, 5, "1: ok\n"),
        (4096, 0, 9, 0, FIRST_LINES),
        (1, 0, 10, 5, "1: ok\n2: "),
    ] {
        let outside = Outside {
            path: "/e.txt",
            script: FIRST.as_bytes(),
            failing_read,
            failing_put,
            most,
        };
        assert!(rt;
            ends(alloc, WORDS, &outside, status, text)?,
            "{failing_read} {failing_put} {most}"
        );
    }
    Ok(())
}

#[test]
fn a_sum_out_of_range_is_a_fault(rt: HostRuntime) -> Result<(), Fail> {
    let (ended, printed) = run(rt.alloc(), WORDS, &sound(TEN))?;
    assert_eq!(rt; ended.status.code(), 0);
    assert!(rt; printed.ends_with(b"30: ok\n31: 8999999991\n32: ok\n33: fault 11.total Range\n"));
    Ok(())
}

#[test]
fn the_words_decide_first(rt: HostRuntime) -> Result<(), Fail> {
    let alloc = rt.alloc();
    for (words, status, text) in &WORDS_ENDED {
        assert!(rt;
            ends(alloc, words, &sound("make"), *status, text)?,
            "{words}"
        );
    }
    Ok(())
}

/// Whether every script is played to its end, having printed just its text.
fn all_end(alloc: Global, cases: &[(&str, &str)]) -> Result<bool, AllocError> {
    for (script, text) in cases {
        if !ends(alloc, WORDS, &sound(script), 0, text)? {
            return Ok(false);
        }
    }
    Ok(true)
}

#[test]
fn scripts_are_read_in_every_spelling(rt: HostRuntime) -> Result<(), Fail> {
    assert!(rt; all_end(rt.alloc(), &SPELLED)?);
    Ok(())
}

#[test]
fn transactions_change_what_is_asked(rt: HostRuntime) -> Result<(), Fail> {
    assert!(rt; all_end(rt.alloc(), &GRAPHS)?);
    Ok(())
}

#[test]
fn names_stand_for_nodes(rt: HostRuntime) -> Result<(), Fail> {
    assert!(rt; all_end(rt.alloc(), &NAMES)?);
    Ok(())
}

#[test]
fn overrides_follow_their_originals(rt: HostRuntime) -> Result<(), Fail> {
    assert!(rt; all_end(rt.alloc(), &OVERRIDES)?);
    Ok(())
}

#[test]
fn edits_are_undone_and_pins_stay(rt: HostRuntime) -> Result<(), Fail> {
    assert!(rt; all_end(rt.alloc(), &EDITED)?);
    Ok(())
}

/// Whether a script of the same line many times, between a first part and an end, prints a first part,
/// this text behind each line's number, and an end.
fn repeats(alloc: Global, parts: &Repeated<'_>) -> Result<bool, AllocError> {
    let mut script = String::from_str(alloc, parts.first.0)?;
    let mut text = String::from_str(alloc, parts.first.1)?;
    for number in parts.from..parts.to {
        script.push_str(parts.line.0)?;
        if parts.named {
            script.push_str(Buffer::new().format(number))?;
        }
        script.push_str("\n")?;
        text.push_str(Buffer::new().format(number))?;
        text.push_str(parts.line.1)?;
    }
    script.push_str(parts.end.0)?;
    text.push_str(parts.end.1)?;
    ends(alloc, WORDS, &sound(script.as_str()), 0, text.as_str())
}

/// What a script with many like lines is made of, and what it prints: a first part, a line for each number,
/// with the number behind it where it is named, and an end.
#[derive(Drop)]
struct Repeated<'a> {
    first: (&'a str, &'a str),
    line: (&'a str, &'a str),
    named: bool,
    from: u32,
    to: u32,
    end: (&'a str, &'a str),
}

#[test]
fn a_run_has_at_most_16384_revisions_and_1024_live_pins(rt: HostRuntime) -> Result<(), Fail> {
    let alloc = rt.alloc();
    let revisions = Repeated {
        first: ("make Num a\n", "1: ok\n"),
        line: ("set a.value 1", ": ok\n"),
        named: false,
        from: 2,
        to: 16384,
        end: (
            "set a.value 1\nundo\nbegin\nend\nredo\nset a.frob 1\nmake Num b",
            "16384: LineFull\n16385: LineFull\n16386: Empty\n16388: NothingToRedo\n16389: refused step 1 NoLabel\n16390: LineFull\n",
        ),
    };
    assert!(rt; repeats(alloc, &revisions)?);
    let pins = Repeated {
        first: ("", ""),
        line: ("pin p", ": pinned 0\n"),
        named: true,
        from: 1,
        to: 1025,
        end: (
            "pin q\ndrop p7\npin p8\npin q\npin p7",
            "1025: PinsFull\n1026: ok\n1027: PinUsed\n1028: pinned 0\n1029: PinsFull\n",
        ),
    };
    assert!(rt; repeats(alloc, &pins)?);
    Ok(())
}

fn all_refused(alloc: Global) -> Result<bool, AllocError> {
    for (script, text) in &REFUSED {
        if !ends(alloc, WORDS, &sound(script), 3, text)? {
            return Ok(false);
        }
    }
    Ok(true)
}

#[test]
fn a_script_is_bad_at_a_line(rt: HostRuntime) -> Result<(), Fail> {
    assert!(rt; all_refused(rt.alloc())?);
    Ok(())
}

/// A script of a first part, a line that is repeated, and an end.
fn script_of(
    alloc: Global,
    first: &str,
    line: &str,
    count: u32,
    end: &str,
) -> Result<String, AllocError> {
    let mut script = String::from_str(alloc, first)?;
    for _ in 0..count {
        script.push_str(line)?;
    }
    script.push_str(end)?;
    Ok(script)
}

const TOO_LONG: &str = "error: too large script\n";

const TOO_MANY: &str = "error: too large lines\n";

#[test]
fn a_script_has_at_most_1_mib_and_65536_lines(rt: HostRuntime) -> Result<(), Fail> {
    let alloc = rt.alloc();
    // With its line feed the comment has 32 bytes, so that 32,768 of them are 1 MiB.
    let comment = "# a comment of thirty-one bytes\n";
    for (first, line, count, end, status, text) in [
        ("", comment, 32768, "", 0, ""),
        ("", comment, 32768, "#", 7, TOO_LONG),
        ("frob", comment, 32768, "", 7, TOO_LONG),
        ("make Num a\n", "\n", 65535, "", 0, "1: ok\n"),
        ("", "\n", 65535, "make Num a", 0, "65536: ok\n"),
        ("", "\n", 65536, "\r", 7, TOO_MANY),
        ("frob\n", "\n", 65535, "#", 7, TOO_MANY),
    ] {
        let script = script_of(alloc, first, line, count, end)?;
        assert!(rt;
            ends(alloc, WORDS, &sound(&script), status, text)?,
            "{count} {end}"
        );
    }
    Ok(())
}

#[test]
fn a_text_has_at_most_256_mib(rt: HostRuntime) -> Result<(), Fail> {
    let alloc = rt.alloc();
    // Each ask prints more than 65,000 bytes.
    let first = script_of(alloc, "make Text t\nset t.text \"", "x", 65000, "\"\n")?;
    let script = script_of(alloc, first.as_str(), "ask now t.text\n", 4130, "")?;
    let refused = ends(
        alloc,
        WORDS,
        &sound(script.as_str()),
        7,
        "error: too large text\n",
    )?;
    assert!(rt; refused);
    Ok(())
}

/// Whether a run that formats a file ends with the status, having printed just the text.
fn formats(
    alloc: Global,
    path: &str,
    text: &[u8],
    status: u8,
    printed: &str,
) -> Result<bool, AllocError> {
    let mut words = String::from_str(alloc, "format ")?;
    words.push_str(path)?;
    let outside = Outside {
        path,
        script: text,
        failing_read: 0,
        failing_put: 0,
        most: 7,
    };
    ends(alloc, words.as_str(), &outside, status, printed)
}

#[test]
fn files_are_printed_in_canonical_form(rt: HostRuntime) -> Result<(), Fail> {
    let alloc = rt.alloc();
    for (path, text, status, printed) in &FORMATTED {
        assert!(rt;
            formats(alloc, path, text.as_bytes(), *status, printed)?,
            "{path} {text}"
        );
    }
    assert!(rt; formats(alloc, "/p.go", b"z: \xff", 3, "error: file line 0 Utf8\n")?);
    let outside = sound("");
    assert!(rt; ends(alloc, "format /none.go", &outside, 2, "error: no input\n")?);
    // A path gets its slash.
    let outside = Outside {
        path: "/p.go",
        script: b"z: 1",
        failing_read: 0,
        failing_put: 0,
        most: 7,
    };
    assert!(rt; ends(alloc, "format p.go", &outside, 0, "z: 1\n")?);
    // A comment of 32 bytes, 32,768 times, is 1 MiB.
    let text = script_of(alloc, "", "# a comment of thirty-one bytes\n", 32768, "")?;
    assert!(rt; formats(alloc, "/p.go", text.as_bytes(), 0, "")?);
    let text = script_of(alloc, "", "# a comment of thirty-one bytes\n", 32768, "#")?;
    assert!(rt;
        formats(
            alloc,
            "/p.go",
            text.as_bytes(),
            7,
            "error: too large file\n"
        )?
    );
    Ok(())
}
