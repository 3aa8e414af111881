//! The tool with workers, against the tool on one thread.
ghost use Rattle.std.specs.Prelude.{◌≡◌, ◌<◌};

use crate::gates::{Delays, SecondFirst};
use dg_base::{Endpoint, Label, NodeId, Steps};
use dg_desk::{EventOf, What};
use dg_files::{DirFiles, Files, MemFiles, MemSink, are_distinct};
use dg_kinds_coll::Defold;
use dg_line::{LineName, Mark, Revision, Rows};
use dg_pool::{Gate, OpenGate};
use dg_tool::{ToolDesk, run_alone, run_tool};
use itoa::Buffer;
use std::alloc::{AllocError, Global};
use std::marker::Brand;
use std::rt;
use std::sync::Wait;
use std::sync::ledger::{Blank, Ledger};
use std::test::Fail;
use std::thread::Threads;

const FOLDER: &str = "scripts";

/// Two numbers, a sum of them, and a question.
const SUM: &str =
    "make Num a\nmake Num b\nmake Sum s\nset a.value 3\nset b.value 4\nconnect a.value s.terms\nconnect b.value s.terms\nask now s.total\n";

const SUM_LINES: &str = "1: ok\n2: ok\n3: ok\n4: ok\n5: ok\n6: ok\n7: ok\n8: 7\n";

/// The sum, and its output.
const TOTAL: Endpoint = Endpoint {
    node: NodeId(3),
    label: Label(4),
};

fn words_of(alloc: Global, text: &str) -> Result<Vec<String>, AllocError> {
    let mut words = Vec::new(alloc);
    for word in text.split(' ') {
        words.push(String::from_str(alloc, word)?)?;
    }
    Ok(words)
}

fn sink(alloc: Global) -> MemSink {
    MemSink::new(alloc, Vec::new(alloc), 4096)
}

fn script_at_e(alloc: Global, script: &str) -> Result<MemFiles, AllocError> {
    let mut tree = Vec::new(alloc);
    tree.push((
        String::from_str(alloc, "/e.txt")?,
        Vec::from_slice(alloc, script.as_bytes())?,
    ))?;
    if !are_distinct(&tree) {
        return Err(AllocError);
    }
    Ok(MemFiles::new(alloc, tree, Vec::new(alloc)))
}

/// How the tool ends.
fn status_in<
    F: Files,
    G: Gate + Sync,
    J: LineName + Send + Sync,
    R: Threads + Wait + Drop + Send + Sync + Copy,
    L: Ledger,
>(
    rt: R,
    alloc: Global,
    rows: Rows<Revision<Defold>>,
    words: &[String],
    files: &mut F,
    out: &mut MemSink,
    gate: &G,
    blank: Blank,
) -> u8
    requires rows { rows ≡ J.shelves }
    requires name { blank.name ≡ L.name }
    requires parts { blank.parts ≡ L.parts }
    requires some { 0 < blank.parts }
{
    let mut steps = Steps::<L>::open(blank);
    let ended = run_tool::<F, MemSink, G, J, R, L>(
        rt, alloc, rows, words, files, out, gate, &mut steps,
    );
    ended.status.code()
}

fn played<F: Files, G: Gate + Sync, R: Threads + Wait + Drop + Send + Sync + Copy>(
    rt: R,
    alloc: Global,
    words: &[String],
    files: &mut F,
    out: &mut MemSink,
    gate: &G,
) -> Result<u8, AllocError> {
    let rows = Rows::new(alloc)?;
    Ok(status_in::<F, G, Brand, R, Brand>(rt, alloc, rows, words, files, out, gate, Blank::new(1)))
}

fn status_alone<L: Ledger>(
    alloc: Global,
    words: &[String],
    files: &mut MemFiles,
    out: &mut MemSink,
    blank: Blank,
) -> u8
    requires name { blank.name ≡ L.name }
    requires parts { blank.parts ≡ L.parts }
    requires some { 0 < blank.parts }
{
    let mut steps = Steps::<L>::open(blank);
    run_alone(alloc, words, files, out, &mut steps)
        .status
        .code()
}

fn played_alone(alloc: Global, words: &[String], files: &mut MemFiles, out: &mut MemSink) -> u8 {
    status_alone::<Brand>(alloc, words, files, out, Blank::new(1))
}

/// Whether a script that lies in a real folder ends with the status, having printed just the text.
fn ends<R: rt::Files + AllocGlobal + Threads + Wait + Drop + Send + Sync + Copy>(
    rt: R,
    script: &str,
    status: u8,
    text: &str,
) -> Result<bool, AllocError> {
    let alloc = rt.alloc();
    let mut files = DirFiles::new(rt, String::from_str(alloc, FOLDER)?);
    if files.write(alloc, "/e.txt", script.as_bytes()).is_err() {
        return Ok(false);
    }
    for words in ["run /e.txt --workers 0", "run /e.txt"] {
        let words = words_of(alloc, words)?;
        let mut files = DirFiles::new(rt, String::from_str(alloc, FOLDER)?);
        let mut out = sink(alloc);
        let ended = played(rt, alloc, words.as_slice(), &mut files, &mut out, &OpenGate)?;
        if ended != status || out.as_slice() != text.as_bytes() {
            return Ok(false);
        }
    }
    Ok(true)
}

#[test]
fn scripts_in_a_folder_are_played_or_refused(rt: HostRuntime) -> Result<(), Fail> {
    for (script, status, text) in [
        ("", 0, ""),
        ("make\tNum  _a1\r\n", 0, "1: ok\n"),
        (SUM, 0, SUM_LINES),
        ("make Sum s\nask now s.total", 0, "1: ok\n2: 0\n"),
        ("begin\nmake Num a\n", 3, "error: script line 1 OpenBlock\n"),
        ("make Num \n", 3, "error: script line 1 Arity\n"),
        ("undo\n", 0, "1: NothingToUndo\n"),
        ("evict 1\n", 0, "1: ok\n"),
        ("build c\n", 0, "1: NoName\n"),
        (
            "make GameObject g\nset g.path \"/g.go\"\nbuild g\n",
            0,
            "1: ok\n2: ok\n3: built 1\n",
        ),
        ("ask now s.total\nmake Sum s\n", 0, "1: NoName\n2: ok\n"),
        (
            "begin\nmake Sum s\nset s.value 1\nend\n",
            0,
            "1: refused step 2 NotProperty\n",
        ),
    ] {
        assert!(rt; ends(rt, script, status, text)?, "{script}");
    }
    Ok(())
}

/// Whether the tool does what it does on one thread, with these words behind the script's path.
fn is_as_alone<G: Gate + Sync, R: AllocGlobal + Threads + Wait + Drop + Send + Sync + Copy>(
    rt: R,
    script: &str,
    workers: &str,
    gate: &G,
) -> Result<bool, AllocError> {
    let alloc = rt.alloc();
    let mut words = words_of(alloc, "run /e.txt --workers")?;
    words.push(String::from_str(alloc, workers)?)?;
    let mut files = script_at_e(alloc, script)?;
    let mut alone = sink(alloc);
    let due = played_alone(alloc, words.as_slice(), &mut files, &mut alone);
    let mut out = sink(alloc);
    let ended = played(rt, alloc, words.as_slice(), &mut files, &mut out, gate)?;
    Ok(ended == due && out.as_slice() == alone.as_slice())
}

/// So many edits, with a question behind each: at the current revision mostly, and at a pin of an older one.
fn edits_and_asks(alloc: Global, count: u32) -> Result<String, AllocError> {
    let mut script = String::from_str(
        alloc,
        "make Num a\nmake Num b\nmake Sum s\nmake Sum t\nconnect a.value s.terms\nconnect b.value s.terms\nconnect s.total t.terms\npin p\n",
    )?;
    for number in 0..count {
        match number % 5 {
            3 => script.push_str("undo\n")?,
            4 => script.push_str("redo\n")?,
            _ => {
                script.push_str("set a.value ")?;
                script.push_str(Buffer::new().format(number))?;
                script.push_str("\n")?;
            }
        }
        if number % 16 == 0 {
            script.push_str("drop p\npin p\nevict 1\n")?;
        }
        match number % 3 {
            0 => script.push_str("ask p t.total\n")?,
            1 => script.push_str("ask now s.total\n")?,
            _ => script.push_str("ask now t.total\n")?,
        }
    }
    Ok(script)
}

#[test]
fn workers_change_no_line(rt: HostRuntime) -> Result<(), Fail> {
    let script = edits_and_asks(rt.alloc(), 200)?;
    for workers in ["0", "1", "2", "4", "16"] {
        assert!(rt;
            is_as_alone(rt, script.as_str(), workers, &OpenGate)?,
            "{workers}"
        );
        for seed in 0..8u64 {
            assert!(rt;
                is_as_alone(rt, script.as_str(), workers, &Delays { seed })?,
                "{workers} {seed}"
            );
        }
    }
    Ok(())
}

#[test]
fn a_project_from_a_seed_comes_to_the_same_with_workers(rt: HostRuntime) -> Result<(), Fail> {
    let alloc = rt.alloc();
    for (words, text) in [
        (
            "gen 7 1 --workers 0",
            "files 3 nodes 7 arcs 4\nedits 2 undos 1 redos 1 asks 2\ngood 2 bad 0 cycle 0\nbuilt 2 sum 68\n",
        ),
        (
            "gen 7 2 --workers 8",
            "files 6 nodes 19 arcs 10\nedits 4 undos 2 redos 2 asks 4\ngood 4 bad 0 cycle 0\nbuilt 3 sum 186\n",
        ),
        (
            "gen 7 16 --workers 8",
            "files 48 nodes 712 arcs 94\nedits 32 undos 16 redos 16 asks 32\ngood 32 bad 0 cycle 0\nbuilt 17 sum ",
        ),
    ] {
        let words = words_of(alloc, words)?;
        let mut files = script_at_e(alloc, "")?;
        let mut out = sink(alloc);
        let ended = played(rt, alloc, words.as_slice(), &mut files, &mut out, &OpenGate)?;
        assert!(rt;
            ended == 0 && out.as_slice().starts_with(text.as_bytes()),
            "{text}"
        );
        let mut alone = sink(alloc);
        let due = played_alone(alloc, words.as_slice(), &mut files, &mut alone);
        assert!(rt; due == 0 && out.as_slice() == alone.as_slice(), "{text}");
    }
    Ok(())
}

/// Whether a record publishes ask 0 with nothing new: its value was known.
fn is_a_hit<M: Mark<Of = Revision<Defold>>>(event: &EventOf<M>) -> bool {
    match &event.what {
        What::Publish(offer, _) => {
            offer.ask() == 0 && offer.entries().is_empty() && offer.hits() == [TOTAL].as_slice()
        }
        _ => false,
    }
}

/// Whether ask 0, which is held until ask 1 is done, begins with what that one published.
fn hits_the_second<
    J: LineName + Send + Sync,
    R: Threads + Wait + Drop + Send + Sync + Copy,
    L: Ledger,
>(
    rt: R,
    alloc: Global,
    rows: Rows<Revision<Defold>>,
    words: &[String],
    files: &mut MemFiles,
    out: &mut MemSink,
    blank: Blank,
) -> bool
    requires rows { rows ≡ J.shelves }
    requires name { blank.name ≡ L.name }
    requires parts { blank.parts ≡ L.parts }
    requires some { 0 < blank.parts }
{
    let mut steps = Steps::<L>::open(blank);
    let gate = SecondFirst::new();
    let ended = run_tool::<MemFiles, MemSink, SecondFirst, J, R, L>(
        rt, alloc, rows, words, files, out, &gate, &mut steps,
    );
    match ended.desk {
        Some(ToolDesk::Shared(desk)) => { !gate.gave_up() && desk.history().iter().any(is_a_hit) }
        _ => false,
    }
}

fn second_is_hit<R: Threads + Wait + Drop + Send + Sync + Copy>(
    rt: R,
    alloc: Global,
    words: &[String],
    files: &mut MemFiles,
    out: &mut MemSink,
) -> Result<bool, AllocError> {
    let rows = Rows::new(alloc)?;
    Ok(hits_the_second::<Brand, R, Brand>(rt, alloc, rows, words, files, out, Blank::new(1)))
}

#[test]
fn a_worker_begins_with_what_another_published(rt: HostRuntime) -> Result<(), Fail> {
    let alloc = rt.alloc();
    let mut script = String::from_str(alloc, SUM)?;
    script.push_str("ask now s.total\n")?;
    let words = words_of(alloc, "run /e.txt --workers 2")?;
    let mut files = script_at_e(alloc, script.as_str())?;
    let mut out = sink(alloc);
    assert!(rt; second_is_hit(rt, alloc, words.as_slice(), &mut files, &mut out)?);
    let mut text = String::from_str(alloc, SUM_LINES)?;
    text.push_str("9: 7\n")?;
    assert!(rt; out.as_slice() == text.as_str().as_bytes());
    Ok(())
}
