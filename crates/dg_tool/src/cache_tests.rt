//! A cache changes the work, and no line.
use crate::cases::{WORKED, Worked};
use crate::tests::{WORDS, ends, run, sound};
use std::alloc::{AllocError, Global};
use std::test::Fail;

/// The words that play the script with a cache of this size, and tell the work.
fn telling(alloc: Global, cache: &str) -> Result<String, AllocError> {
    let mut words = String::from_str(alloc, "run /e.txt --workers 0 --stats --cache ")?;
    words.push_str(cache)?;
    Ok(words)
}

/// Whether a script prints its lines and its work, and without the flag the lines alone, for any number of workers.
fn works(alloc: Global, row: &Worked) -> Result<bool, AllocError> {
    let mut text = String::from_str(alloc, row.lines)?;
    text.push_str(row.work)?;
    let words = telling(alloc, row.cache)?;
    let outside = sound(row.script);
    Ok(
        ends(alloc, words.as_str(), &outside, 0, text.as_str())?
            && ends(alloc, "run e.txt --workers 3", &outside, 0, row.lines)?,
    )
}

#[test]
fn a_cache_changes_the_work_alone(rt: HostRuntime) -> Result<(), Fail> {
    let alloc = rt.alloc();
    for row in WORKED.iter() {
        assert!(rt; works(alloc, row)?, "{}", row.cache);
    }
    Ok(())
}

/// Numbers that look random: a linear congruence, of which the upper bits are taken.
#[derive(Drop)]
struct Draws {
    state: u64,
}

impl Draws {
    fn below(&mut self, bound: u64) -> u64 {
        self.state = self
            .state
            .wrapping_mul(6364136223846793005)
            .wrapping_add(1442695040888963407);
        (self.state >> 33).checked_rem(bound).unwrap_or(0)
    }

    fn pick<'a>(&mut self, words: &'a [&'a str]) -> &'a str {
        let at = self.below(words.len() as u64) as usize;
        words.get(at).copied().unwrap_or("undo\n")
    }
}

const COMMANDS: [&str; 16] = [
    "ask now s.total\n",
    "ask now u.total\n",
    "ask now t.total\n",
    "ask p u.total\n",
    "ask q t.total\n",
    "pin p\n",
    "pin q\n",
    "drop p\n",
    "set a.value 3\n",
    "set b.value 0.5\n",
    "connect a.value s.terms\n",
    "disconnect s.total t.terms\n",
    "connect t.total s.terms\n",
    "evict 1\n",
    "undo\n",
    "redo\n",
];

/// A script of commands that were drawn, over two numbers and three sums.
fn drawn(alloc: Global, seed: u64) -> Result<String, AllocError> {
    let mut draws = Draws { state: seed };
    let mut script = String::from_str(
        alloc,
        "make Num a\nmake Num b\nmake Sum s\nmake Sum t\nmake Sum u\nconnect b.value s.terms\nconnect s.total t.terms\nconnect t.total u.terms\n",
    )?;
    for _ in 0..60 {
        script.push_str(draws.pick(&COMMANDS))?;
    }
    Ok(script)
}

/// Whether a script prints the same lines for every cache.
fn is_same_for_every_cache(alloc: Global, script: &str) -> Result<bool, AllocError> {
    let outside = sound(script);
    let (_, plain) = run(alloc, WORDS, &outside)?;
    for cache in ["1", "2", "5", "1000"] {
        let words = telling(alloc, cache)?;
        let (_, told) = run(alloc, words.as_str(), &outside)?;
        match told.as_slice().strip_prefix(plain.as_slice()) {
            Some(last) if last.starts_with(b"work ") => {}
            _ => return Ok(false),
        }
    }
    Ok(true)
}

#[test]
fn drawn_scripts_print_the_same_lines_for_every_cache(rt: HostRuntime) -> Result<(), Fail> {
    let alloc = rt.alloc();
    for seed in 0..40 {
        let script = drawn(alloc, seed)?;
        assert!(rt; is_same_for_every_cache(alloc, script.as_str())?, "{seed}");
    }
    Ok(())
}
