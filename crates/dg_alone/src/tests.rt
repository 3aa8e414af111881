//! Scripts on numbers and sums of them: how much is evaluated, kept and late, and what the cache has at the end.
ghost use Rattle.std.specs.Prelude.{◌≡◌, ◌<◌};

use crate::{Solo, play_alone};
use dg_base::{Names, Steps};
use dg_bind::Bindings;
use dg_play::{Begin, Opener, WorkDone};
use dg_script::read_script;
use std::alloc::{AllocError, Global};
use std::marker::Brand;
use std::sync::ledger::{Blank, Ledger};
use std::test::Fail;

/// A script, the capacity of the cache, the work, the entries of the cache at the end, and how many records it has.
struct Row {
    script: &'static [u8],
    capacity: u32,
    work: WorkDone,
    entries: usize,
    records: usize,
}

/// What is asked of an old revision comes late where its counter is another one since, also after an undo.
const LATE: &[u8] = b"make Num x
make Sum s
connect x.value s.terms
pin p
set x.value 2
undo
ask p s.total
";

const LATE_OF_DELETED: &[u8] = b"make Num x
make Sum s
connect x.value s.terms
pin p
delete s
undo
ask p s.total
";

/// What is published of an old revision serves the new one.
const SERVES: &[u8] = b"make Num x
make Num y
make Sum s
connect x.value s.terms
pin p
set y.value 5
ask p s.total
ask now s.total
";

/// A cache of one entry: what it lost is made again. Then that one is evicted.
const FULL: &[u8] = b"make Num a
make Sum s
make Sum t
connect a.value s.terms
connect s.total t.terms
ask now t.total
ask now s.total
ask now t.total
evict 1
evict 1
";

static ROWS: [Row; 4] = [
    Row {
        script: LATE,
        capacity: 4_096,
        work: WorkDone {
            made: 1,
            kept: 0,
            late: 1,
        },
        entries: 0,
        records: 6,
    },
    Row {
        script: LATE_OF_DELETED,
        capacity: 4_096,
        work: WorkDone {
            made: 1,
            kept: 0,
            late: 1,
        },
        entries: 0,
        records: 6,
    },
    Row {
        script: SERVES,
        capacity: 4_096,
        work: WorkDone {
            made: 1,
            kept: 1,
            late: 0,
        },
        entries: 1,
        records: 7,
    },
    Row {
        script: FULL,
        capacity: 1,
        work: WorkDone {
            made: 4,
            kept: 4,
            late: 0,
        },
        entries: 0,
        records: 10,
    },
];

/// Whether the script of a row does the work that it says.
fn goes<L: Ledger>(alloc: Global, row: &Row, blank: Blank) -> Result<bool, AllocError>
    requires name { blank.name ≡ L.name }
    requires parts { blank.parts ≡ L.parts }
    requires some { 0 < blank.parts }
{
    let mut steps = Steps::<L>::open(blank);
    let Ok(commands) = read_script(alloc, row.script) else {
        return Ok(false);
    };
    let Ok((game, _)) = Solo.open(alloc, &[]) else {
        return Ok(false);
    };
    let begin = Begin {
        game,
        bound: Bindings::new(alloc),
        names: Names::new(alloc),
    };
    let capacity = row.capacity.max(1);
    let ending = play_alone(alloc, begin, capacity, commands.as_slice(), &mut steps)?;
    let history = ending.desk.history();
    Ok(
        ending.work == row.work
            && ending.desk.cache_len() == row.entries
            && history.len() == row.records,
    )
}

#[test]
fn scripts_do_the_work_that_they_say(rt: HostRuntime) -> Result<(), Fail> {
    let alloc = rt.alloc();
    for row in ROWS.iter() {
        assert!(rt; goes::<Brand>(alloc, row, Blank::new(1))?);
    }
    Ok(())
}
