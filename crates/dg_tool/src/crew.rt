//! A play beside workers.
ghost use Rattle.std.specs.Prelude.{◌≡◌, ◌≤◌, map, string_bytes, IfOk, IsErrOf, Ok, false, true};
ghost use Rattle.dg_editor.specs.Seeing.{state_of as editor_of};
ghost use Rattle.dg_files.specs.Outcome.{Rose, StaysSound};
ghost use Rattle.dg_files.specs.Tree.{Tree};
ghost use Rattle.dg_kinds_coll.specs.Defold.{defold_tables};
ghost use Rattle.dg_tool.specs.Out.{WritesNothing, doing_in, is_crewed, out_of, out_of_play};
ghost use Rattle.dg_tool.specs.Seen.{IsSized, seen_start, tells_work};
ghost use Rattle.dg_tool.specs.Statement.{GoesBy, IsDeskOfDoing, IsDeskOfStart, IsLeftShared, IsOutput, IsPlain, NeedsNoFiles};
ghost use Rattle.dg_words.specs.Paths.{usage as no_task};
ghost use Rattle.dg_words.specs.Tasks.{task_in};

use crate::due::Output;
use crate::halt::Halt;
use crate::output::{finished, misused, told};
use crate::start::{Start, Started, Telling, read_start};
use crate::status::Status;
use dg_base::{Refusal, Steps};
use dg_files::Files;
use dg_kinds_coll::Defold;
use dg_line::{LineName, Revision, Rows, SharedLine};
use dg_pool::Gate;
use dg_shared::{Shared, SharedDesk, SharedEditor, play_shared};
use std::alloc::Global;
use std::sync::Wait;
use std::sync::ledger::Ledger;
use std::thread::Threads;

/// What words come to that are played beside workers, played to its end.
pub(crate) fn played_beside<
    F: Files,
    G: Gate + Sync,
    J: LineName + Send + Sync,
    R: Threads + Wait + Drop + Send + Sync + Copy,
    L: Ledger,
>(
    rt: R,
    alloc: Global,
    rows: Rows<Revision<Defold>>,
    words: &[String],
    files: &mut F,
    gate: &G,
    steps: &mut Steps<L>,
) -> Result<Output<SharedDesk<J>>, Refusal<Halt>>
    requires rows { rows ≡ J.shelves }
    requires crewed { is_crewed (task_in (map string_bytes words.now)) ≡ true }
    ensures told { (t : Tree) → GoesBy (F.tree files.old) (task_in (map string_bytes words.now)) t → IsOutput defold_tables result (out_of defold_tables t (map string_bytes words.now)) }
    ensures desk { IfOk result (λ o. (t : Tree) → GoesBy (F.tree files.old) (task_in (map string_bytes words.now)) t →
        IsDeskOfDoing (IsLeftShared defold_tables) (doing_in defold_tables t (task_in (map string_bytes words.now))) o.desk) }
    ensures plain { WritesNothing (task_in (map string_bytes words.now)) → IsPlain result }
    ensures usage { IfOk result (λ o. o.status ≡ Status.Usage → task_in (map string_bytes words.now) ≡ no_task) }
    ensures untouched { NeedsNoFiles (task_in (map string_bytes words.now)) → files.new ≡ files.old }
    ensures tree { F.tree files.new ≡ F.tree files.old }
    ensures never_falls { F.faults files.old ≤ F.faults files.new }
    ensures cause { IsErrOf result (Refusal.Because Halt.FileFault) → Rose (F.faults files.old) (F.faults files.new) }
    ensures sound { StaysSound F.is_sound F.faults files.old files.new }
{
    let opener = Shared {
        line: SharedLine::<Revision<Defold>, J, R>::open(rt, rows),
    };
    match read_start(alloc, opener, words, files) {
        Ok(Started::Usage) => Ok(misused(alloc)?),
        Ok(Started::Told(pieces)) => Ok(told(alloc, pieces)),
        Ok(Started::Plays(start)) => play(rt, alloc, start, gate, steps),
        Err(refusal) => Err(refusal),
    }
}

// Plays the commands beside workers.
fn play<
    G: Gate + Sync,
    J: LineName + Send + Sync,
    R: Threads + Wait + Drop + Send + Sync + Copy,
    L: Ledger,
>(
    rt: R,
    alloc: Global,
    start: Start<SharedEditor<J, R>>,
    gate: &G,
    steps: &mut Steps<L>,
) -> Result<Output<SharedDesk<J>>, Refusal<Halt>>
    requires some { 1 ≤ start.capacity }
    requires most { start.workers ≤ 16 }
    requires lines { tells_work start.frame.telling ≡ false }
    requires sized { IsSized editor_of start }
    ensures told { IsOutput defold_tables result (out_of_play defold_tables start.frame.telling (Ok (seen_start editor_of start))) }
    ensures desk { IfOk result (λ o. IsDeskOfStart (IsLeftShared defold_tables) (Ok (seen_start editor_of start)) o.desk) }
    ensures plain { start.frame.telling ≡ Telling.Sums → IsPlain result }
    ensures no_fault { ¬ IsErrOf result (Refusal.Because Halt.FileFault) }
    ensures status { IfOk result (λ o. o.status ≡ Status.Done) }
{
    let Start {
        begin,
        capacity,
        workers,
        frame,
    } = start;
    let commands = frame.commands.as_slice();
    let ending = play_shared(rt, alloc, begin, capacity, workers, commands, gate, steps)?;
    finished(alloc, frame, ending)
}
