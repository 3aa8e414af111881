//! A run on one thread, and how any run ends.
ghost use Rattle.std.specs.Prelude.{◌≡◌, ◌≤◌, ◌⊎◌, ◌+◌, map, string_bytes, IfOk, IsErrOf, None, Ok};
ghost use Rattle.dg_editor.specs.Seeing.{state_of as editor_of};
ghost use Rattle.dg_files.specs.Outcome.{Rose, StaysSound};
ghost use Rattle.dg_files.specs.Tree.{Tree};
ghost use Rattle.dg_kinds_coll.specs.Defold.{defold_tables};
ghost use Rattle.dg_tool.specs.Halts.{status_of, halt_lines};
ghost use Rattle.dg_tool.specs.Out.{Out, WritesNothing, doing_in, out_of, out_of_play};
ghost use Rattle.dg_tool.specs.Seen.{ArePlain, IsSized, deeds_of, seen_start};
ghost use Rattle.dg_tool.specs.Statement.{AreDone, EndsAs, GoesBy, HasCauses, IfSomeOf, IsComplete, IsDeskOfDoing, IsDeskOfStart, IsLeftAlone, IsOutput, IsPlain, IsPut, IsRefused, NeedsNoFiles, made_by, made_by_start};
ghost use Rattle.dg_words.specs.Paths.{usage as no_task};
ghost use Rattle.dg_words.specs.Tasks.{task_in};

use crate::doing::do_pieces;
use crate::due::Output;
use crate::ended::Ended;
use crate::halt::Halt;
use crate::output::{finished, misused, told};
use crate::start::{Start, Started, Telling, read_start};
use crate::status::Status;
use crate::text::Lines;
use dg_alone::{AloneDesk, AloneEditor, Solo, play_alone};
use dg_base::{Refusal, Steps};
use dg_deeds::put_lines;
use dg_files::{Files, Sink};
use std::alloc::Global;
use std::sync::ledger::Ledger;

/// Does what the words of a command line say, on this thread alone: loads the project and plays a script over it, or
/// builds, checks or formats a part of it, or plays a project that it makes. It puts its lines, and before the line of a
/// build it writes the build's files, all of them below `/build/default`; nothing else is written. It waits for nobody
/// and always returns.
///
/// What is said of a tree `t` holds where the files tell it; and of every `t` where the words need no files: they say no
/// task, or `gen`, which plays over files of its own. Then the files are left alone.
///
/// A count of failures that stands at its greatest, 2^64 - 1, can't rise, so there a failure can't be
/// told from none; below it, `complete` says that nothing is hidden.
///
/// A script that is played to its end leaves the desk that `desk` speaks of: its cache is coherent, its records tell
/// each follow, publication and eviction, and what an evaluation found there was published before at a revision
/// with the same counter. `work` counts the productions: as many as playing the commands over a cache of this
/// size needs, and no more.
///
/// In time linear in the script, the project's files and the output and, for each transaction and each endpoint that an
/// `ask` or a `build` evaluates, in the graph so far. A build's files are made twice.
pub fn run_alone<F: Files, S: Sink, L: Ledger>(
    alloc: Global,
    words: &[String],
    files: &mut F,
    out: &mut S,
    steps: &mut Steps<L>,
) -> Ended<AloneDesk>
    ensures ends { (t : Tree) → GoesBy (F.tree files.old) (task_in (map string_bytes words.now)) t →
        EndsAs (out_of defold_tables t (map string_bytes words.now)) result.status (F.tree files.old) (F.tree files.new) (S.bytes out.old) (S.bytes out.new) }
    ensures causes { HasCauses result.status (F.faults files.old) (F.faults files.new) (S.faults out.old) (S.faults out.new) }
    ensures complete { (t : Tree) → GoesBy (F.tree files.old) (task_in (map string_bytes words.now)) t →
        IsComplete (out_of defold_tables t (map string_bytes words.now)) result.status
        (F.faults files.old) (F.faults files.new) (S.faults out.old) (S.faults out.new) }

    // At the end of a task that is done: the desk of a script that was played, and how many productions were made.
    ensures desk { result.status ≡ Status.Done → (t : Tree) → GoesBy (F.tree files.old) (task_in (map string_bytes words.now)) t →
        IsDeskOfDoing (IsLeftAlone defold_tables) (doing_in defold_tables t (task_in (map string_bytes words.now))) result.desk }
    ensures work { result.status ≡ Status.Done → (t : Tree) → GoesBy (F.tree files.old) (task_in (map string_bytes words.now)) t →
        steps.new ≡ steps.old + made_by defold_tables (doing_in defold_tables t (task_in (map string_bytes words.now))) }
    ensures no_desk { ¬ (result.status ≡ Status.Done) → result.desk ≡ None }

    // Over any files, also those that tell nothing: the words alone decide on the status of usage. Files that aren't needed
    // are left alone. A task that writes nothing leaves the tree, and where a call of the files failed it has printed
    // nothing. What never fails goes on so.
    ensures usage { result.status ≡ Status.Usage → task_in (map string_bytes words.now) ≡ no_task }
    ensures untouched { NeedsNoFiles (task_in (map string_bytes words.now)) → files.new ≡ files.old }
    ensures tree { WritesNothing (task_in (map string_bytes words.now)) → F.tree files.new ≡ F.tree files.old }
    ensures files_failed { WritesNothing (task_in (map string_bytes words.now)) → result.status ≡ Status.FileFault → S.bytes out.new ≡ S.bytes out.old }
    ensures files_sound { StaysSound F.is_sound F.faults files.old files.new }
    ensures out_sound { StaysSound S.is_sound S.faults out.old out.new }
{
    let output = played_alone(alloc, words, files, steps);
    end_run(alloc, output, files, out)
}

// What the words come to, played to its end.
fn played_alone<F: Files, L: Ledger>(
    alloc: Global,
    words: &[String],
    files: &mut F,
    steps: &mut Steps<L>,
) -> Result<Output<AloneDesk>, Refusal<Halt>>
    ensures told { (t : Tree) → GoesBy (F.tree files.old) (task_in (map string_bytes words.now)) t → IsOutput defold_tables result (out_of defold_tables t (map string_bytes words.now)) }
    ensures desk { IfOk result (λ o. (t : Tree) → GoesBy (F.tree files.old) (task_in (map string_bytes words.now)) t →
        IsDeskOfDoing (IsLeftAlone defold_tables) (doing_in defold_tables t (task_in (map string_bytes words.now))) o.desk) }
    ensures work { IfOk result (λ o. (t : Tree) → GoesBy (F.tree files.old) (task_in (map string_bytes words.now)) t →
        steps.new ≡ steps.old + made_by defold_tables (doing_in defold_tables t (task_in (map string_bytes words.now)))) }
    ensures plain { WritesNothing (task_in (map string_bytes words.now)) → IsPlain result }
    ensures usage { IfOk result (λ o. o.status ≡ Status.Usage → task_in (map string_bytes words.now) ≡ no_task) }
    ensures untouched { NeedsNoFiles (task_in (map string_bytes words.now)) → files.new ≡ files.old }
    ensures tree { F.tree files.new ≡ F.tree files.old }
    ensures never_falls { F.faults files.old ≤ F.faults files.new }
    ensures cause { IsErrOf result (Refusal.Because Halt.FileFault) → Rose (F.faults files.old) (F.faults files.new) }
    ensures sound { StaysSound F.is_sound F.faults files.old files.new }
{
    match read_start(alloc, Solo, words, files) {
        Ok(Started::Usage) => Ok(misused(alloc)?),
        Ok(Started::Told(pieces)) => Ok(told(alloc, pieces)),
        Ok(Started::Plays(start)) => play(alloc, start, steps),
        Err(refusal) => Err(refusal),
    }
}

// Plays the commands on this thread.
fn play<L: Ledger>(
    alloc: Global,
    start: Start<AloneEditor>,
    steps: &mut Steps<L>,
) -> Result<Output<AloneDesk>, Refusal<Halt>>
    requires some { 1 ≤ start.capacity }
    requires sized { IsSized editor_of start }
    ensures told { IsOutput defold_tables result (out_of_play defold_tables start.frame.telling (Ok (seen_start editor_of start))) }
    ensures desk { IfOk result (λ o. IsDeskOfStart (IsLeftAlone defold_tables) (Ok (seen_start editor_of start)) o.desk) }
    ensures work { IfOk result (λ o. steps.new ≡ steps.old + made_by_start defold_tables (Ok (seen_start editor_of start))) }
    ensures plain { start.frame.telling ≡ Telling.Sums → IsPlain result }
    ensures no_fault { ¬ IsErrOf result (Refusal.Because Halt.FileFault) }
    ensures status { IfOk result (λ o. o.status ≡ Status.Done) }
{
    let Start {
        begin,
        capacity,
        frame,
        ..
    } = start;
    let ending = play_alone(alloc, begin, capacity, frame.commands.as_slice(), steps)?;
    finished(alloc, frame, ending)
}

/// Does all that was found out, or puts the one line of what ended the run before; none where a call of the files failed.
/// The desk is kept where all of it was done.
pub(crate) fn end_run<F: Files, S: Sink, D: Drop>(
    alloc: Global,
    output: Result<Output<D>, Refusal<Halt>>,
    files: &mut F,
    out: &mut S,
) -> Ended<D>
    ensures ends { (due : Out) → IsOutput defold_tables output due →
        EndsAs due result.status (F.tree files.old) (F.tree files.new) (S.bytes out.old) (S.bytes out.new) }
    ensures complete { (due : Out) → IsOutput defold_tables output due → ¬ IsErrOf output (Refusal.Because Halt.FileFault) →
        IsComplete due result.status (F.faults files.old) (F.faults files.new) (S.faults out.old) (S.faults out.new) }
    ensures desk { result.status ≡ Status.Done → IfSomeOf output (λ o. result.desk ≡ o.desk) }
    ensures no_desk { ¬ (result.status ≡ Status.Done) → result.desk ≡ None }
    ensures usage { result.status ≡ Status.Usage → IfSomeOf output (λ o. o.status ≡ Status.Usage) }
    ensures untouched { IsPlain output → files.new ≡ files.old }
    ensures files_failed { IsPlain output → result.status ≡ Status.FileFault → S.bytes out.new ≡ S.bytes out.old }
    ensures files_never_fall { F.faults files.old ≤ F.faults files.new }
    ensures out_never_falls { S.faults out.old ≤ S.faults out.new }
    ensures file_cause { result.status ≡ Status.FileFault → IsErrOf output (Refusal.Because Halt.FileFault) ⊎ Rose (F.faults files.old) (F.faults files.new) }
    ensures sink_cause { result.status ≡ Status.SinkFault → Rose (S.faults out.old) (S.faults out.new) }
    ensures files_sound { StaysSound F.is_sound F.faults files.old files.new }
    ensures out_sound { StaysSound S.is_sound S.faults out.old out.new }
{
    match output {
        Ok(output) => do_output(alloc, files, out, output),
        Err(refusal) => Ended {
            status: put_refusal(alloc, out, refusal),
            desk: None,
        },
    }
}

// Does all that a run does that is done. Its desk is kept where all of it was done.
fn do_output<F: Files, S: Sink, D: Drop>(
    alloc: Global,
    files: &mut F,
    out: &mut S,
    output: Output<D>,
) -> Ended<D>
    ensures done { AreDone output.status (deeds_of defold_tables output) result.status (F.tree files.old) (F.tree files.new) (S.bytes out.old) (S.bytes out.new) }
    ensures desk { result.status ≡ Status.Done → result.desk ≡ output.desk }
    ensures no_desk { ¬ (result.status ≡ Status.Done) → result.desk ≡ None }
    ensures untouched { ArePlain output.pieces.items → files.new ≡ files.old }
    ensures causes { HasCauses result.status (F.faults files.old) (F.faults files.new) (S.faults out.old) (S.faults out.new) }
    ensures files_sound { StaysSound F.is_sound F.faults files.old files.new }
    ensures out_sound { StaysSound S.is_sound S.faults out.old out.new }
{
    match do_pieces(alloc, files, out, output.pieces, &output.names) {
        Ok(()) => Ended {
            status: output.status,
            desk: output.desk,
        },
        Err(stop) => Ended {
            status: Status::cut(stop),
            desk: None,
        },
    }
}

// The one line of what ended the run; none where memory was wanted.
fn put_refusal<S: Sink>(alloc: Global, out: &mut S, refusal: Refusal<Halt>) -> Status
    ensures put { IsRefused refusal result (S.bytes out.old) (S.bytes out.new) }
    ensures cause { result ≡ Status.SinkFault → Rose (S.faults out.old) (S.faults out.new) }
    ensures never_falls { S.faults out.old ≤ S.faults out.new }
    ensures sound { StaysSound S.is_sound S.faults out.old out.new }
{
    match refusal {
        Refusal::Because(halt) => put_halt(alloc, out, halt),
        Refusal::NoMemory => Status::NoMemory,
    }
}

// The one line of a cause; none where a call of the files failed.
fn put_halt<S: Sink>(alloc: Global, out: &mut S, halt: Halt) -> Status
    ensures put { IsPut (status_of halt) (halt_lines halt) result (S.bytes out.old) (S.bytes out.new) }
    ensures cause { result ≡ Status.SinkFault → (status_of halt ≡ Status.SinkFault) ⊎ Rose (S.faults out.old) (S.faults out.new) }
    ensures never_falls { S.faults out.old ≤ S.faults out.new }
    ensures sound { StaysSound S.is_sound S.faults out.old out.new }
{
    match halt.lines(alloc) {
        Ok(lines) => put(out, halt.status(), &lines),
        Err(_) => Status::NoMemory,
    }
}

// Puts all lines, after which the run ends with this status.
fn put<S: Sink>(out: &mut S, status: Status, lines: &Lines) -> Status
    ensures put { IsPut status lines.now result (S.bytes out.old) (S.bytes out.new) }
    ensures cause { result ≡ Status.SinkFault → (status ≡ Status.SinkFault) ⊎ Rose (S.faults out.old) (S.faults out.new) }
    ensures never_falls { S.faults out.old ≤ S.faults out.new }
    ensures sound { StaysSound S.is_sound S.faults out.old out.new }
{
    match put_lines(out, lines.as_slice()) {
        Ok(()) => status,
        Err(Refusal::Because(_)) => Status::SinkFault,
        Err(Refusal::NoMemory) => Status::NoMemory,
    }
}
