//! A run with workers.
ghost use Rattle.std.specs.Prelude.{◌≡◌, ◌+◌, map, string_bytes, false, IfOk, None, Ok};
ghost use Rattle.dg_files.specs.Outcome.{StaysSound};
ghost use Rattle.dg_files.specs.Tree.{Tree};
ghost use Rattle.dg_kinds_coll.specs.Defold.{defold_tables};
ghost use Rattle.dg_tool.specs.Out.{WritesNothing, doing_in, is_crewed, out_of};
ghost use Rattle.dg_tool.specs.Statement.{EndsAs, GoesBy, HasCauses, IsComplete, IsDeskOfDoing, IsLeft, NeedsNoFiles, made_by};
ghost use Rattle.dg_words.specs.Paths.{usage as no_task};
ghost use Rattle.dg_words.specs.Tasks.{task_in};

use crate::crew::played_beside;
use crate::ended::{Ended, ToolDesk, of_alone, of_shared};
use crate::run::{end_run, run_alone};
use crate::status::Status;
use dg_base::{Refusal, Steps};
use dg_files::{Files, Sink};
use dg_kinds_coll::Defold;
use dg_line::{LineName, Revision, Rows};
use dg_pool::Gate;
use dg_shared::SharedDesk;
use dg_words::{Task, read_words};
use std::alloc::{AllocError, Global};
use std::sync::Wait;
use std::sync::ledger::Ledger;
use std::thread::Threads;

/// Does what the words of a command line say, as [`run_alone`] does, with workers where the words say so: `--workers` of
/// a `run`, a `build` or a `gen`, 0 to 16 of them, by default 4. The commands of the script are played on this thread,
/// over the line of these rows; workers evaluate what they ask for, beside the edits, share the cache, and publish
/// into it however late they are. A worker calls the gate around each ask. A thread that can't be started is no
/// error: its work is done here.
///
/// For every tree of files, every words, size of the cache, number of workers and interleaving of the threads: the status,
/// the lines and the files are those of the definitions, in which there is no cache and no worker. That is `ends`,
/// `causes` and `complete`, word for word those of `run_alone`. `desk` says that the cache was coherent all along: at the
/// end each of its values is that of the last revision; its records tell one follow for each revision and one
/// eviction for each that was asked for, and for each ask, by its number, a publication of its endpoint at its
/// revision; and what that evaluation found in the cache was published before, at a revision with the same
/// counter.
///
/// Words that ask for no worker are done by [`run_alone`], on this thread; `work` counts its productions. With workers
/// nothing is said of `steps`.
///
/// It may wait for its threads. Each ask is evaluated once, but for one whose answer or publication is lost for want
/// of memory, which is evaluated once more at the end.
pub fn run_tool<
    F: Files,
    S: Sink,
    G: Gate + Sync,
    J: LineName + Send + Sync,
    R: Threads + Wait + Drop + Send + Sync + Copy,
    L: Ledger,
>(
    rt: R,
    alloc: Global,
    rows: Rows<Revision<Defold>>,
    words: &[String],
    files: &mut F,
    out: &mut S,
    gate: &G,
    steps: &mut Steps<L>,
) -> Ended<ToolDesk<SharedDesk<J>>>
    requires { rows ≡ J.shelves }
    ensures ends { (t : Tree) → GoesBy (F.tree files.old) (task_in (map string_bytes words.now)) t →
        EndsAs (out_of defold_tables t (map string_bytes words.now)) result.status (F.tree files.old) (F.tree files.new) (S.bytes out.old) (S.bytes out.new) }
    ensures causes { HasCauses result.status (F.faults files.old) (F.faults files.new) (S.faults out.old) (S.faults out.new) }
    ensures complete { (t : Tree) → GoesBy (F.tree files.old) (task_in (map string_bytes words.now)) t →
        IsComplete (out_of defold_tables t (map string_bytes words.now)) result.status
        (F.faults files.old) (F.faults files.new) (S.faults out.old) (S.faults out.new) }

    // At the end of a task that is done: the desk of a script that was played, alone or beside workers; and alone, how
    // many productions were made.
    ensures desk { result.status ≡ Status.Done → (t : Tree) → GoesBy (F.tree files.old) (task_in (map string_bytes words.now)) t →
        IsDeskOfDoing (IsLeft defold_tables (is_crewed (task_in (map string_bytes words.now)))) (doing_in defold_tables t (task_in (map string_bytes words.now))) result.desk }
    ensures work { is_crewed (task_in (map string_bytes words.now)) ≡ false → result.status ≡ Status.Done → (t : Tree) → GoesBy (F.tree files.old) (task_in (map string_bytes words.now)) t →
        steps.new ≡ steps.old + made_by defold_tables (doing_in defold_tables t (task_in (map string_bytes words.now))) }
    ensures no_desk { ¬ (result.status ≡ Status.Done) → result.desk ≡ None }

    // Over any files.
    ensures usage { result.status ≡ Status.Usage → task_in (map string_bytes words.now) ≡ no_task }
    ensures untouched { NeedsNoFiles (task_in (map string_bytes words.now)) → files.new ≡ files.old }
    ensures tree { WritesNothing (task_in (map string_bytes words.now)) → F.tree files.new ≡ F.tree files.old }
    ensures files_failed { WritesNothing (task_in (map string_bytes words.now)) → result.status ≡ Status.FileFault → S.bytes out.new ≡ S.bytes out.old }
    ensures files_sound { StaysSound F.is_sound F.faults files.old files.new }
    ensures out_sound { StaysSound S.is_sound S.faults out.old out.new }
{
    match needs_crew(alloc, words) {
        Ok(true) => {
            let output = played_beside(rt, alloc, rows, words, files, gate, steps);
            of_shared(end_run(alloc, output, files, out))
        }
        Ok(false) => of_alone(run_alone(alloc, words, files, out, steps)),
        Err(_) => Ended {
            status: Status::NoMemory,
            desk: None,
        },
    }
}

// Whether workers evaluate what the words ask for.
fn needs_crew(alloc: Global, words: &[String]) -> Result<bool, AllocError>
    ensures { IfOk result (λ b. b ≡ is_crewed (task_in (map string_bytes words.now))) }
{
    match read_words(alloc, words) {
        Ok(task) => Ok(is_crewed(&task)),
        Err(Refusal::Because(_)) => Ok(false),
        Err(Refusal::NoMemory) => Err(AllocError),
    }
}

fn is_crewed(task: &Task) -> bool
    ensures { result ≡ is_crewed (Ok task.now) }
{
    match task {
        Task::Run { workers, stats, .. } => *workers > 0 && !*stats,
        Task::Build { workers, .. } | Task::Gen { workers, .. } => *workers > 0,
        Task::Check | Task::Format { .. } => false,
    }
}
