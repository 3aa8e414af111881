//! What the words come to before a command is played: all that is printed, or a script and what it begins with.
ghost use Rattle.std.specs.Prelude.{◌≡◌, ◌≤◌, length, map, string_bytes, Err, IfOk, IfSome, IsErrOf, IsTrue, Ok};
ghost use Rattle.dg_base.specs.Refusal.{Gives};
ghost use Rattle.dg_files.specs.Kept.{tree_of};
ghost use Rattle.dg_files.specs.Outcome.{Rose, StaysSound};
ghost use Rattle.dg_files.specs.Tree.{Tree, are_distinct};
ghost use Rattle.dg_kinds_coll.specs.Defold.{defold_tables};
ghost use Rattle.dg_tool.specs.Input.{Tells, start_of, start_with};
ghost use Rattle.dg_tool.specs.Out.{Plays, checked, doing_in, doing_of, start_of_gen};
ghost use Rattle.dg_tool.specs.Project.{loaded};
ghost use Rattle.dg_tool.specs.Seen.{ArePlain, IsFit, IsSet, IsSetStart, all_plain, seen_project, seen_start};
ghost use Rattle.dg_tool.specs.Statement.{GoesBy, IsStarted, NeedsNoFiles, told_alone};
ghost use Rattle.dg_words.specs.Ranges.{IsInRange};
ghost use Rattle.dg_words.specs.Tasks.{task_in};

use crate::format::formatted_in;
use crate::halt::Halt;
use crate::input::{BUILD_CACHE, build_commands, commands_in, script_of};
use crate::lines::checked;
use crate::piece::Pieces;
use crate::project::{Project, loaded};
use dg_base::Refusal;
use dg_files::{Files, MemFiles};
use dg_gen::generated_paths_differ;
use dg_play::{Begin, Opener};
use dg_script::Script;
use dg_sources::BadPlaces;
use dg_words::laws::numbers_are_in_range;
use dg_words::{Task, read_words};
use std::alloc::Global;

/// How a play is told: command by command, with `stats` a line on the work behind them; or in four lines on what it came
/// to.
#[derive(Clone, Copy, PartialEq, Eq, Debug)]
pub enum Telling {
    Lines { stats: bool },
    Sums,
}

/// How many files of a project were read, and how many nodes and arcs they became.
#[derive(Clone, Copy, PartialEq, Eq, Debug)]
pub struct Size {
    pub files: u32,
    pub nodes: usize,
    pub arcs: usize,
}

/// What a play is told with: its commands, the bad places of its project, the project's size, and how it is told.
#[derive(Drop)]
pub struct Frame {
    pub commands: Script,
    pub bad: BadPlaces,
    pub size: Size,
    pub telling: Telling,
}

/// A play before its first command: what it begins with, for how many entries its cache has room, and by how many
/// workers it may be played.
#[derive(Drop)]
pub struct Start<X> {
    pub begin: Begin<X>,
    pub capacity: u32,
    pub workers: u32,
    pub frame: Frame,
}

/// What words come to before a command is played.
#[derive(Drop)]
pub enum Started<X> {
    /// They say no task.
    Usage,
    Told(Pieces),
    Plays(Start<X>),
}

/// What the words come to: nothing is evaluated yet, and nothing is printed or written. The files are read and nothing
/// else; those of a project that is made from a seed are in memory, and no others are read.
pub(crate) fn read_start<F: Files, O: Opener + Drop>(
    alloc: Global,
    opener: O,
    words: &[String],
    files: &mut F,
) -> Result<Started<O::Game>, Refusal<Halt>>
    ensures started { (t : Tree) → GoesBy (F.tree files.old) (task_in (map string_bytes words.now)) t →
        IsStarted O.editor defold_tables result (doing_in defold_tables t (task_in (map string_bytes words.now))) }
    ensures fit { IfOk result (IsFit O.editor (task_in (map string_bytes words.now))) }
    ensures untouched { NeedsNoFiles (task_in (map string_bytes words.now)) → files.new ≡ files.old }
    ensures tree { F.tree files.new ≡ F.tree files.old }
    ensures never_falls { F.faults files.old ≤ F.faults files.new }
    ensures cause { IsErrOf result (Refusal.Because Halt.FileFault) → Rose (F.faults files.old) (F.faults files.new) }
    ensures sound { StaysSound F.is_sound F.faults files.old files.new }
{
    numbers_are_in_range();
    match read_words(alloc, words) {
        Ok(task) => task_start(alloc, opener, task, files),
        Err(Refusal::Because(_)) => Ok(Started::Usage),
        Err(Refusal::NoMemory) => Err(Refusal::NoMemory),
    }
}

// What a task comes to.
fn task_start<F: Files, O: Opener + Drop>(
    alloc: Global,
    opener: O,
    task: Task,
    files: &mut F,
) -> Result<Started<O::Game>, Refusal<Halt>>
    requires { IsInRange task }
    ensures started { (t : Tree) → GoesBy (F.tree files.old) (Ok task) t → IsStarted O.editor defold_tables result (doing_of defold_tables t task) }
    ensures fit { IfOk result (IsFit O.editor (Ok task)) }
    ensures untouched { NeedsNoFiles (Ok task) → files.new ≡ files.old }
    ensures tree { F.tree files.new ≡ F.tree files.old }
    ensures never_falls { F.faults files.old ≤ F.faults files.new }
    ensures cause { IsErrOf result (Refusal.Because Halt.FileFault) → Rose (F.faults files.old) (F.faults files.new) }
    ensures sound { StaysSound F.is_sound F.faults files.old files.new }
{
    match task {
        Task::Run {
            script,
            workers,
            cache,
            stats,
        } => match script_of(alloc, files, script.as_str()) {
            Ok(commands) => {
                let setting = Setting {
                    capacity: cache,
                    workers,
                    telling: Telling::Lines { stats },
                };
                start_over(alloc, opener, commands, setting, files)
            }
            Err(refusal) => Err(refusal),
        },
        Task::Build { path, workers } => match build_commands(alloc, path.as_str()) {
            Ok(commands) => {
                let setting = Setting {
                    capacity: BUILD_CACHE,
                    workers,
                    telling: Telling::Lines { stats: false },
                };
                start_over(alloc, opener, commands, setting, files)
            }
            Err(refusal) => Err(refusal),
        },
        Task::Check => told(checked_in(alloc, opener, files)),
        Task::Format { path } => told(formatted_in(alloc, files, path.as_str())),
        Task::Gen {
            seed,
            size,
            workers,
            cache,
        } => {
            let setting = Setting {
                capacity: cache,
                workers,
                telling: Telling::Sums,
            };
            start_of_gen(alloc, opener, seed, size, setting)
        }
    }
}

/// How a script is played: for how many entries its cache has room, by how many workers, and how it is told.
#[derive(Clone, Copy, PartialEq, Eq, Debug)]
pub struct Setting {
    pub capacity: u32,
    pub workers: u32,
    pub telling: Telling,
}

// Lines that are printed of a task that plays nothing.
fn told<X>(lines: Result<Pieces, Refusal<Halt>>) -> Result<Started<X>, Refusal<Halt>>
    ensures { result ≡ told_alone lines }
{
    match lines {
        Ok(pieces) => Ok(Started::Told(pieces)),
        Err(refusal) => Err(refusal),
    }
}

// The lines of the project that is checked.
fn checked_in<F: Files, O: Opener + Drop>(
    alloc: Global,
    opener: O,
    files: &mut F,
) -> Result<Pieces, Refusal<Halt>>
    ensures told { IfSome (F.tree files.old) (λ t. Tells (λ ps. ps.items) result (all_plain (checked defold_tables t))) }
    ensures plain { IfOk result (λ ps. ArePlain ps.items) }
    ensures tree { F.tree files.new ≡ F.tree files.old }
    ensures never_falls { F.faults files.old ≤ F.faults files.new }
    ensures cause { IsErrOf result (Refusal.Because Halt.FileFault) → Rose (F.faults files.old) (F.faults files.new) }
    ensures sound { StaysSound F.is_sound F.faults files.old files.new }
{
    match loaded(alloc, opener, files) {
        Ok(project) => checked::<O>(alloc, &project),
        Err(refusal) => Err(refusal),
    }
}

// A script over the project of the files, which is loaded behind it.
fn start_over<F: Files, O: Opener + Drop>(
    alloc: Global,
    opener: O,
    commands: Script,
    setting: Setting,
    files: &mut F,
) -> Result<Started<O::Game>, Refusal<Halt>>
    ensures started { IfSome (F.tree files.old)
        (λ t. IsStarted O.editor defold_tables result (Plays setting.telling (start_of defold_tables t setting.capacity (Ok commands)))) }
    ensures set { IfOk result (IsSet O.editor setting) }
    ensures tree { F.tree files.new ≡ F.tree files.old }
    ensures never_falls { F.faults files.old ≤ F.faults files.new }
    ensures cause { IsErrOf result (Refusal.Because Halt.FileFault) → Rose (F.faults files.old) (F.faults files.new) }
    ensures sound { StaysSound F.is_sound F.faults files.old files.new }
{
    match loaded(alloc, opener, files) {
        Ok(project) => Ok(Started::Plays(start_with::<O>(commands, setting, project))),
        Err(refusal) => Err(refusal),
    }
}

// The script of a project that is made from a seed, over its files in memory.
fn start_of_gen<O: Opener + Drop>(
    alloc: Global,
    opener: O,
    seed: u64,
    size: u32,
    setting: Setting,
) -> Result<Started<O::Game>, Refusal<Halt>>
    requires some { 1 ≤ size }
    requires most { size ≤ 64 }
    ensures started { IsStarted O.editor defold_tables result (Plays setting.telling (start_of_gen defold_tables seed size setting.capacity)) }
    ensures set { IfOk result (IsSet O.editor setting) }
    ensures no_fault { ¬ IsErrOf result (Refusal.Because Halt.FileFault) }
{
    let made = dg_gen::project(alloc, seed, size)?;
    generated_paths_differ();
    match commands_in(alloc, made.script.as_slice()) {
        Ok(commands) => match loaded_in_memory(alloc, opener, made.files) {
            Ok(project) => Ok(Started::Plays(start_with::<O>(commands, setting, project))),
            Err(refusal) => Err(refusal),
        },
        Err(refusal) => Err(refusal),
    }
}

// The project of files in memory.
fn loaded_in_memory<O: Opener + Drop>(
    alloc: Global,
    opener: O,
    files: Vec<(String, Vec<u8>)>,
) -> Result<Project<O::Game>, Refusal<Halt>>
    requires { IsTrue (are_distinct (tree_of files.items)) }
    ensures told { Gives (seen_project O.editor) result (loaded defold_tables (tree_of files.items)) }
    ensures no_fault { ¬ IsErrOf result (Refusal.Because Halt.FileFault) }
{
    let mut files = MemFiles::new(alloc, files, Vec::new(alloc));
    loaded(alloc, opener, &mut files)
}

fn start_with<O: Opener + Drop>(
    commands: Script,
    setting: Setting,
    project: Project<O::Game>,
) -> Start<O::Game>
    ensures seen { seen_start O.editor result ≡ start_with commands setting.capacity (seen_project O.editor project) }
    ensures set { IsSetStart O.editor setting result }
{
    let graph = O::graph(&project.begin.game);
    let size = Size {
        files: project.file_count,
        nodes: graph.node_count(),
        arcs: graph.arc_count(),
    };
    let Project { begin, bad, .. } = project;
    Start {
        begin,
        capacity: setting.capacity,
        workers: setting.workers,
        frame: Frame {
            commands,
            bad,
            size,
            telling: setting.telling,
        },
    }
}
