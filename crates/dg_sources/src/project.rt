//! Reading the files of a project.
ghost use Rattle.std.specs.Prelude.{◌≡◌, ◌≤◌, filter, IfOk, OnOk, IfSome, IsErrOf};
ghost use Rattle.dg_files.specs.Tree.{bytes_at, got_of, listing_of};
ghost use Rattle.dg_files.specs.Outcome.{Rose, StaysSound};
ghost use Rattle.dg_sources.specs.Project.{is_read, found_in, room_behind, with_file, next_file, with_files, sources_at, sources_of, Tells};

use crate::bad::{BadCode, Unread};
use crate::limits::{Large, LoadEnd, MAX_FILE, MAX_FILES, MAX_TOTAL};
use crate::reading::{read_collection, read_object, read_script, unread};
use crate::sorting::project_paths;
use crate::source::{CollSource, GoSource, Reads, ScriptSource, Sources};
use dg_base::{Refusal, Str};
use dg_files::{Bytes, Files, Got, Listing};
use dg_text::ends_in;
use std::alloc::{AllocError, Global};

/// What the files of a project say: they are listed, and those that end with `.script`, `.go` or `.collection` are read,
/// in the order of their paths. What is listed and is no project path is passed over. A file that can't be read, or that
/// has gone since it was listed, stays among the sources with the reason.
///
/// Refused is the first limit that is passed, in this order: the number of paths that are listed, the number of files
/// that are to be read, and then file by file its bytes and those of all so far. The files are read and nothing else. It
/// takes time linear in the files' bytes, beside sorting the paths.
pub fn read_sources<F: Files>(alloc: Global, files: &mut F) -> Result<Sources, Refusal<LoadEnd>>
    ensures told { IfSome (F.tree files.old) (λ t. Tells (λ s. s) result (sources_of t)) }
    ensures tree { F.tree files.new ≡ F.tree files.old }
    ensures never_falls { F.faults files.old ≤ F.faults files.new }
    ensures cause { IsErrOf result (Refusal.Because LoadEnd.FileFault) → Rose (F.faults files.old) (F.faults files.new) }
    ensures sound { StaysSound F.is_sound F.faults files.old files.new }
{
    match files.list(alloc) {
        Ok(Listing::All(listed)) => {
            let paths = project_paths(alloc, listed.as_slice())?;
            read_paths(alloc, files, paths)
        }
        Ok(Listing::More) => Err(Refusal::Because(LoadEnd::TooLarge(Large::Files))),
        Err(Refusal::Because(_)) => Err(Refusal::Because(LoadEnd::FileFault)),
        Err(Refusal::NoMemory) => Err(Refusal::NoMemory),
    }
}

fn read_paths<F: Files>(
    alloc: Global,
    files: &mut F,
    paths: Reads<Str>,
) -> Result<Sources, Refusal<LoadEnd>>
    ensures told { IfSome (F.tree files.old) (λ t. Tells (λ s. s) result (sources_at t paths)) }
    ensures tree { F.tree files.new ≡ F.tree files.old }
    ensures never_falls { F.faults files.old ≤ F.faults files.new }
    ensures cause { IsErrOf result (Refusal.Because LoadEnd.FileFault) → Rose (F.faults files.old) (F.faults files.new) }
    ensures sound { StaysSound F.is_sound F.faults files.old files.new }
{
    let read = read_of(alloc, paths.as_slice())?;
    let count = read.len();
    if count > MAX_FILES {
        return Err(Refusal::Because(LoadEnd::TooLarge(Large::Files)));
    }
    let none = Sources {
        paths,
        scripts: Reads::new(alloc),
        objects: Reads::new(alloc),
        collections: Reads::new(alloc),
        file_count: count as u32,
    };
    read_files(alloc, files, read.as_slice(), none)
}

// The paths of the files that are read.
fn read_of(alloc: Global, paths: &[Str]) -> Result<Reads<Str>, AllocError>
    ensures { IfOk result (λ read. read ≡ filter is_read paths.now) }
{
    let mut read = Reads::new(alloc);
    for path in paths {
        if is_read(path.as_str()) {
            read.push(path.copy()?)?;
        }
    }
    Ok(read)
}

fn is_read(path: &str) -> bool
    ensures { result ≡ is_read path.now }
{
    ends_in(path, ".script") || ends_in(path, ".go") || ends_in(path, ".collection")
}

fn read_files<F: Files>(
    alloc: Global,
    files: &mut F,
    paths: &[Str],
    sources: Sources,
) -> Result<Sources, Refusal<LoadEnd>>
    ensures told { IfSome (F.tree files.old) (λ t. Tells (λ s. s) result (with_files t MAX_TOTAL paths.now sources)) }
    ensures tree { F.tree files.new ≡ F.tree files.old }
    ensures never_falls { F.faults files.old ≤ F.faults files.new }
    ensures cause { IsErrOf result (Refusal.Because LoadEnd.FileFault) → Rose (F.faults files.old) (F.faults files.new) }
    ensures sound { StaysSound F.is_sound F.faults files.old files.new }
{
    let mut sources = sources;
    let mut room = MAX_TOTAL;
    for path in paths {
        room = read_next(alloc, files, room, &mut sources, path)?;
    }
    Ok(sources)
}

// The file at a path behind those that are read, where so many bytes may still be read. How many may be read behind it is
// answered.
fn read_next<F: Files>(
    alloc: Global,
    files: &mut F,
    room: usize,
    sources: &mut Sources,
    path: &Str,
) -> Result<usize, Refusal<LoadEnd>>
    ensures told { IfSome (F.tree files.old) (λ t. Tells (λ left. (left, sources.new)) result (next_file t room path.now sources.old)) }
    ensures tree { F.tree files.new ≡ F.tree files.old }
    ensures never_falls { F.faults files.old ≤ F.faults files.new }
    ensures cause { IsErrOf result (Refusal.Because LoadEnd.FileFault) → Rose (F.faults files.old) (F.faults files.new) }
    ensures sound { StaysSound F.is_sound F.faults files.old files.new }
{
    let text = path.as_str();
    let found = found_at(alloc, files, text)?;
    match room_behind(room, &found) {
        Err(limit) => Err(Refusal::Because(LoadEnd::TooLarge(limit))),
        Ok(left) => {
            add_file(alloc, sources, text, found)?;
            Ok(left)
        }
    }
}

// The bytes of the file at a path, or None where it has gone.
fn found_at<F: Files>(
    alloc: Global,
    files: &mut F,
    path: &str,
) -> Result<Option<Bytes>, Refusal<LoadEnd>>
    ensures told { IfSome (F.tree files.old) (λ t. Tells (λ f. f) result (found_in (got_of (bytes_at t path.now) MAX_FILE))) }
    ensures tree { F.tree files.new ≡ F.tree files.old }
    ensures never_falls { F.faults files.old ≤ F.faults files.new }
    ensures cause { IsErrOf result (Refusal.Because LoadEnd.FileFault) → Rose (F.faults files.old) (F.faults files.new) }
    ensures sound { StaysSound F.is_sound F.faults files.old files.new }
{
    match files.read(alloc, path, MAX_FILE) {
        Ok(Got::Whole(bytes)) => Ok(Some(bytes)),
        Ok(Got::Absent) => Ok(None),
        Ok(Got::Longer) => Err(Refusal::Because(LoadEnd::TooLarge(Large::File))),
        Err(Refusal::Because(_)) => Err(Refusal::Because(LoadEnd::FileFault)),
        Err(Refusal::NoMemory) => Err(Refusal::NoMemory),
    }
}

// How many bytes may be read behind a file.
fn room_behind(room: usize, found: &Option<Bytes>) -> Result<usize, Large>
    ensures { result ≡ room_behind room found.now }
{
    let size = match found {
        None => 0,
        Some(bytes) => bytes.len(),
    };
    if size > room {
        Err(Large::Total)
    } else {
        Ok(room - size)
    }
}

// Puts a file among the sources.
fn add_file(
    alloc: Global,
    sources: &mut Sources,
    path: &str,
    found: Option<Bytes>,
) -> Result<(), AllocError>
    ensures { OnOk result (sources.new ≡ with_file path.now found sources.old) }
{
    let text = Str::of(String::from_str(alloc, path)?);
    if ends_in(path, ".script") {
        sources.scripts.push(ScriptSource {
            path: text,
            read: match found {
                None => Err(gone()),
                Some(bytes) => read_script(alloc, bytes.as_slice())?,
            },
        })
    } else if ends_in(path, ".go") {
        sources.objects.push(GoSource {
            path: text,
            read: match found {
                None => Err(gone()),
                Some(bytes) => read_object(alloc, bytes.as_slice())?,
            },
        })
    } else {
        sources.collections.push(CollSource {
            path: text,
            read: match found {
                None => Err(gone()),
                Some(bytes) => read_collection(alloc, bytes.as_slice())?,
            },
        })
    }
}

fn gone() -> Unread
    ensures { result ≡ record { line = 0; code = BadCode.Gone } }
{
    unread(0, BadCode::Gone)
}
