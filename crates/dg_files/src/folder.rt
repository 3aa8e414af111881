//! Files in a folder.
ghost use Rattle.std.specs.Prelude.{◌≡◌, ℕ};

use super::fault_count::FaultCount;
use super::files::{Bytes, Files, Got, Listing, MOST_LISTED, Paths};
use super::listed::is_listed;
use super::refusal::Failed;
use dg_base::{Refusal, Str};
use std::alloc::{AllocError, Global};
use std::io::{self, ErrorKind, Read};
use std::marker::Model;
use std::path::Path;
use std::{fs, rt};

/// The files below a folder: the path `/a/b` is that file's place behind the folder's name.
///
/// It tells nothing of its content. Contracts see how often it has failed, up to the greatest u64.
#[derive(Drop)]
pub struct DirFiles<R: rt::Files + AllocGlobal + Clone + Drop> {
    rt: R,
    root: String,
    count: FaultCount,
}

impl<R: rt::Files + AllocGlobal + Clone + Drop> Model for DirFiles<R> {
    ghost Value = { ℕ };

    ghost view = { λ d. d.count };
}

impl<R: rt::Files + AllocGlobal + Clone + Drop> DirFiles<R> {
    /// The files below the folder `root`, whose name ends in no `/`. The folder isn't looked at.
    pub fn new(rt: R, root: String) -> DirFiles<R>
        ensures { result ≡ 0 }
    {
        DirFiles {
            rt,
            root,
            count: FaultCount::new(),
        }
    }

    /// How many calls have failed, up to the greatest u64.
    pub fn faults(&self) -> u64
        ensures { result ≡ self.now }
    {
        self.count.number()
    }

    fn place_of(&self, alloc: Global, path: &str) -> Result<String, AllocError> {
        joined(alloc, &self.root, path)
    }

    /// Goes through the folders with a list of those that are left, so at any depth.
    fn listing(&self, alloc: Global) -> io::Result<Listing> {
        let mut found = Vec::new(alloc);
        let mut folders = Vec::new(alloc);
        folders.push(String::from_str(alloc, "/")?)?;
        for _ in 0..u64::MAX {
            let Some(folder) = folders.pop() else {
                break;
            };
            self.look_into(alloc, &folder, &mut found, &mut folders)?;
            if found.len() > MOST_LISTED {
                return Ok(Listing::More);
            }
        }
        found.sort()?;
        Ok(Listing::All(as_paths(alloc, found)?))
    }

    /// Adds the files of a folder to `found`, and its folders to `folders`. A folder's path ends in
    /// `/`.
    fn look_into(
        &self,
        alloc: Global,
        folder: &str,
        found: &mut Vec<String>,
        folders: &mut Vec<String>,
    ) -> io::Result<()> {
        let place = self.place_of(alloc, folder)?;
        for entry in fs::read_dir(&self.rt, place)? {
            let entry = entry?;
            let mut path = joined(alloc, folder, entry.file_name())?;
            if entry.file_type()?.is_dir() {
                path.push('/')?;
                if is_listed(&path) {
                    folders.push(path)?;
                }
            } else if is_listed(&path) && self.is_file(entry.path())? {
                found.push(path)?;
            }
            if found.len() > MOST_LISTED {
                break;
            }
        }
        Ok(())
    }

    /// Whether a regular file is there. A link counts as what it leads to.
    fn is_file(&self, place: Path<'_>) -> io::Result<bool> {
        match fs::metadata(&self.rt, place) {
            Ok(metadata) => Ok(metadata.is_file()),
            Err(error) if is_absent(error.kind()) => Ok(false),
            Err(error) => Err(error),
        }
    }

    fn got_at(&self, alloc: Global, path: &str, most: usize) -> io::Result<Got> {
        let place = self.place_of(alloc, path)?;
        if !self.is_file(Path::new(&place))? {
            return Ok(Got::Absent);
        }
        let mut file = fs::open(&self.rt, place)?;
        read_at_most(alloc, &mut file, most)
    }

    fn write_at(&self, place: &str, bytes: &[u8]) -> io::Result<()> {
        if let Some((folder, _)) = place.rsplit_once('/') {
            if !folder.is_empty() {
                fs::create_dir_all(&self.rt, folder)?;
            }
        }
        fs::write(&self.rt, place, bytes)
    }
}

fn joined(alloc: Global, front: &str, back: &str) -> Result<String, AllocError> {
    let mut all = String::from_str(alloc, front)?;
    all.push_str(back)?;
    Ok(all)
}

fn as_paths(alloc: Global, found: Vec<String>) -> Result<Paths, AllocError> {
    let mut paths = Paths::new(alloc);
    for path in found {
        paths.push(Str::of(path))?;
    }
    Ok(paths)
}

/// Whether the system says that nothing is there, or that nothing can have such a name.
fn is_absent(kind: ErrorKind) -> bool {
    matches!(
        kind,
        ErrorKind::NotFound
            | ErrorKind::NotADirectory
            | ErrorKind::InvalidFilename
            | ErrorKind::InvalidInput
    )
}

/// Reads one byte more than `most`, if there are so many, and no further.
fn read_at_most<F: Read>(alloc: Global, file: &mut F, most: usize) -> io::Result<Got> {
    let mut bytes = Vec::new(alloc);
    let mut buffer = [0u8; 4096];
    for _ in 0..u64::MAX {
        let wanted = most.saturating_sub(bytes.len()).min(4095) + 1;
        let taken = file.read(&mut buffer[..wanted])?;
        if taken == 0 {
            break;
        }
        bytes.extend_from_slice(&buffer[..taken])?;
        if bytes.len() > most {
            return Ok(Got::Longer);
        }
    }
    Ok(Got::Whole(Bytes::from_vec(bytes)))
}

impl<R: rt::Files + AllocGlobal + Clone + Drop> Files for DirFiles<R> {
    ghost use Rattle.std.specs.Prelude.{None};

    ghost tree = { λ _. None };

    ghost faults = { λ count. count };

    /// Regular files, and links to them, sorted by their paths. A folder that a link leads to isn't
    /// gone into. A name that isn't UTF-8 is a failure.
    fn list(&mut self, alloc: Global) -> Result<Listing, Refusal<Failed>> {
        match self.listing(alloc) {
            Ok(listing) => Ok(listing),
            Err(error) => Err(self.count.refusal(error.kind())),
        }
    }

    /// Reads at most one byte more than `most`. What isn't a regular file is absent.
    fn read(&mut self, alloc: Global, path: &str, most: usize) -> Result<Got, Refusal<Failed>> {
        match self.got_at(alloc, path, most) {
            Ok(got) => Ok(got),
            Err(error) => Err(self.count.refusal(error.kind())),
        }
    }

    /// Makes the folders on the way that are missing.
    fn write(&mut self, alloc: Global, path: &str, bytes: &[u8]) -> Result<(), Refusal<Failed>> {
        let place = self.place_of(alloc, path)?;
        match self.write_at(&place, bytes) {
            Ok(()) => Ok(()),
            Err(_) => Err(self.count.failure()),
        }
    }
}
