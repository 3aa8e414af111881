//! The program `defold_graph`: plays a script over the files below the current folder.
//!
//! Its words go to `dg_tool::run_tool`, whose contract says what is printed and written, and its status is the run's.
#![tactic(auto)]

ghost use Rattle.std.specs.Prelude.{◌≡◌, ◌<◌};

#[cfg(test)]
mod gates;
#[cfg(test)]
mod tests;

use dg_base::Steps;
use dg_files::{DirFiles, StdSink};
use dg_kinds_coll::Defold;
use dg_line::{LineName, Revision, Rows};
use dg_pool::OpenGate;
use dg_tool::{Status, run_tool};
use std::env;
use std::io::ErrorKind;
use std::marker::Brand;
use std::process::ExitCode;
use std::rt::{Env, Files};
use std::sync::Wait;
use std::sync::ledger::{Blank, Ledger};
use std::thread::Threads;

fn main(rt: HostRuntime) -> ExitCode {
    let Ok(rows) = Rows::new(rt.alloc()) else {
        return ExitCode::from(Status::NoMemory.code());
    };
    ExitCode::from(status_of::<Brand, Brand, HostRuntime>(rt, rows, Blank::new(1)))
}

fn status_of<
    J: LineName + Send + Sync,
    L: Ledger,
    R: Files + Env + Print + AllocGlobal + Threads + Wait + Drop + Send + Sync + Copy,
>(rt: R, rows: Rows<Revision<Defold>>, blank: Blank) -> u8
    requires rows { rows ≡ J.shelves }
    requires name { blank.name ≡ L.name }
    requires parts { blank.parts ≡ L.parts }
    requires some { 0 < blank.parts }
{
    let alloc = rt.alloc();
    let mut steps = Steps::<L>::open(blank);
    let words = match env::args(&rt) {
        Ok(all) => all.skip(1).collect(alloc),
        // A word that isn't UTF-8 is none of the words that there are.
        Err(error) if error.kind() == ErrorKind::InvalidData => Ok(Vec::new(alloc)),
        Err(_) => return Status::NoMemory.code(),
    };
    let (Ok(words), Ok(root)) = (words, String::from_str(alloc, ".")) else {
        return Status::NoMemory.code();
    };
    let mut files = DirFiles::new(rt, root);
    let mut out = StdSink::new(rt);
    let ended = run_tool::<DirFiles<R>, StdSink<R>, OpenGate, J, R, L>(
        rt,
        alloc,
        rows,
        words.as_slice(),
        &mut files,
        &mut out,
        &OpenGate,
        &mut steps,
    );
    ended.status.code()
}
