//! What the words of a command line say.
use dg_base::Str;

/// What a command line asks for. A path begins with a slash and is a project path.
#[derive(Debug, Drop)]
pub enum Task {
    /// Play the script at this path with so many workers, 0 to 16, and a cache of so many answers, 1 to
    /// 1,000,000; with `stats`, which stands with no worker alone, a line on the work ends the output.
    Run {
        script: Str,
        workers: u32,
        cache: u32,
        stats: bool,
    },
    /// Print the bad places of the project, and its size.
    Check,
    /// Build the resource at this path, of at most 16,382 bytes and 64 `@`: so the script line that it stands
    /// for is one that a script may have.
    Build {
        path: Str,
        workers: u32,
    },
    /// Make a project of a size from 1 to 64 from the seed, and play its script.
    Gen {
        seed: u64,
        size: u32,
        workers: u32,
        cache: u32,
    },
    /// Print the canonical text of the game object or collection at this path.
    Format {
        path: Str,
    },
}

/// The words are not in the grammar.
#[derive(Clone, Copy, PartialEq, Eq, Debug)]
pub struct Usage;
