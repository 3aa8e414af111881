//! The limits of a project.

/// How many scripts, game objects and collections are read at most.
pub const MAX_FILES: usize = 4_096;

/// How many bytes one of these files has at most: 1 MiB.
pub const MAX_FILE: usize = 1_048_576;

/// How many bytes all of them have at most together: 64 MiB.
pub const MAX_TOTAL: usize = 67_108_864;

/// Which limit a project passes.
#[derive(Clone, Copy, PartialEq, Eq, Debug)]
pub enum Large {
    /// More than 65,536 paths are listed, or more than 4,096 files are to be read.
    Files,
    /// A file has more than 1 MiB.
    File,
    /// The files have more than 64 MiB together.
    Total,
}

/// Why a project isn't loaded.
#[derive(Clone, Copy, PartialEq, Eq, Debug)]
pub enum LoadEnd {
    /// A call of the files failed.
    FileFault,
    /// A limit is passed.
    TooLarge(Large),
}
