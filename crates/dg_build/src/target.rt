//! A build file.
use dg_base::Str;
use sqlite_items::Items;

/// A file to be written: its path, below the folder of all build files, and its bytes.
#[derive(Debug, Drop)]
pub struct Target {
    pub path: Str,
    pub bytes: Items<u8>,
}

/// Build files in the order in which they are written. Contracts see the list.
pub type Targets = Items<Target>;
