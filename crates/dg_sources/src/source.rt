//! The files of a project that are read, each with what it says.
use crate::bad::Unread;
use dg_base::Str;
use dg_desc::{CollDesc, GoDesc};
use dg_lua::Declaration;

/// Things of one sort, in order. Contracts see the list.
pub type Reads<T> = sqlite_items::Items<T>;

/// A script with the properties that it declares.
#[derive(Debug, Drop)]
pub struct ScriptSource {
    pub path: Str,
    pub read: Result<Reads<Declaration>, Unread>,
}

/// A game object's file.
#[derive(Debug, Drop)]
pub struct GoSource {
    pub path: Str,
    pub read: Result<GoDesc, Unread>,
}

/// A collection's file.
#[derive(Debug, Drop)]
pub struct CollSource {
    pub path: Str,
    pub read: Result<CollDesc, Unread>,
}

/// What a project's files say. `paths` are all its project paths, in the order of their texts. The files that are read
/// are those that end with `.script`, `.go` and `.collection`; those of each sort stand in that order too, and
/// `file_count` is their number.
#[derive(Debug, Drop)]
pub struct Sources {
    pub paths: Reads<Str>,
    pub scripts: Reads<ScriptSource>,
    pub objects: Reads<GoSource>,
    pub collections: Reads<CollSource>,
    pub file_count: u32,
}
