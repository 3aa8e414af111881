//! The loader between two of its parts: what it has made, and where it finds what a later part names.
ghost use Rattle.std.specs.Prelude.{◌≡◌};
ghost use Rattle.dg_load.specs.State.{start};

use crate::draft::Draft;
use crate::named::Named;
use dg_base::{Names, Str};
use dg_sources::Reads;
use std::alloc::Global;

/// A component of a game object: its node, and whether it is one by a path.
#[derive(Clone, Copy, PartialEq, Eq, Debug)]
pub struct Part {
    pub node: u32,
    pub is_ref: bool,
}

/// A game object that was made, with its components by their ids; of equal ids the last one is there.
#[derive(Drop)]
pub struct Object {
    pub node: u32,
    pub parts: Named<Part>,
}

/// An instance in a collection: its node, the root of the override of its prototype, and the place of its game object
/// among those that were made. An embedded instance has no override, and one whose prototype is absent no game object.
#[derive(Clone, Copy, PartialEq, Eq, Debug)]
pub struct Instance {
    pub node: u32,
    pub over: Option<u32>,
    pub object: Option<usize>,
}

/// An instance of a collection: the root of the override, and the place of the collection among those that are filled.
#[derive(Clone, Copy, PartialEq, Eq, Debug)]
pub struct Sub {
    pub over: u32,
    pub filled: usize,
}

/// A child that an instance names: the instance's node, the line, and the child's id.
#[derive(Debug, Drop)]
pub struct Child {
    pub parent: u32,
    pub line: u32,
    pub id: Str,
}

/// A collection that is filled, with what stands in it by their ids; of equal ids the last one is there.
#[derive(Drop)]
pub struct Filled {
    pub node: u32,
    pub instances: Named<Instance>,
    pub subs: Named<Option<Sub>>,
}

/// The loader between two of its parts.
///
/// `scripts` and `resources` have the nodes of paths. `objects` are the game objects that were made, and `object_files`
/// has the places of those that have a file; `parts` are the components of the one that is being made. `collections`
/// are the nodes of the collections' files, and `filled` those that are filled, with their places in `filled_files`;
/// `instances`, `subs` and `children` are of the one that is being filled.
#[derive(Drop)]
pub struct Load {
    pub draft: Draft,
    pub scripts: Named<u32>,
    pub resources: Named<u32>,
    pub parts: Named<Part>,
    pub objects: Reads<Object>,
    pub object_files: Named<usize>,
    pub collections: Reads<u32>,
    pub collection_files: Named<usize>,
    pub instances: Named<Instance>,
    pub subs: Named<Option<Sub>>,
    pub children: Reads<Child>,
    pub filled: Reads<Filled>,
    pub filled_files: Named<usize>,
}

impl Load {
    /// Nothing yet, but for these names.
    pub(crate) fn new(alloc: Global, names: Names) -> Load
        ensures { result ≡ start names }
    {
        Load {
            draft: Draft::new(alloc, names),
            scripts: Named::new(alloc),
            resources: Named::new(alloc),
            parts: Named::new(alloc),
            objects: Reads::new(alloc),
            object_files: Named::new(alloc),
            collections: Reads::new(alloc),
            collection_files: Named::new(alloc),
            instances: Named::new(alloc),
            subs: Named::new(alloc),
            children: Reads::new(alloc),
            filled: Reads::new(alloc),
            filled_files: Named::new(alloc),
        }
    }
}
