//! Game objects.
ghost use Rattle.std.specs.Prelude.{◌≡◌, OnOk};
ghost use Rattle.dg_load.specs.Objects.{object_read, object_kept, object_file, object_files, part_node};

use crate::components::Home;
use crate::draft::{joined, text};
use crate::named::Named;
use crate::state::{Load, Object};
use dg_base::Names;
use dg_desc::GoDesc;
use dg_labels::kinds;
use dg_sources::{GoSource, Unread};
use std::alloc::{AllocError, Global};
use std::mem;

impl Load {
    /// The nodes of all game objects that have a file, each with its components.
    pub(crate) fn object_files(
        &mut self,
        alloc: Global,
        listed: &Names,
        sources: &[GoSource],
    ) -> Result<(), AllocError>
        ensures { OnOk result (self.new ≡ object_files listed.now sources.now self.old) }
    {
        for source in sources {
            self.object_file(alloc, listed, source)?;
        }
        Ok(())
    }

    fn object_file(
        &mut self,
        alloc: Global,
        listed: &Names,
        source: &GoSource,
    ) -> Result<(), AllocError>
        ensures { OnOk result (self.new ≡ object_file listed.now self.old source.now) }
    {
        let path = source.path.as_str();
        let node = self.draft.make_file(alloc, kinds::GAME_OBJECT, path)?;
        self.object_read(alloc, listed, node, path, &source.read)?;
        let place = self.objects.len();
        self.keep_object(alloc, node)?;
        self.object_files.put(path, place)
    }

    fn object_read(
        &mut self,
        alloc: Global,
        listed: &Names,
        node: u32,
        path: &str,
        read: &Result<GoDesc, Unread>,
    ) -> Result<(), AllocError>
        ensures { OnOk result (self.new ≡ object_read listed.now node path.now read.now self.old) }
    {
        match read {
            Err(why) => self.draft.refuse(alloc, node, path, *why),
            Ok(desc) => {
                let home = Home {
                    node,
                    path: text(alloc, path)?,
                    prefix: joined(alloc, path, "#")?,
                    line: None,
                };
                self.components(alloc, listed, &home, desc)
            }
        }
    }

    /// Puts the game object whose components were made among those that are there.
    pub(crate) fn keep_object(&mut self, alloc: Global, node: u32) -> Result<(), AllocError>
        ensures { OnOk result (self.new ≡ object_kept node self.old) }
    {
        let parts = mem::replace(&mut self.parts, Named::new(alloc));
        self.objects.push(Object { node, parts })
    }
}

impl Object {
    /// The component of an id, where the last one with it is one by a path.
    pub(crate) fn part(&self, id: &str) -> Option<u32>
        ensures { result ≡ part_node self.now id.now }
    {
        match self.parts.find(id) {
            Some(part) if part.is_ref => Some(part.node),
            _ => None,
        }
    }
}
