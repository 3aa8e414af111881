//! Collections: their nodes, and what fills them.
ghost use Rattle.std.specs.Prelude.{◌≡◌, OnOk, slice_get};
ghost use Rattle.dg_load.specs.Collections.{switch_set, head_set, collection_file, collection_files, filled_with, filling_kept, fill_at, fill_all};

use crate::draft::Draft;
use crate::named::Named;
use crate::state::{Filled, Load};
use dg_base::{Datum, Names, Str};
use dg_desc::CollDesc;
use dg_labels::{kinds, labels};
use dg_sources::{CollSource, Reads, Unread};
use std::alloc::{AllocError, Global};
use std::mem;

/// The collection that is being filled: its path and its node.
#[derive(Debug, Drop)]
pub struct Site {
    pub path: Str,
    pub node: u32,
}

impl Load {
    /// The nodes of all collections.
    pub(crate) fn collection_files(
        &mut self,
        alloc: Global,
        sources: &[CollSource],
    ) -> Result<(), AllocError>
        ensures { OnOk result (self.new ≡ collection_files sources.now self.old) }
    {
        for source in sources {
            self.collection_file(alloc, source)?;
        }
        Ok(())
    }

    fn collection_file(&mut self, alloc: Global, source: &CollSource) -> Result<(), AllocError>
        ensures { OnOk result (self.new ≡ collection_file self.old source.now) }
    {
        let path = source.path.as_str();
        let node = self.draft.make_file(alloc, kinds::COLLECTION, path)?;
        self.draft.set_head(alloc, node, path, &source.read)?;
        let place = self.collections.len();
        self.collections.push(node)?;
        self.collection_files.put(path, place)
    }

    /// Fills the collections at these places, one after the other.
    pub(crate) fn fill_all(
        &mut self,
        alloc: Global,
        listed: &Names,
        sources: &[CollSource],
        order: &[usize],
    ) -> Result<(), AllocError>
        ensures { OnOk result (self.new ≡ fill_all listed.now sources.now order.now self.old) }
    {
        for at in order {
            self.fill_at(alloc, listed, sources, *at)?;
        }
        Ok(())
    }

    fn fill_at(
        &mut self,
        alloc: Global,
        listed: &Names,
        sources: &[CollSource],
        at: usize,
    ) -> Result<(), AllocError>
        ensures { OnOk result (self.new ≡ fill_at listed.now sources.now self.old at) }
    {
        let Some(source) = sources.get(at) else {
            return Ok(());
        };
        let Some(node) = self.node_at(at) else {
            return Ok(());
        };
        let site = Site {
            path: source.path.copy()?,
            node,
        };
        self.fill_with(alloc, listed, &site, &source.read)?;
        let place = self.filled.len();
        self.keep_filled(alloc, node)?;
        self.filled_files.put(source.path.as_str(), place)
    }

    fn node_at(&self, at: usize) -> Option<u32>
        ensures { result ≡ slice_get self.now.collections at }
    {
        self.collections.get(at).copied()
    }

    fn fill_with(
        &mut self,
        alloc: Global,
        listed: &Names,
        site: &Site,
        read: &Result<CollDesc, Unread>,
    ) -> Result<(), AllocError>
        ensures { OnOk result (self.new ≡ filled_with listed.now site.now read.now self.old) }
    {
        match read {
            Err(_) => Ok(()),
            Ok(desc) => {
                self.instances(alloc, site, desc.instances.as_slice())?;
                self.embedded_instances(alloc, listed, site, desc.embedded_instances.as_slice())?;
                self.collection_instances(alloc, site, desc.collection_instances.as_slice())?;
                self.connect_children(alloc, site)
            }
        }
    }

    // Puts the collection that was filled among those that are.
    fn keep_filled(&mut self, alloc: Global, node: u32) -> Result<(), AllocError>
        ensures { OnOk result (self.new ≡ filling_kept node self.old) }
    {
        let instances = mem::replace(&mut self.instances, Named::new(alloc));
        let subs = mem::replace(&mut self.subs, Named::new(alloc));
        self.children = Reads::new(alloc);
        self.filled.push(Filled {
            node,
            instances,
            subs,
        })
    }
}

impl Draft {
    fn set_head(
        &mut self,
        alloc: Global,
        node: u32,
        path: &str,
        read: &Result<CollDesc, Unread>,
    ) -> Result<(), AllocError>
        ensures { OnOk result (self.new ≡ head_set node path.now read.now self.old) }
    {
        match read {
            Err(why) => self.refuse(alloc, node, path, *why),
            Ok(desc) => {
                self.set_text(alloc, node, labels::NAME, desc.name.as_str())?;
                self.set_switch(node, desc.scale_along_z)
            }
        }
    }

    fn set_switch(&mut self, node: u32, is_on: bool) -> Result<(), AllocError>
        ensures { OnOk result (self.new ≡ switch_set node is_on self.old) }
    {
        if is_on {
            self.set(node, labels::SCALE_ALONG_Z, Datum::Flag(true))
        } else {
            Ok(())
        }
    }
}
