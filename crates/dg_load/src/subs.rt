//! Instances of collections in a collection.
ghost use Rattle.std.specs.Prelude.{◌≡◌, IfOk, OnOk, map};
ghost use Rattle.dg_load.specs.Targets.{ids_in};
ghost use Rattle.dg_load.specs.Subs.{collection_instance, collection_instances, sub_noted, sub_of, sub_made, comps_set, insts_set, sub_absent, filled_at};

use crate::collections::Site;
use crate::draft::{Draft, Place};
use crate::instances::source_name;
use crate::state::{Filled, Load, Object, Sub};
use crate::targets::{ids_in, target, under};
use dg_desc::{CollInstDesc, CompPropsDesc, InstPropsDesc};
use dg_labels::{kinds, labels};
use dg_sources::BadCode;
use std::alloc::{AllocError, Global};

/// What the properties of a collection instance are found in: the game objects, the filled collections, and the place of
/// the collection among these.
#[derive(Drop)]
pub struct Inside<'a> {
    pub objects: &'a [Object],
    pub filled: &'a [Filled],
    pub place: usize,
}

impl Draft {
    // The properties that a collection instance gives the components of one instance.
    fn set_comps(
        &mut self,
        alloc: Global,
        inside: &Inside<'_>,
        over: u32,
        ids: &[&str],
        descs: &[CompPropsDesc],
    ) -> Result<(), AllocError>
        ensures { OnOk result (self.new ≡ comps_set inside.now.objects.now inside.now.filled.now inside.now.place over (map (λ i. i.now) ids.now) descs.now self.old) }
    {
        for desc in descs {
            let inner = target(
                alloc,
                inside.objects,
                inside.filled,
                inside.place,
                ids,
                desc.id.as_str(),
            )?;
            let at = under(alloc, over, inner)?;
            self.set_at(alloc, &at, desc.properties.as_slice())?;
        }
        Ok(())
    }

    // The properties that a collection instance gives the components of instances.
    fn set_insts(
        &mut self,
        alloc: Global,
        inside: &Inside<'_>,
        over: u32,
        descs: &[InstPropsDesc],
    ) -> Result<(), AllocError>
        ensures { OnOk result (self.new ≡ insts_set inside.now.objects.now inside.now.filled.now inside.now.place over descs.now self.old) }
    {
        for desc in descs {
            self.set_inst(alloc, inside, over, desc)?;
        }
        Ok(())
    }

    // Those of one of these instances.
    fn set_inst(
        &mut self,
        alloc: Global,
        inside: &Inside<'_>,
        over: u32,
        desc: &InstPropsDesc,
    ) -> Result<(), AllocError>
        ensures { OnOk result (self.new ≡ comps_set inside.now.objects.now inside.now.filled.now inside.now.place over (ids_in desc.now.id) desc.now.properties self.old) }
    {
        let ids = ids_in(alloc, desc.id.as_str())?;
        self.set_comps(
            alloc,
            inside,
            over,
            ids.as_slice(),
            desc.properties.as_slice(),
        )
    }

    // The override of the collection that an instance names.
    fn make_sub(
        &mut self,
        alloc: Global,
        site: &Site,
        inside: &Inside<'_>,
        root: u32,
        node: u32,
        desc: &CollInstDesc,
    ) -> Result<u32, AllocError>
        ensures made { OnOk result (self.new ≡ sub_made site.now inside.now.objects.now inside.now.filled.now inside.now.place root node desc.now self.old) }
        ensures node { IfOk result (λ k. k ≡ self.old.makes) }
    {
        let over = self.make_override(root)?;
        self.bind(source_name(alloc, site, desc.id.as_str())?, over)?;
        self.set_insts(alloc, inside, over, desc.instance_properties.as_slice())?;
        self.connect(over, labels::FLAT, node, labels::SOURCE)?;
        Ok(over)
    }

    // An instance of a collection that isn't filled: of one that is being filled it is defective, and any other is
    // absent.
    fn note_sub(
        &mut self,
        alloc: Global,
        site: &Site,
        is_file: bool,
        node: u32,
        desc: &CollInstDesc,
    ) -> Result<(), AllocError>
        ensures { OnOk result (self.new ≡ sub_absent site.now is_file node desc.now self.old) }
    {
        if is_file {
            self.mark(node)?;
            self.note(alloc, site.path.as_str(), desc.line, BadCode::Recursive)
        } else {
            self.note(alloc, site.path.as_str(), desc.line, BadCode::Absent)
        }
    }
}

impl Load {
    pub(crate) fn collection_instances(
        &mut self,
        alloc: Global,
        site: &Site,
        descs: &[CollInstDesc],
    ) -> Result<(), AllocError>
        ensures { OnOk result (self.new ≡ collection_instances site.now descs.now self.old) }
    {
        for desc in descs {
            self.collection_instance(alloc, site, desc)?;
        }
        Ok(())
    }

    fn collection_instance(
        &mut self,
        alloc: Global,
        site: &Site,
        desc: &CollInstDesc,
    ) -> Result<(), AllocError>
        ensures { OnOk result (self.new ≡ collection_instance site.now self.old desc.now) }
    {
        let place = Place {
            position: desc.position,
            rotation: desc.rotation,
            scale3: desc.scale3,
        };
        let id = desc.id.as_str();
        let node = self
            .draft
            .make_instance(alloc, kinds::COLL_INSTANCE, site, id, place)?;
        let sub = self.sub(alloc, site, node, desc)?;
        self.draft
            .connect(node, labels::INSTANCE, site.node, labels::SUBS)?;
        self.subs.put(id, sub)
    }

    fn sub(
        &mut self,
        alloc: Global,
        site: &Site,
        node: u32,
        desc: &CollInstDesc,
    ) -> Result<Option<Sub>, AllocError>
        ensures made { OnOk result (self.new ≡ sub_noted site.now node desc.now self.old) }
        ensures sub { IfOk result (λ s. s ≡ sub_of desc.now self.old) }
    {
        let path = desc.collection.as_str();
        match filled_at(self.filled.as_slice(), self.filled_files.find(path)) {
            None => {
                let is_file = self.collection_files.find(path).is_some();
                self.draft.note_sub(alloc, site, is_file, node, desc)?;
                Ok(None)
            }
            Some(found) => {
                let inside = Inside {
                    objects: self.objects.as_slice(),
                    filled: self.filled.as_slice(),
                    place: found.place,
                };
                let over = self
                    .draft
                    .make_sub(alloc, site, &inside, found.node, node, desc)?;
                Ok(Some(Sub {
                    over,
                    filled: found.place,
                }))
            }
        }
    }
}

/// A collection that is filled: its node, and its place among those that are.
#[derive(Clone, Copy, PartialEq, Eq, Debug)]
pub struct Found {
    pub node: u32,
    pub place: usize,
}

fn filled_at(filled: &[Filled], place: Option<usize>) -> Option<Found>
    ensures { result ≡ filled_at filled.now place }
{
    match place {
        None => None,
        Some(place) => match filled.get(place) {
            None => None,
            Some(one) => Some(Found {
                node: one.node,
                place,
            }),
        },
    }
}
