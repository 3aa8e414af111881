//! Instances of game objects in a collection.
ghost use Rattle.std.specs.Prelude.{◌≡◌, IfOk, OnOk};
ghost use Rattle.dg_load.specs.Instances.{site_name, source_name, instance_made, parts_set, prototype_made, prototype_noted, prototyped, instance_kept, children_kept, instance_placed, instance_behind, instance, instances, embedded_home, body_read, embedded_object, embedded_instance, embedded_instances};

use crate::collections::Site;
use crate::components::Home;
use crate::draft::{Draft, Place, joined};
use crate::state::{Child, Instance, Load, Object};
use crate::targets::{in_override, object_at};
use dg_base::{Kind, Names, Str};
use dg_desc::{ChildDesc, CompPropsDesc, EmbedInstDesc, InstDesc};
use dg_labels::{kinds, labels};
use dg_sources::{BadCode, read_object};
use std::alloc::{AllocError, Global};

/// The name of an instance in a collection.
pub(crate) fn site_name(alloc: Global, site: &Site, id: &str) -> Result<Str, AllocError>
    ensures { IfOk result (λ name. name ≡ site_name site.now id.now) }
{
    let prefix = joined(alloc, site.path.as_str(), "#")?;
    joined(alloc, prefix.as_str(), id)
}

/// The name of what an instance is one of.
pub(crate) fn source_name(alloc: Global, site: &Site, id: &str) -> Result<Str, AllocError>
    ensures { IfOk result (λ name. name ≡ source_name site.now id.now) }
{
    let name = site_name(alloc, site, id)?;
    joined(alloc, name.as_str(), "/source")
}

impl Draft {
    /// An instance, with what the file says of it itself.
    pub(crate) fn make_instance(
        &mut self,
        alloc: Global,
        kind: Kind,
        site: &Site,
        id: &str,
        place: Place,
    ) -> Result<u32, AllocError>
        ensures made { OnOk result (self.new ≡ instance_made kind site.now id.now place self.old) }
        ensures node { IfOk result (λ k. k ≡ self.old.makes) }
    {
        let node = self.make(kind)?;
        self.bind(site_name(alloc, site, id)?, node)?;
        self.set_text(alloc, node, labels::ID, id)?;
        self.set_place(node, place)?;
        Ok(node)
    }

    // An instance of a game object by its path.
    fn place_instance(
        &mut self,
        alloc: Global,
        site: &Site,
        desc: &InstDesc,
    ) -> Result<u32, AllocError>
        ensures made { OnOk result (self.new ≡ instance_placed site.now desc.now self.old) }
        ensures node { IfOk result (λ k. k ≡ self.old.makes) }
    {
        let place = Place {
            position: desc.position,
            rotation: desc.rotation,
            scale3: desc.scale3,
        };
        self.make_instance(alloc, kinds::GO_INSTANCE, site, desc.id.as_str(), place)
    }

    // The properties that an instance gives the components of its game object.
    fn set_parts(
        &mut self,
        alloc: Global,
        object: &Object,
        over: u32,
        descs: &[CompPropsDesc],
    ) -> Result<(), AllocError>
        ensures { OnOk result (self.new ≡ parts_set object.now over descs.now self.old) }
    {
        for desc in descs {
            let at = in_override(alloc, Some(over), object.part(desc.id.as_str()))?;
            self.set_at(alloc, &at, desc.properties.as_slice())?;
        }
        Ok(())
    }

    // The override of an instance's prototype.
    fn make_prototype(
        &mut self,
        alloc: Global,
        site: &Site,
        object: &Object,
        node: u32,
        desc: &InstDesc,
    ) -> Result<u32, AllocError>
        ensures made { OnOk result (self.new ≡ prototype_made site.now object.now node desc.now self.old) }
        ensures node { IfOk result (λ k. k ≡ self.old.makes) }
    {
        let over = self.make_override(object.node)?;
        self.bind(source_name(alloc, site, desc.id.as_str())?, over)?;
        self.set_parts(alloc, object, over, desc.component_properties.as_slice())?;
        self.connect(over, labels::OBJECT, node, labels::SOURCE)?;
        Ok(over)
    }
}

impl Load {
    pub(crate) fn instances(
        &mut self,
        alloc: Global,
        site: &Site,
        descs: &[InstDesc],
    ) -> Result<(), AllocError>
        ensures { OnOk result (self.new ≡ instances site.now descs.now self.old) }
    {
        for desc in descs {
            self.instance(alloc, site, desc)?;
        }
        Ok(())
    }

    fn instance(&mut self, alloc: Global, site: &Site, desc: &InstDesc) -> Result<(), AllocError>
        ensures { OnOk result (self.new ≡ instance site.now self.old desc.now) }
    {
        let node = self.draft.place_instance(alloc, site, desc)?;
        self.link_instance(alloc, site, node, desc)
    }

    // What comes behind an instance itself: its prototype, and its place in the collection.
    fn link_instance(
        &mut self,
        alloc: Global,
        site: &Site,
        node: u32,
        desc: &InstDesc,
    ) -> Result<(), AllocError>
        ensures { OnOk result (self.new ≡ instance_behind site.now node desc.now self.old) }
    {
        let instance = self.prototype(alloc, site, node, desc)?;
        self.draft
            .connect(node, labels::INSTANCE, site.node, labels::INSTANCES)?;
        self.keep_instance(alloc, desc.id.as_str(), instance, desc.children.as_slice())
    }

    // The override of an instance's prototype, or a bad place where there is none.
    fn prototype(
        &mut self,
        alloc: Global,
        site: &Site,
        node: u32,
        desc: &InstDesc,
    ) -> Result<Instance, AllocError>
        ensures made { OnOk result (self.new ≡ prototype_noted site.now node desc.now self.old) }
        ensures instance { IfOk result (λ i. i ≡ prototyped node desc.now self.old) }
    {
        let place = self.object_files.find(desc.prototype.as_str());
        match object_at(self.objects.as_slice(), place) {
            None => {
                self.draft
                    .note(alloc, site.path.as_str(), desc.line, BadCode::Absent)?;
                Ok(Instance {
                    node,
                    over: None,
                    object: None,
                })
            }
            Some(object) => {
                let over = self.draft.make_prototype(alloc, site, object, node, desc)?;
                Ok(Instance {
                    node,
                    over: Some(over),
                    object: place,
                })
            }
        }
    }

    // Puts an instance among those of the collection, with the children that it names.
    fn keep_instance(
        &mut self,
        alloc: Global,
        id: &str,
        instance: Instance,
        children: &[ChildDesc],
    ) -> Result<(), AllocError>
        ensures { OnOk result (self.new ≡ instance_kept id.now instance children.now self.old) }
    {
        self.instances.put(id, instance)?;
        self.keep_children(alloc, instance.node, children)
    }

    fn keep_children(
        &mut self,
        alloc: Global,
        parent: u32,
        children: &[ChildDesc],
    ) -> Result<(), AllocError>
        ensures { OnOk result (self.new ≡ children_kept parent children.now self.old) }
    {
        for child in children {
            self.children.push(Child {
                parent,
                line: child.line,
                id: child.id.copy()?,
            })?;
        }
        Ok(())
    }

    pub(crate) fn embedded_instances(
        &mut self,
        alloc: Global,
        listed: &Names,
        site: &Site,
        descs: &[EmbedInstDesc],
    ) -> Result<(), AllocError>
        ensures { OnOk result (self.new ≡ embedded_instances listed.now site.now descs.now self.old) }
    {
        for desc in descs {
            self.embedded_instance(alloc, listed, site, desc)?;
        }
        Ok(())
    }

    fn embedded_instance(
        &mut self,
        alloc: Global,
        listed: &Names,
        site: &Site,
        desc: &EmbedInstDesc,
    ) -> Result<(), AllocError>
        ensures { OnOk result (self.new ≡ embedded_instance listed.now site.now self.old desc.now) }
    {
        let place = Place {
            position: desc.position,
            rotation: desc.rotation,
            scale3: desc.scale3,
        };
        let id = desc.id.as_str();
        let node = self
            .draft
            .make_instance(alloc, kinds::GO_INSTANCE, site, id, place)?;
        let place = self.objects.len();
        let object = self.embedded_object(alloc, listed, site, desc)?;
        self.draft
            .connect(object, labels::OBJECT, node, labels::SOURCE)?;
        self.draft
            .connect(node, labels::INSTANCE, site.node, labels::INSTANCES)?;
        let instance = Instance {
            node,
            over: None,
            object: Some(place),
        };
        self.keep_instance(alloc, id, instance, desc.children.as_slice())
    }

    // The game object of an embedded instance.
    fn embedded_object(
        &mut self,
        alloc: Global,
        listed: &Names,
        site: &Site,
        desc: &EmbedInstDesc,
    ) -> Result<u32, AllocError>
        ensures made { OnOk result (self.new ≡ embedded_object listed.now site.now desc.now self.old) }
        ensures node { IfOk result (λ k. k ≡ self.old.draft.makes) }
    {
        let node = self.draft.make(kinds::GAME_OBJECT)?;
        self.draft
            .bind(source_name(alloc, site, desc.id.as_str())?, node)?;
        self.read_body(alloc, listed, site, node, desc)?;
        self.keep_object(alloc, node)?;
        Ok(node)
    }

    fn read_body(
        &mut self,
        alloc: Global,
        listed: &Names,
        site: &Site,
        node: u32,
        desc: &EmbedInstDesc,
    ) -> Result<(), AllocError>
        ensures { OnOk result (self.new ≡ body_read listed.now site.now node desc.now self.old) }
    {
        match read_object(alloc, desc.body.as_str().as_bytes())? {
            Err(_) => {
                self.draft.mark(node)?;
                self.draft
                    .note(alloc, site.path.as_str(), desc.line, BadCode::Data)
            }
            Ok(object) => {
                let home = embedded_home(alloc, site, node, desc)?;
                self.components(alloc, listed, &home, &object)
            }
        }
    }
}

fn embedded_home(
    alloc: Global,
    site: &Site,
    node: u32,
    desc: &EmbedInstDesc,
) -> Result<Home, AllocError>
    ensures { IfOk result (λ home. home ≡ embedded_home site.now node desc.now) }
{
    let name = source_name(alloc, site, desc.id.as_str())?;
    Ok(Home {
        node,
        path: site.path.copy()?,
        prefix: joined(alloc, name.as_str(), "#")?,
        line: Some(desc.line),
    })
}
