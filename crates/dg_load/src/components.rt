//! Components of game objects.
ghost use Rattle.std.specs.Prelude.{◌≡◌, ◌++◌, IfOk, OnOk, fold};
ghost use Rattle.dg_load.specs.Components.{line_in, is_resource, resource_node, with_resource, source_noted, reference_made, source_connected, reference, embedded_made, embedded, components, unscaled};

use crate::draft::{Draft, Place, joined};
use crate::state::{Load, Part};
use dg_base::{Names, NodeRef, Str, V3, V4};
use dg_desc::{EmbedDesc, GoDesc, RefDesc};
use dg_labels::{kinds, labels};
use dg_sources::BadCode;
use std::alloc::{AllocError, Global};

/// The game object whose components are made: its node, the path of the file that it stands in, what the names of its
/// components begin with, and the line of the embedded instance whose text it is, if it is one's.
#[derive(Debug, Drop)]
pub struct Home {
    pub node: u32,
    pub path: Str,
    pub prefix: Str,
    pub line: Option<u32>,
}

impl Home {
    // The line of a bad place in this game object.
    fn line_of(&self, line: u32) -> u32
        ensures { result ≡ line_in self.now line }
    {
        match self.line {
            None => line,
            Some(outer) => outer,
        }
    }
}

fn is_resource(listed: &Names, path: &str) -> bool
    ensures { result ≡ is_resource listed.now path.now }
{
    listed.find(path).is_some() || path.starts_with("/builtins/")
}

impl Load {
    // The node that is the resource of a path, which is made where it is the first that the path names.
    fn resource(
        &mut self,
        alloc: Global,
        listed: &Names,
        path: &str,
    ) -> Result<Option<u32>, AllocError>
        ensures made { OnOk result (self.new ≡ with_resource listed.now path.now self.old) }
        ensures node { IfOk result (λ k. k ≡ resource_node listed.now path.now self.old) }
    {
        if let Some(node) = self.scripts.find(path) {
            return Ok(Some(node));
        }
        if let Some(node) = self.resources.find(path) {
            return Ok(Some(node));
        }
        if !is_resource(listed, path) {
            return Ok(None);
        }
        let node = self.draft.make(kinds::RESOURCE_FILE)?;
        self.draft.set_text(alloc, node, labels::PATH, path)?;
        self.resources.put(path, node)?;
        Ok(Some(node))
    }

    /// The components of a game object: first those by a path, then those that stand in its text.
    pub(crate) fn components(
        &mut self,
        alloc: Global,
        listed: &Names,
        home: &Home,
        desc: &GoDesc,
    ) -> Result<(), AllocError>
        ensures { OnOk result (self.new ≡ components listed.now home.now desc.now self.old) }
    {
        self.references(alloc, listed, home, desc.components.as_slice())?;
        self.embedded_components(alloc, home, desc.embedded_components.as_slice())
    }

    fn references(
        &mut self,
        alloc: Global,
        listed: &Names,
        home: &Home,
        descs: &[RefDesc],
    ) -> Result<(), AllocError>
        ensures { OnOk result (self.new ≡ fold (reference listed.now home.now) self.old descs.now) }
    {
        for desc in descs {
            self.reference(alloc, listed, home, desc)?;
        }
        Ok(())
    }

    fn reference(
        &mut self,
        alloc: Global,
        listed: &Names,
        home: &Home,
        desc: &RefDesc,
    ) -> Result<(), AllocError>
        ensures { OnOk result (self.new ≡ reference listed.now home.now self.old desc.now) }
    {
        let source = self.resource(alloc, listed, desc.component.as_str())?;
        self.draft.note_source(alloc, home, desc.line, source)?;
        let node = self.draft.make_reference(alloc, home, desc, source)?;
        self.parts
            .put(desc.id.as_str(), Part { node, is_ref: true })
    }

    fn embedded_components(
        &mut self,
        alloc: Global,
        home: &Home,
        descs: &[EmbedDesc],
    ) -> Result<(), AllocError>
        ensures { OnOk result (self.new ≡ fold (embedded home.now) self.old descs.now) }
    {
        for desc in descs {
            self.embedded(alloc, home, desc)?;
        }
        Ok(())
    }

    fn embedded(&mut self, alloc: Global, home: &Home, desc: &EmbedDesc) -> Result<(), AllocError>
        ensures { OnOk result (self.new ≡ embedded home.now self.old desc.now) }
    {
        let node = self.draft.make_embedded(alloc, home, desc)?;
        self.parts.put(
            desc.id.as_str(),
            Part {
                node,
                is_ref: false,
            },
        )
    }
}

impl Draft {
    // Notes that what a component names isn't there.
    fn note_source(
        &mut self,
        alloc: Global,
        home: &Home,
        line: u32,
        source: Option<u32>,
    ) -> Result<(), AllocError>
        ensures { OnOk result (self.new ≡ source_noted home.now line source self.old) }
    {
        match source {
            Some(_) => Ok(()),
            None => self.note(
                alloc,
                home.path.as_str(),
                home.line_of(line),
                BadCode::Absent,
            ),
        }
    }

    fn make_reference(
        &mut self,
        alloc: Global,
        home: &Home,
        desc: &RefDesc,
        source: Option<u32>,
    ) -> Result<u32, AllocError>
        ensures made { OnOk result (self.new ≡ reference_made home.now desc.now source self.old) }
        ensures node { IfOk result (λ k. k ≡ self.old.makes) }
    {
        let node = self.make(kinds::COMPONENT_REF)?;
        self.bind(joined(alloc, home.prefix.as_str(), desc.id.as_str())?, node)?;
        self.set_text(alloc, node, labels::ID, desc.id.as_str())?;
        self.set_place(node, unscaled(desc.position, desc.rotation))?;
        self.set_properties(alloc, &NodeRef::New(node), desc.properties.as_slice())?;
        self.connect_source(source, node)?;
        self.connect(node, labels::COMPONENT, home.node, labels::COMPONENTS)?;
        Ok(node)
    }

    fn connect_source(&mut self, source: Option<u32>, node: u32) -> Result<(), AllocError>
        ensures { OnOk result (self.new ≡ source_connected source node self.old) }
    {
        match source {
            None => Ok(()),
            Some(source) => self.connect(source, labels::RESOURCE, node, labels::RESOURCE),
        }
    }

    fn make_embedded(
        &mut self,
        alloc: Global,
        home: &Home,
        desc: &EmbedDesc,
    ) -> Result<u32, AllocError>
        ensures made { OnOk result (self.new ≡ embedded_made home.now desc.now self.old) }
        ensures node { IfOk result (λ k. k ≡ self.old.makes) }
    {
        let node = self.make(kinds::COMPONENT_EMBEDDED)?;
        self.bind(joined(alloc, home.prefix.as_str(), desc.id.as_str())?, node)?;
        self.set_text(alloc, node, labels::ID, desc.id.as_str())?;
        self.set_text(alloc, node, labels::TYPE, desc.kind.as_str())?;
        self.set_text(alloc, node, labels::DATA, desc.body.as_str())?;
        self.set_place(node, unscaled(desc.position, desc.rotation))?;
        self.connect(node, labels::COMPONENT, home.node, labels::COMPONENTS)?;
        Ok(node)
    }
}

fn unscaled(position: Option<V3>, rotation: Option<V4>) -> Place
    ensures { result ≡ unscaled position rotation }
{
    Place {
        position,
        rotation,
        scale3: None,
    }
}
