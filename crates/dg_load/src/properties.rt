//! Properties of nodes that a script or a component has by their ids.
ghost use Rattle.std.specs.Prelude.{◌≡◌, IfOk, OnOk, option_map};
ghost use Rattle.dg_load.specs.Draft.{new};
ghost use Rattle.dg_load.specs.Properties.{set_open, declared, set_properties, set_at};

use crate::draft::{Draft, text};
use dg_base::{Datum, NodeRef, PType, PropVal, Step};
use dg_desc::PropDesc;
use dg_lua::Declaration;
use sqlite_items::Boxed;
use std::alloc::{AllocError, Global};

/// An equal reference of its own.
pub(crate) fn copy_ref(alloc: Global, at: &NodeRef) -> Result<NodeRef, AllocError>
    ensures { IfOk result (λ copy. copy ≡ at.now) }
{
    Ok(match at {
        NodeRef::Id(node) => NodeRef::Id(*node),
        NodeRef::New(node) => NodeRef::New(*node),
        NodeRef::In { root, original } => NodeRef::In {
            root: Boxed::new(alloc, copy_ref(alloc, root.get())?)?,
            original: Boxed::new(alloc, copy_ref(alloc, original.get())?)?,
        },
    })
}

impl Draft {
    /// Sets a property by its id, which is interned.
    pub(crate) fn set_open(
        &mut self,
        alloc: Global,
        at: &NodeRef,
        id: &str,
        ptype: PType,
        words: &str,
    ) -> Result<(), AllocError>
        ensures { OnOk result (self.new ≡ set_open at.now id.now ptype words.now self.old) }
    {
        let node = copy_ref(alloc, at)?;
        let text = text(alloc, words)?;
        let label = self.names.intern(id)?;
        self.step(Step::Set {
            node,
            label,
            value: Datum::Prop(PropVal {
                name: label,
                ptype,
                text,
            }),
        })
    }

    /// Sets what a script declares.
    pub(crate) fn declare(
        &mut self,
        alloc: Global,
        node: u32,
        declarations: &[Declaration],
    ) -> Result<(), AllocError>
        ensures { OnOk result (self.new ≡ declared node declarations.now self.old) }
    {
        for one in declarations {
            self.declare_one(alloc, node, one)?;
        }
        Ok(())
    }

    fn declare_one(&mut self, alloc: Global, node: u32, one: &Declaration) -> Result<(), AllocError>
        ensures { OnOk result (self.new ≡ set_open (new node) one.now.id one.now.ptype one.now.text self.old) }
    {
        self.set_open(
            alloc,
            &NodeRef::New(node),
            one.id.as_str(),
            one.ptype,
            one.text.as_str(),
        )
    }

    /// Sets properties of one node.
    pub(crate) fn set_properties(
        &mut self,
        alloc: Global,
        at: &NodeRef,
        properties: &[PropDesc],
    ) -> Result<(), AllocError>
        ensures { OnOk result (self.new ≡ set_properties at.now properties.now self.old) }
    {
        for property in properties {
            self.set_open(
                alloc,
                at,
                property.id.as_str(),
                property.kind,
                property.value.as_str(),
            )?;
        }
        Ok(())
    }

    /// The same, where the node was found.
    pub(crate) fn set_at(
        &mut self,
        alloc: Global,
        at: &Option<NodeRef>,
        properties: &[PropDesc],
    ) -> Result<(), AllocError>
        ensures { OnOk result (self.new ≡ set_at at.now properties.now self.old) }
    {
        match at {
            None => Ok(()),
            Some(at) => self.set_properties(alloc, at, properties),
        }
    }
}
