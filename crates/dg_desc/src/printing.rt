//! Printing the files.
ghost use Rattle.std.specs.Prelude.{◌≡◌, IfOk};
ghost use Rattle.dg_desc.specs.Trees.{go_tree, coll_tree};

use crate::descs::{CollDesc, GoDesc};
use crate::fields::{put_copies, put_switch, put_text};
use crate::known::FieldName;
use crate::part::put_all;
use dg_ptext::Tree;
use std::alloc::{AllocError, Global};

/// The tree that a game object is printed as, in time linear in it.
pub fn go_tree(alloc: Global, desc: &GoDesc) -> Result<Tree, AllocError>
    ensures { IfOk result (λ tree. tree ≡ go_tree desc.now) }
{
    let mut tree = Tree::new(alloc);
    put_all(
        alloc,
        &mut tree,
        FieldName::Components,
        desc.components.as_slice(),
    )?;
    put_all(
        alloc,
        &mut tree,
        FieldName::EmbeddedComponents,
        desc.embedded_components.as_slice(),
    )?;
    put_copies(alloc, &mut tree, desc.unknown.as_slice())?;
    Ok(tree)
}

/// The tree that a collection is printed as, in time linear in it.
pub fn coll_tree(alloc: Global, desc: &CollDesc) -> Result<Tree, AllocError>
    ensures { IfOk result (λ tree. tree ≡ coll_tree desc.now) }
{
    let mut tree = Tree::new(alloc);
    put_text(alloc, &mut tree, FieldName::Name, desc.name.as_str())?;
    put_switch(alloc, &mut tree, FieldName::ScaleAlongZ, desc.scale_along_z)?;
    put_all(
        alloc,
        &mut tree,
        FieldName::Instances,
        desc.instances.as_slice(),
    )?;
    put_all(
        alloc,
        &mut tree,
        FieldName::EmbeddedInstances,
        desc.embedded_instances.as_slice(),
    )?;
    put_all(
        alloc,
        &mut tree,
        FieldName::CollectionInstances,
        desc.collection_instances.as_slice(),
    )?;
    put_copies(alloc, &mut tree, desc.unknown.as_slice())?;
    Ok(tree)
}
