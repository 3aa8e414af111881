//! What project files say: game objects and collections, and the messages in them.
use dg_base::{PType, Str, V3, V4};
use dg_ptext::Tree;

/// Messages of one sort, in the order of the text. Contracts see the list.
pub type Items<M> = sqlite_items::Items<M>;

/// A property that a file gives: its id, its value as it stands there, and its type.
#[derive(Debug, Drop)]
pub struct PropDesc {
    pub line: u32,
    pub id: Str,
    pub value: Str,
    pub kind: PType,
    pub unknown: Tree,
}

/// A component of a game object by its path.
#[derive(Debug, Drop)]
pub struct RefDesc {
    pub line: u32,
    pub id: Str,
    pub component: Str,
    pub position: Option<V3>,
    pub rotation: Option<V4>,
    pub properties: Items<PropDesc>,
    pub unknown: Tree,
}

/// A component of a game object that stands in its file: the field `type` is its kind, the field `data` its body.
#[derive(Debug, Drop)]
pub struct EmbedDesc {
    pub line: u32,
    pub id: Str,
    pub kind: Str,
    pub body: Str,
    pub position: Option<V3>,
    pub rotation: Option<V4>,
    pub unknown: Tree,
}

/// A game object.
#[derive(Debug, Drop)]
pub struct GoDesc {
    pub components: Items<RefDesc>,
    pub embedded_components: Items<EmbedDesc>,
    pub unknown: Tree,
}

/// A child of an instance by its id.
#[derive(Debug, Drop)]
pub struct ChildDesc {
    pub line: u32,
    pub id: Str,
}

/// The properties of a component that an instance gives.
#[derive(Debug, Drop)]
pub struct CompPropsDesc {
    pub line: u32,
    pub id: Str,
    pub properties: Items<PropDesc>,
    pub unknown: Tree,
}

/// The properties of the components of an instance that a collection instance gives.
#[derive(Debug, Drop)]
pub struct InstPropsDesc {
    pub line: u32,
    pub id: Str,
    pub properties: Items<CompPropsDesc>,
    pub unknown: Tree,
}

/// An instance of a game object by its path.
#[derive(Debug, Drop)]
pub struct InstDesc {
    pub line: u32,
    pub id: Str,
    pub prototype: Str,
    pub children: Items<ChildDesc>,
    pub position: Option<V3>,
    pub rotation: Option<V4>,
    pub scale3: Option<V3>,
    pub component_properties: Items<CompPropsDesc>,
    pub unknown: Tree,
}

/// An instance of a game object that stands in the collection's file: the field `data` is its body.
#[derive(Debug, Drop)]
pub struct EmbedInstDesc {
    pub line: u32,
    pub id: Str,
    pub children: Items<ChildDesc>,
    pub body: Str,
    pub position: Option<V3>,
    pub rotation: Option<V4>,
    pub scale3: Option<V3>,
    pub unknown: Tree,
}

/// An instance of a collection by its path.
#[derive(Debug, Drop)]
pub struct CollInstDesc {
    pub line: u32,
    pub id: Str,
    pub collection: Str,
    pub position: Option<V3>,
    pub rotation: Option<V4>,
    pub scale3: Option<V3>,
    pub instance_properties: Items<InstPropsDesc>,
    pub unknown: Tree,
}

/// A collection.
#[derive(Debug, Drop)]
pub struct CollDesc {
    pub name: Str,
    pub scale_along_z: bool,
    pub instances: Items<InstDesc>,
    pub embedded_instances: Items<EmbedInstDesc>,
    pub collection_instances: Items<CollInstDesc>,
    pub unknown: Tree,
}
