//! Texts of files, and what is printed of the descriptions that they are read as.
use crate::{coll_tree, go_tree, read_coll, read_go};
use dg_ptext::{Tree, print_tree, read_tree};
use std::alloc::Global;
use std::test::Fail;

// Game objects: every known field there and absent, what is left out where it is the default, the order of what is
// printed, and each reason why a text is none.
const GAME_OBJECTS: [(&str, &str); 40] = [
    ("", ""),
    (
        "components { id:\"p\" component:'/p.script' scale { x: 2.0 } position { x: 1e1 y:0.0 } }",
        "components {\n  id: \"p\"\n  component: \"/p.script\"\n  position {\n    x: 10\n  }\n  scale {\n    x: 2.0\n  }\n}\n",
    ),
    (
        "components{id:\"a\"component:\"/a.b\"position{x:1 y:-2.5 z:1e-9}rotation{x:1 y:2 z:3 w:4}properties{id:\"q\"value:\"1\"type:PROPERTY_TYPE_NUMBER}properties{id:\"q\"value:\"1\"type:PROPERTY_TYPE_HASH}properties{id:\"q\"value:\"1\"type:PROPERTY_TYPE_URL}properties{id:\"q\"value:\"1\"type:PROPERTY_TYPE_VECTOR3}properties{id:\"q\"value:\"1\"type:PROPERTY_TYPE_VECTOR4}properties{id:\"q\"value:\"1\"type:PROPERTY_TYPE_QUAT}properties{id:\"q\"value:\"1\"type:PROPERTY_TYPE_BOOLEAN}}",
        "components {\n  id: \"a\"\n  component: \"/a.b\"\n  position {\n    x: 1\n    y: -2.5\n    z: 0.000000001\n  }\n  rotation {\n    x: 1\n    y: 2\n    z: 3\n    w: 4\n  }\n  properties {\n    id: \"q\"\n    value: \"1\"\n    type: PROPERTY_TYPE_NUMBER\n  }\n  properties {\n    id: \"q\"\n    value: \"1\"\n    type: PROPERTY_TYPE_HASH\n  }\n  properties {\n    id: \"q\"\n    value: \"1\"\n    type: PROPERTY_TYPE_URL\n  }\n  properties {\n    id: \"q\"\n    value: \"1\"\n    type: PROPERTY_TYPE_VECTOR3\n  }\n  properties {\n    id: \"q\"\n    value: \"1\"\n    type: PROPERTY_TYPE_VECTOR4\n  }\n  properties {\n    id: \"q\"\n    value: \"1\"\n    type: PROPERTY_TYPE_QUAT\n  }\n  properties {\n    id: \"q\"\n    value: \"1\"\n    type: PROPERTY_TYPE_BOOLEAN\n  }\n}\n",
    ),
    (
        "z:1 embedded_components{data:\"x\\n\\\"y\\\"\"type:\"a_9\"id:\"e\"position{x:1 y:-2.5 z:1e-9}rotation{x:1 y:2 z:3 w:4}b:2 a{c:\"3\"}}components{component:\"/c\"id:\"a\"}y{}",
        "components {\n  id: \"a\"\n  component: \"/c\"\n}\nembedded_components {\n  id: \"e\"\n  type: \"a_9\"\n  data: \"x\\n\\\"y\\\"\"\n  position {\n    x: 1\n    y: -2.5\n    z: 0.000000001\n  }\n  rotation {\n    x: 1\n    y: 2\n    z: 3\n    w: 4\n  }\n  b: 2\n  a {\n    c: \"3\"\n  }\n}\nz: 1\ny {\n}\n",
    ),
    (
        "components{id:\"a\"id:\"b\"component:\"/c\"position{x:1}position{x:-0 y:0 z:0.0000000004}rotation{w:1}properties{type:PROPERTY_TYPE_HASH value:\"\"u:1 id:\"h\"}}",
        "components {\n  id: \"b\"\n  component: \"/c\"\n  properties {\n    id: \"h\"\n    value: \"\"\n    type: PROPERTY_TYPE_HASH\n    u: 1\n  }\n}\n",
    ),
    (
        "components{id:\"a\"component:\"/c\"rotation{w:0}}",
        "components {\n  id: \"a\"\n  component: \"/c\"\n  rotation {\n    w: 0\n  }\n}\n",
    ),
    (
        "components { id: \"p\" }",
        "Because(Missing { line: 1, field: Component })",
    ),
    (
        "\ncomponents{component:\"/c\"}",
        "Because(Missing { line: 2, field: Id })",
    ),
    (
        "embedded_components{type:\"t\"data:\"\"}",
        "Because(Missing { line: 1, field: Id })",
    ),
    (
        "embedded_components{id:\"e\"data:\"\"}",
        "Because(Missing { line: 1, field: Type })",
    ),
    (
        "\n\nembedded_components{id:\"e\"type:\"t\"}",
        "Because(Missing { line: 3, field: Data })",
    ),
    (
        "components{id:\"a\"component:\"/c\"\nproperties{value:\"\"type:PROPERTY_TYPE_URL}}",
        "Because(Missing { line: 2, field: Id })",
    ),
    (
        "components{id:\"a\"component:\"/c\"properties{id:\"\"type:PROPERTY_TYPE_URL}}",
        "Because(Missing { line: 1, field: Value })",
    ),
    (
        "components{id:\"a\"component:\"/c\"properties{id:\"\"value:\"\"}}",
        "Because(Missing { line: 1, field: Type })",
    ),
    (
        "components{\nproperties:1}",
        "Because(Form { line: 2, field: Some(Properties) })",
    ),
    (
        "components{\n}\ncomponents:2",
        "Because(Missing { line: 1, field: Id })",
    ),
    (
        "components{id:\"a\"component:\"/c\"\nposition{\nx:q}}\ncomponents{}",
        "Because(Form { line: 3, field: Some(X) })",
    ),
    (
        "components:1",
        "Because(Form { line: 1, field: Some(Components) })",
    ),
    (
        "embedded_components:\"x\"",
        "Because(Form { line: 1, field: Some(EmbeddedComponents) })",
    ),
    (
        "components{id:a}",
        "Because(Form { line: 1, field: Some(Id) })",
    ),
    (
        "components{id:{}}",
        "Because(Form { line: 1, field: Some(Id) })",
    ),
    (
        "components{id:\"a\"component:b}",
        "Because(Form { line: 1, field: Some(Component) })",
    ),
    (
        "components{id:\"a\"component:\"/c\"\nposition:1}",
        "Because(Form { line: 2, field: Some(Position) })",
    ),
    (
        "components{id:\"a\"component:\"/c\"rotation:\"1\"}",
        "Because(Form { line: 1, field: Some(Rotation) })",
    ),
    (
        "components{id:\"a\"component:\"/c\"\nposition{x:1\nw:1}}",
        "Because(Form { line: 3, field: None })",
    ),
    (
        "components{id:\"a\"component:\"/c\"rotation{\nq{}}}",
        "Because(Form { line: 2, field: None })",
    ),
    (
        "components{id:\"a\"component:\"/c\"position{\nx:1e400}}",
        "Because(Form { line: 2, field: Some(X) })",
    ),
    (
        "components{id:\"a\"component:\"/c\"position{x:\"1\"}}",
        "Because(Form { line: 1, field: Some(X) })",
    ),
    (
        "components{id:\"a\"component:\"/c\"position{y:1.5f}}",
        "Because(Form { line: 1, field: Some(Y) })",
    ),
    (
        "components{id:\"a\"component:\"/c\"position{z:{}}}",
        "Because(Form { line: 1, field: Some(Z) })",
    ),
    (
        "components{id:\"a\"component:\"/c\"rotation{w:.}}",
        "Because(Form { line: 1, field: Some(W) })",
    ),
    (
        "components{id:\"a\"component:\"/c\"properties:1}",
        "Because(Form { line: 1, field: Some(Properties) })",
    ),
    (
        "components{id:\"a\"component:\"/c\"properties{type:\"PROPERTY_TYPE_URL\"}}",
        "Because(Form { line: 1, field: Some(Type) })",
    ),
    (
        "components{id:\"a\"component:\"/c\"properties{type:PROPERTY_TYPE_MATRIX4}}",
        "Because(Form { line: 1, field: Some(Type) })",
    ),
    (
        "components{id:\"a\"component:\"/c\"properties{value:1}}",
        "Because(Form { line: 1, field: Some(Value) })",
    ),
    (
        "embedded_components{type:\"\"}",
        "Because(Form { line: 1, field: Some(Type) })",
    ),
    (
        "embedded_components{type:\"A\"}",
        "Because(Form { line: 1, field: Some(Type) })",
    ),
    (
        "embedded_components{type:a}",
        "Because(Form { line: 1, field: Some(Type) })",
    ),
    (
        "embedded_components{data:1}",
        "Because(Form { line: 1, field: Some(Data) })",
    ),
    (
        "components{id:\"a\"component:\"/c\"position:1 position{}}",
        "Because(Form { line: 1, field: Some(Position) })",
    ),
];

// Collections, likewise.
const COLLECTIONS: [(&str, &str); 45] = [
    ("name:\"m\" zeta:1 name:'n'", "name: \"n\"\nzeta: 1\n"),
    ("name:\"\"scale_along_z:1", "name: \"\"\nscale_along_z: 1\n"),
    (
        "name:\"\"scale_along_z:true",
        "name: \"\"\nscale_along_z: 1\n",
    ),
    ("name:\"\"scale_along_z:0", "name: \"\"\n"),
    (
        "name:\"\"scale_along_z:1 scale_along_z:false",
        "name: \"\"\n",
    ),
    (
        "name:\"c\"instances{component_properties{properties{id:\"q\"value:\"1\"type:PROPERTY_TYPE_URL}properties{id:\"q\"value:\"1\"type:PROPERTY_TYPE_HASH}id:\"s\"k:1}scale3{x:2 y:1 z:-1}position{x:1 y:-2.5 z:1e-9}rotation{x:1 y:2 z:3 w:4}children:\"x\"prototype:\"/p.go\"children:\"y\"id:\"i\"k{}}",
        "name: \"c\"\ninstances {\n  id: \"i\"\n  prototype: \"/p.go\"\n  children: \"x\"\n  children: \"y\"\n  position {\n    x: 1\n    y: -2.5\n    z: 0.000000001\n  }\n  rotation {\n    x: 1\n    y: 2\n    z: 3\n    w: 4\n  }\n  scale3 {\n    x: 2\n    z: -1\n  }\n  component_properties {\n    id: \"s\"\n    properties {\n      id: \"q\"\n      value: \"1\"\n      type: PROPERTY_TYPE_URL\n    }\n    properties {\n      id: \"q\"\n      value: \"1\"\n      type: PROPERTY_TYPE_HASH\n    }\n    k: 1\n  }\n  k {\n  }\n}\n",
    ),
    (
        "name:\"c\"embedded_instances{scale:.5 position{x:1 y:-2.5 z:1e-9}rotation{x:1 y:2 z:3 w:4}data:\"{\"children:\"x\"id:\"e\"k:2}",
        "name: \"c\"\nembedded_instances {\n  id: \"e\"\n  children: \"x\"\n  data: \"{\"\n  position {\n    x: 1\n    y: -2.5\n    z: 0.000000001\n  }\n  rotation {\n    x: 1\n    y: 2\n    z: 3\n    w: 4\n  }\n  scale3 {\n    x: 0.5\n    y: 0.5\n    z: 0.5\n  }\n  k: 2\n}\n",
    ),
    (
        "collection_instances{instance_properties{properties{id:\"b\"properties{id:\"q\"value:\"1\"type:PROPERTY_TYPE_NUMBER}k:3}id:\"a/b\"k:4}scale3{y:0}scale:2 position{x:1 y:-2.5 z:1e-9}rotation{x:1 y:2 z:3 w:4}collection:\"/c.collection\"id:\"j\"k:5}name:\"c\"k:6",
        "name: \"c\"\ncollection_instances {\n  id: \"j\"\n  collection: \"/c.collection\"\n  position {\n    x: 1\n    y: -2.5\n    z: 0.000000001\n  }\n  rotation {\n    x: 1\n    y: 2\n    z: 3\n    w: 4\n  }\n  scale3 {\n    y: 0\n  }\n  instance_properties {\n    id: \"a/b\"\n    properties {\n      id: \"b\"\n      properties {\n        id: \"q\"\n        value: \"1\"\n        type: PROPERTY_TYPE_NUMBER\n      }\n      k: 3\n    }\n    k: 4\n  }\n  k: 5\n}\nk: 6\n",
    ),
    (
        "name:\"c\"instances{id:\"i\"prototype:\"\"scale3{}scale:3}collection_instances{id:\"j\"collection:\"\"scale:1}embedded_instances{id:\"k\"data:\"\"scale3{x:1}scale3{}}",
        "name: \"c\"\ninstances {\n  id: \"i\"\n  prototype: \"\"\n}\nembedded_instances {\n  id: \"k\"\n  data: \"\"\n}\ncollection_instances {\n  id: \"j\"\n  collection: \"\"\n}\n",
    ),
    ("", "Because(Missing { line: 1, field: Name })"),
    ("\ninstances{}", "Because(Missing { line: 2, field: Id })"),
    (
        "name:\"\"instances{id:\"i\"}",
        "Because(Missing { line: 1, field: Prototype })",
    ),
    (
        "name:\"\"instances{prototype:\"\"}",
        "Because(Missing { line: 1, field: Id })",
    ),
    (
        "name:\"\"embedded_instances{data:\"\"}",
        "Because(Missing { line: 1, field: Id })",
    ),
    (
        "name:\"\"\nembedded_instances{id:\"\"}",
        "Because(Missing { line: 2, field: Data })",
    ),
    (
        "name:\"\"collection_instances{collection:\"\"}",
        "Because(Missing { line: 1, field: Id })",
    ),
    (
        "name:\"\"collection_instances{id:\"\"}",
        "Because(Missing { line: 1, field: Collection })",
    ),
    (
        "name:\"\"instances{id:\"\"prototype:\"\"\ncomponent_properties{}}",
        "Because(Missing { line: 2, field: Id })",
    ),
    (
        "name:\"\"collection_instances{id:\"\"collection:\"\"instance_properties{\n}}",
        "Because(Missing { line: 1, field: Id })",
    ),
    (
        "name:\"\"collection_instances{id:\"\"collection:\"\"instance_properties{id:\"\"\nproperties{}}}",
        "Because(Missing { line: 2, field: Id })",
    ),
    (
        "name:\"\"collection_instances{id:\"\"collection:\"\"instance_properties{id:\"\"properties{id:\"\"\nproperties{}}}}",
        "Because(Missing { line: 2, field: Id })",
    ),
    ("name:1", "Because(Form { line: 1, field: Some(Name) })"),
    (
        "scale_along_z:2",
        "Because(Form { line: 1, field: Some(ScaleAlongZ) })",
    ),
    (
        "scale_along_z:\"1\"",
        "Because(Form { line: 1, field: Some(ScaleAlongZ) })",
    ),
    (
        "scale_along_z:{}",
        "Because(Form { line: 1, field: Some(ScaleAlongZ) })",
    ),
    (
        "instances:1",
        "Because(Form { line: 1, field: Some(Instances) })",
    ),
    (
        "embedded_instances:1",
        "Because(Form { line: 1, field: Some(EmbeddedInstances) })",
    ),
    (
        "collection_instances:1",
        "Because(Form { line: 1, field: Some(CollectionInstances) })",
    ),
    (
        "instances{prototype:1}",
        "Because(Form { line: 1, field: Some(Prototype) })",
    ),
    (
        "instances{children:{}}",
        "Because(Form { line: 1, field: Some(Children) })",
    ),
    (
        "instances{scale:\"1\"}",
        "Because(Form { line: 1, field: Some(Scale) })",
    ),
    (
        "instances{scale:{}}",
        "Because(Form { line: 1, field: Some(Scale) })",
    ),
    (
        "instances{\nscale:x}",
        "Because(Form { line: 2, field: Some(Scale) })",
    ),
    (
        "instances{scale3:1}",
        "Because(Form { line: 1, field: Some(Scale3) })",
    ),
    (
        "instances{scale3{\ns:1}}",
        "Because(Form { line: 2, field: None })",
    ),
    (
        "instances{scale3{w:1}}",
        "Because(Form { line: 1, field: None })",
    ),
    (
        "instances{component_properties:1}",
        "Because(Form { line: 1, field: Some(ComponentProperties) })",
    ),
    (
        "instances{component_properties{id:1}}",
        "Because(Form { line: 1, field: Some(Id) })",
    ),
    (
        "instances{component_properties{properties:1}}",
        "Because(Form { line: 1, field: Some(Properties) })",
    ),
    (
        "embedded_instances{data:1}",
        "Because(Form { line: 1, field: Some(Data) })",
    ),
    (
        "embedded_instances{position{\nid:\"1\"}}",
        "Because(Form { line: 2, field: None })",
    ),
    (
        "collection_instances{collection:1}",
        "Because(Form { line: 1, field: Some(Collection) })",
    ),
    (
        "collection_instances{instance_properties:1}",
        "Because(Form { line: 1, field: Some(InstanceProperties) })",
    ),
    (
        "collection_instances{instance_properties{properties:1}}",
        "Because(Form { line: 1, field: Some(Properties) })",
    ),
    (
        "collection_instances{instance_properties{properties{properties:1}}}",
        "Because(Form { line: 1, field: Some(Properties) })",
    ),
];

fn text_of(alloc: Global, tree: &Tree) -> Result<String, Fail> {
    let bytes = print_tree(alloc, tree)?;
    Ok(String::from_utf8_lossy(alloc, bytes.as_slice())?)
}

fn printed_go(alloc: Global, tree: &Tree) -> Result<String, Fail> {
    match read_go(alloc, tree) {
        Ok(desc) => text_of(alloc, &go_tree(alloc, &desc)?),
        Err(refusal) => Ok(format!(in alloc; "{refusal:?}")?),
    }
}

fn printed_coll(alloc: Global, tree: &Tree) -> Result<String, Fail> {
    match read_coll(alloc, tree) {
        Ok(desc) => text_of(alloc, &coll_tree(alloc, &desc)?),
        Err(refusal) => Ok(format!(in alloc; "{refusal:?}")?),
    }
}

fn tree_of(alloc: Global, text: &str) -> Tree {
    match read_tree(alloc, text.as_bytes()) {
        Ok(tree) => tree,
        Err(_) => Tree::new(alloc),
    }
}

#[test]
fn reads_and_prints_game_objects(rt: HostRuntime) -> Result<(), Fail> {
    for (text, answer) in GAME_OBJECTS {
        let tree = tree_of(rt.alloc(), text);
        let given = printed_go(rt.alloc(), &tree)?;
        assert_eq!(rt; given.as_str(), answer, "of {text}");
    }
    Ok(())
}

#[test]
fn reads_and_prints_collections(rt: HostRuntime) -> Result<(), Fail> {
    for (text, answer) in COLLECTIONS {
        let tree = tree_of(rt.alloc(), text);
        let given = printed_coll(rt.alloc(), &tree)?;
        assert_eq!(rt; given.as_str(), answer, "of {text}");
    }
    Ok(())
}

// Each message and each child keeps the line of its own field, and a default that stands there is told from none.
#[test]
fn keeps_lines(rt: HostRuntime) -> Result<(), Fail> {
    let alloc = rt.alloc();
    let tree = tree_of(
        alloc,
        "name: \"c\"\ninstances {\n  id: \"i\" prototype: \"/p.go\"\n  children: \"k\"\n  position { }\n}\n",
    );
    let Ok(desc) = read_coll(alloc, &tree) else {
        return Ok(());
    };
    let told = format!(in alloc; "{:?}", desc.instances)?;
    assert_eq!(rt;
        told.as_str(),
        "Items { items: [InstDesc { line: 2, id: Str { text: \"i\" }, prototype: Str { text: \"/p.go\" }, children: Items { items: [ChildDesc { line: 4, id: Str { text: \"k\" } }] }, position: Some(V3 { x: 0, y: 0, z: 0 }), rotation: None, scale3: None, component_properties: Items { items: [] }, unknown: Items { items: [] } }] }"
    );
    Ok(())
}
