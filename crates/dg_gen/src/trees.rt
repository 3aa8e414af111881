//! The texts of game objects and collections.
ghost use Rattle.std.specs.Prelude.{◌≡◌, ◌+◌, ◌++◌, ◌∷◌, ◌<◌, ◌^◌, [], codes, IfOk, OnOk, string_bytes};
ghost use Rattle.dg_ptext.specs.declared.tree.Value.TheVariants as tree_value;
ghost use Rattle.dg_ptext.specs.Printed.{printed};
ghost use Rattle.dg_gen.specs.Paths.{script_path, object_path, collection_path};
ghost use Rattle.dg_gen.specs.Files.{field, component_fields, object_fields, position_fields, placed_fields, name_field, instance_field, inner_field, first_fields, outer_fields};

use dg_base::Str;
use dg_ptext::{Bytes, Field, Tree, Value, print_tree};
use std::alloc::{AllocError, Global};

pub(crate) fn script_path(alloc: Global, number: u32) -> Result<String, AllocError>
    ensures { IfOk result (λ s. string_bytes s ≡ script_path number) }
{
    format!(in alloc; "/g/s{number}.script")
}

pub(crate) fn object_path(alloc: Global, number: u32) -> Result<String, AllocError>
    ensures { IfOk result (λ s. string_bytes s ≡ object_path number) }
{
    format!(in alloc; "/g/o{number}.go")
}

pub(crate) fn collection_path(alloc: Global, number: u32) -> Result<String, AllocError>
    ensures { IfOk result (λ s. string_bytes s ≡ collection_path number) }
{
    format!(in alloc; "/g/c{number}.collection")
}

fn put_field(alloc: Global, tree: &mut Tree, name: &str, value: Value) -> Result<(), AllocError>
    ensures { OnOk result (tree.new ≡ tree.old ++ field name.now value ∷ []) }
{
    let name = Str::of(String::from_str(alloc, name)?);
    tree.push(Field {
        name,
        line: 1,
        value,
    })
}

fn quoted(text: String) -> Value
    ensures { result ≡ tree_value.Quoted (string_bytes text) }
{
    Value::Quoted(Str::of(text))
}

/// The text of the game object with this number.
pub(crate) fn object_text(alloc: Global, number: u32) -> Result<Bytes, AllocError>
    ensures { IfOk result (λ b. b ≡ printed [] (object_fields number)) }
{
    let mut tree = Tree::new(alloc);
    let component = component_fields(alloc, number)?;
    put_field(alloc, &mut tree, "components", Value::Message(component))?;
    print_tree(alloc, &tree)
}

fn component_fields(alloc: Global, number: u32) -> Result<Tree, AllocError>
    ensures { IfOk result (λ t. t ≡ component_fields number) }
{
    let mut tree = Tree::new(alloc);
    put_field(
        alloc,
        &mut tree,
        "id",
        quoted(String::from_str(alloc, "s")?),
    )?;
    put_field(
        alloc,
        &mut tree,
        "component",
        quoted(script_path(alloc, number)?),
    )?;
    Ok(tree)
}

/// The text of the first collection, whose game object stands at `x`.
pub(crate) fn first_text(alloc: Global, x: u32) -> Result<Bytes, AllocError>
    ensures { IfOk result (λ b. b ≡ printed [] (first_fields x)) }
{
    let mut tree = Tree::new(alloc);
    put_named(alloc, &mut tree, 0, x)?;
    print_tree(alloc, &tree)
}

/// The text of the collection around the one with this number, whose game object stands at `x`; the other collection
/// stands at `y` in it.
pub(crate) fn outer_text(alloc: Global, number: u32, x: u32, y: u32) -> Result<Bytes, AllocError>
    requires { number + 1 < 2 ^ 32 }
    ensures { IfOk result (λ b. b ≡ printed [] (outer_fields number x y)) }
{
    let tree = outer_fields(alloc, number, x, y)?;
    print_tree(alloc, &tree)
}

fn outer_fields(alloc: Global, number: u32, x: u32, y: u32) -> Result<Tree, AllocError>
    requires { number + 1 < 2 ^ 32 }
    ensures { IfOk result (λ t. t ≡ outer_fields number x y) }
{
    let mut tree = Tree::new(alloc);
    put_named(alloc, &mut tree, number + 1, x)?;
    let path = collection_path(alloc, number)?;
    let inner = placed_fields(alloc, "b", "collection", path, y)?;
    let inner = Value::Message(inner);
    put_field(alloc, &mut tree, "collection_instances", inner)?;
    Ok(tree)
}

// The name of the collection with this number, and the instance of the game object with that number.
fn put_named(alloc: Global, tree: &mut Tree, number: u32, x: u32) -> Result<(), AllocError>
    ensures { OnOk result (tree.new ≡ tree.old ++ name_field number ∷ instance_field number x ∷ []) }
{
    put_field(alloc, tree, "name", quoted(format!(in alloc; "c{number}")?))?;
    let instance = placed_fields(alloc, "a", "prototype", object_path(alloc, number)?, x)?;
    put_field(alloc, tree, "instances", Value::Message(instance))
}

fn placed_fields(
    alloc: Global,
    id: &str,
    source: &str,
    path: String,
    x: u32,
) -> Result<Tree, AllocError>
    ensures { IfOk result (λ t. t ≡ placed_fields id.now source.now (string_bytes path) x) }
{
    let mut tree = Tree::new(alloc);
    put_field(alloc, &mut tree, "id", quoted(String::from_str(alloc, id)?))?;
    put_field(alloc, &mut tree, source, quoted(path))?;
    let position = position_fields(alloc, x)?;
    put_field(alloc, &mut tree, "position", Value::Message(position))?;
    Ok(tree)
}

fn position_fields(alloc: Global, x: u32) -> Result<Tree, AllocError>
    ensures { IfOk result (λ t. t ≡ position_fields x) }
{
    let mut tree = Tree::new(alloc);
    let word = Str::of(format!(in alloc; "{x}")?);
    put_field(alloc, &mut tree, "x", Value::Bare(word))?;
    Ok(tree)
}
