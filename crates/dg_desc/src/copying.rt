//! Copies of trees.
ghost use Rattle.std.specs.Prelude.{◌≡◌, IfOk};

use dg_ptext::{Field, Tree, Value};
use std::alloc::{AllocError, Global};

/// An equal field of its own.
#[cycle(copying)]
pub(crate) fn copy_field(alloc: Global, field: &Field) -> Result<Field, AllocError>
    ensures { IfOk result (λ copy. copy ≡ field.now) }
{
    Ok(Field {
        name: field.name.copy()?,
        line: field.line,
        value: copy_value(alloc, &field.value)?,
    })
}

#[cycle(copying)]
fn copy_value(alloc: Global, value: &Value) -> Result<Value, AllocError>
    ensures { IfOk result (λ copy. copy ≡ value.now) }
{
    Ok(match value {
        Value::Bare(word) => Value::Bare(word.copy()?),
        Value::Quoted(text) => Value::Quoted(text.copy()?),
        Value::Message(fields) => Value::Message(copy_fields(alloc, fields.as_slice())?),
    })
}

/// Equal fields of their own, in time linear in them.
#[cycle(copying)]
pub(crate) fn copy_fields(alloc: Global, fields: &[Field]) -> Result<Tree, AllocError>
    ensures { IfOk result (λ copy. copy ≡ fields.now) }
{
    let mut all = Tree::new(alloc);
    for field in fields {
        all.push(copy_field(alloc, field)?)?;
    }
    Ok(all)
}
