//! Messages that are read of fields and printed as fields.
ghost use Rattle.std.specs.Prelude.{◌≡◌, ◌++◌, IfOk, OnOk};
ghost use Rattle.dg_desc.specs.Trees.{all_trees};
ghost use Rattle.dg_desc.specs.Descs.{all_of};

use crate::check::is_named;
use crate::descs::Items;
use crate::fields::put_message;
use crate::known::FieldName;
use crate::lookups::fields_in;
use dg_ptext::{Field, Tree};
use std::alloc::{AllocError, Global};

/// A message that is read of the line and the fields of its own field, and printed as fields.
pub(crate) trait Part: Drop {
    ghost use Rattle.std.specs.Prelude.{ℕ, List};
    ghost use Rattle.dg_ptext.specs.declared.tree.Field.{Field};

    ghost reads: { ℕ → List Field → Self };

    ghost prints: { Self → List Field };

    fn read(alloc: Global, line: u32, fields: &[Field]) -> Result<Self, AllocError>
        ensures { IfOk result (λ part. part ≡ reads line fields.now) };

    fn put(&self, alloc: Global, out: &mut Tree) -> Result<(), AllocError>
        ensures { OnOk result (out.new ≡ out.old ++ prints self.now) };
}

/// The messages of a name.
pub(crate) fn all_of<P: Part>(
    alloc: Global,
    name: FieldName,
    fields: &[Field],
) -> Result<Items<P>, AllocError>
    ensures { IfOk result (λ all. all ≡ all_of P.reads name fields.now) }
{
    let mut all = Items::new(alloc);
    for field in fields {
        if is_named(name, field) {
            all.push(P::read(alloc, field.line, fields_in(&field.value))?)?;
        }
    }
    Ok(all)
}

/// The messages of a name behind the fields that are there.
pub(crate) fn put_all<P: Part>(
    alloc: Global,
    out: &mut Tree,
    name: FieldName,
    all: &[P],
) -> Result<(), AllocError>
    ensures { OnOk result (out.new ≡ out.old ++ all_trees P.prints name all.now) }
{
    for part in all {
        let mut fields = Tree::new(alloc);
        part.put(alloc, &mut fields)?;
        put_message(alloc, out, name, fields)?;
    }
    Ok(())
}
