//! A line.
ghost use Rattle.std.specs.Prelude.{◌≡◌, IfOk, option_map};
ghost use Rattle.dg_lua.specs.Parts.{taken};
ghost use Rattle.dg_lua.specs.Script.{id_in, declaration_in};

use crate::declaration::Declaration;
use crate::parts::{behind, behind_blanks, behind_bracket, string_in};
use crate::values::{Value, value_in};
use dg_base::Str;
use std::alloc::{AllocError, Global};

// The id of a declaration, and what stands behind the comma and its blanks.
fn id_in(line: &str) -> Option<(&str, &str)>
    ensures { option_map (λ p. taken p.0.now p.1.now) result ≡ id_in line.now }
{
    let rest = behind("go.property(", behind_blanks(line))?;
    let (id, rest) = string_in(behind_blanks(rest))?;
    let rest = behind(",", behind_blanks(rest))?;
    Some((id, behind_blanks(rest)))
}

/// What a line declares, in time linear in the line.
pub(crate) fn declaration_in(alloc: Global, line: &str) -> Result<Option<Declaration>, AllocError>
    ensures { IfOk result (λ found. found ≡ declaration_in line.now) }
{
    let Some((id, rest)) = id_in(line) else {
        return Ok(None);
    };
    let value = match value_in(alloc, rest) {
        Ok(Some(value)) => value,
        Ok(None) => return Ok(None),
        Err(refused) => return Err(refused),
    };
    let Value { ptype, text, rest } = value;
    if behind_bracket(rest).is_none() {
        return Ok(None);
    }
    Ok(Some(Declaration {
        id: Str::of(String::from_str(alloc, id)?),
        ptype,
        text,
    }))
}
