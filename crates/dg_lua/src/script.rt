//! A script.
ghost use Rattle.std.specs.Prelude.{◌≡◌, ◌++◌, [], List, map, IfOk, OnOk, Option};
ghost use Rattle.std.specs.List.{slice_split};
ghost use Rattle.dg_lua.specs.declared.declaration.Declaration.{Declaration};
ghost use Rattle.dg_lua.specs.Script.{is_line_feed, declaration_in, in_front, declared_in, first_ones, declarations};

use crate::declaration::Declaration;
use crate::line::declaration_in;
use dg_base::Names;
use std::alloc::{AllocError, Global};

/// What a script declares, line by line, in time linear in the text: on average, as far as looking an id up takes the
/// time of its length.
///
/// A line counts where, behind blanks, it reads `go.property(`, an id in quotes of either sort, a comma, a value and
/// `)`, with blanks between these or none. What stands behind is free. Blanks are spaces and tabs, and between quotes
/// stand no quotes of that sort and no backslash. Values are a decimal, `true` and `false`, `hash(..)`, `msg.url(..)`
/// and `resource.NAME(..)` with a string, which only `hash` has to have, and `vmath.vector3(..)`, `vmath.vector4(..)`
/// and `vmath.quat(..)` with all their decimals or none. Any other line declares nothing, and neither does one whose
/// id an earlier one has.
pub fn declarations(alloc: Global, text: &str) -> Result<Vec<Declaration>, AllocError>
    ensures { IfOk result (λ found. found.items ≡ declarations text.now) }
{
    let lines = lines_of(alloc, text)?;
    first_ones(alloc, lines.as_slice())
}

fn lines_of(alloc: Global, text: &str) -> Result<Vec<&str>, AllocError>
    ensures { IfOk result (λ lines. map (λ l. l.now) lines.items ≡ slice_split is_line_feed text.now) }
{
    text.split('\n').collect(alloc)
}

fn first_ones(alloc: Global, lines: &[&str]) -> Result<Vec<Declaration>, AllocError>
    ensures { IfOk result (λ found. found.items ≡ first_ones [] (declared_in (map (λ l. l.now) lines.now))) }
{
    let mut found = Vec::new(alloc);
    let mut ids = Names::new(alloc);
    for line in lines {
        take(alloc, &mut found, &mut ids, line)?;
    }
    Ok(found)
}

// Takes what a line declares, unless its id is among those that were taken.
fn take(
    alloc: Global,
    found: &mut Vec<Declaration>,
    ids: &mut Names,
    line: &str,
) -> Result<(), AllocError>
    ensures { OnOk result ((more : List Declaration) → found.new.items ++ first_ones ids.new more ≡ found.old.items ++ first_ones ids.old (in_front (declaration_in line.now) more)) }
{
    let Some(one) = declaration_in(alloc, line)? else {
        return Ok(());
    };
    if ids.find(one.id.as_str()).is_some() {
        return Ok(());
    }
    ids.intern(one.id.as_str())?;
    found.push(one)?;
    Ok(())
}
