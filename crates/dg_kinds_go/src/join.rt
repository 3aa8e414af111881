//! Texts joined by a glue.
ghost use Rattle.std.specs.Prelude.{◌≡◌, ◌++◌, map, string_bytes, IfOk, OnOk};
ghost use Rattle.dg_kinds_go.specs.Values.{good_in, text_in};
ghost use Rattle.dg_kinds_go.specs.Join.{each_after, glued, join_joined};

use crate::values::{answers_at, good_in, text_in, value_at};
use dg_base::{ArgVal, Datum, Held, Made, Str};
use std::alloc::{AllocError, Global};

/// `Join.joined`: the parts in order with the glue between two, in time linear in the text.
pub fn join_joined(alloc: Global, args: &[ArgVal]) -> Result<Made, AllocError>
    ensures { IfOk result (λ m. m ≡ join_joined args.now) }
{
    let glue = text_in(value_at(args, 1));
    let text = glued(alloc, glue, answers_at(args, 0))?;
    Ok(Made::good(Datum::Text(Str::of(text))))
}

fn glued(alloc: Global, glue: &str, parts: &[Held]) -> Result<String, AllocError>
    ensures { IfOk result (λ t. string_bytes t ≡ glued glue.now (map text_in (map good_in parts.now))) }
{
    let mut text = String::new(alloc);
    if let [first, rest @ ..] = parts {
        text.push_str(text_of(first))?;
        push_each(&mut text, glue, rest)?;
    }
    Ok(text)
}

// Each part with the glue before it.
fn push_each(text: &mut String, glue: &str, parts: &[Held]) -> Result<(), AllocError>
    ensures { OnOk result (string_bytes text.new ≡ string_bytes text.old ++ each_after glue.now (map text_in (map good_in parts.now))) }
{
    for part in parts {
        text.push_str(glue)?;
        text.push_str(text_of(part))?;
    }
    Ok(())
}

fn text_of(part: &Held) -> &str
    ensures { result.now ≡ text_in (good_in part.now) }
{
    text_in(good_in(part.answer()))
}
