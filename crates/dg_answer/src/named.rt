//! The endpoints that a rule names, in order: its dependencies.
ghost use Rattle.std.specs.Prelude.{◌≡◌, ◌++◌, IfOk, OnOk};
ghost use Rattle.dg_base.specs.Rule.{named_by, named_by_arg, named_by_args};

use dg_base::{ArgRule, Endpoint, Rule};
use std::alloc::{AllocError, Global};

/// The endpoints that a rule names, in order, those of each argument behind those of the ones before.
pub fn named_by(alloc: Global, rule: &Rule) -> Result<Vec<Endpoint>, AllocError>
    ensures { IfOk result (λ v. v.items ≡ named_by rule.now) }
{
    let mut ends = Vec::new(alloc);
    match rule {
        Rule::From(end) => ends.push(*end)?,
        Rule::Call { args, .. } => add_named_by_args(&mut ends, args.as_slice())?,
        _ => {}
    }
    Ok(ends)
}

fn add_named_by_args(ends: &mut Vec<Endpoint>, args: &[ArgRule]) -> Result<(), AllocError>
    ensures { OnOk result (ends.new.items ≡ ends.old.items ++ named_by_args args.now) }
{
    for arg in args {
        add_named_by_arg(ends, arg)?;
    }
    Ok(())
}

fn add_named_by_arg(ends: &mut Vec<Endpoint>, arg: &ArgRule) -> Result<(), AllocError>
    ensures { OnOk result (ends.new.items ≡ ends.old.items ++ named_by_arg arg.now) }
{
    match arg {
        ArgRule::Own(end) => ends.push(*end)?,
        ArgRule::Input { sources, .. } => ends.extend_from_slice(sources.as_slice())?,
        ArgRule::Open(_) => {}
    }
    Ok(())
}
