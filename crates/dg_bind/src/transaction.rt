//! The steps of a transaction, from their words.
ghost use Rattle.std.specs.Prelude.{◌≡◌, ◌++◌, ◌∷◌, [], Ok, IfOk, IfErr, OnOk};
ghost use Rattle.dg_bind.specs.Steps.{steps_bound, with_name, new_name};
ghost use Rattle.dg_bind.specs.Outcome.{IsMissing};

use crate::bindings::Bindings;
use crate::refusal::{MissingAt, at_step};
use crate::scope::Scope;
use crate::steps::{bind_step, new_name};
use dg_base::{Names, Refusal, Step, Str};
use dg_script::StepWords;
use sqlite_items::Items;
use std::alloc::{AllocError, Global};

/// The steps of a transaction, and the names of their new nodes: one for each Make and Override, in
/// order. Contracts see both lists.
#[derive(Debug, Drop)]
pub struct BoundSteps {
    pub steps: Items<Step>,
    pub new_names: Items<Str>,
}

/// The steps of these words, or the first step that names what isn't there. New open names are
/// interned step by step, and those of the steps before such a step stay. More steps than a `u32`
/// counts are answered as want of memory, and after that nothing is said of `names`.
pub fn bind_steps(
    alloc: Global,
    bindings: &Bindings,
    names: &mut Names,
    words: &[StepWords],
) -> Result<BoundSteps, Refusal<MissingAt>>
    ensures steps { IfOk result (λ b. steps_bound bindings.now names.old words.now ≡ Ok (record { steps = b.steps; new_names = b.new_names; names = names.new })) }
    ensures missing { IfErr result (λ r. IsMissing r (steps_bound bindings.now names.old words.now) names.new) }
{
    let mut bound = BoundSteps {
        steps: Items::new(alloc),
        new_names: Items::new(alloc),
    };
    let mut done = 0u32;
    for step in words {
        let Some(number) = done.checked_add(1) else {
            return Err(Refusal::NoMemory);
        };
        let scope = Scope {
            bindings,
            new_names: bound.new_names.as_slice(),
        };
        match bind_step(alloc, &scope, names, step) {
            Ok(taken) => {
                bound.steps.push(taken)?;
                add_name(&mut bound.new_names, step)?;
            }
            Err(refusal) => return Err(at_step(number, refusal)),
        }
        done = number;
    }
    Ok(bound)
}

// Puts the name of the step's new node behind the others.
fn add_name(new_names: &mut Items<Str>, words: &StepWords) -> Result<(), AllocError>
    ensures { OnOk result (new_names.new ≡ with_name new_names.old (new_name words.now)) }
{
    if let Some(name) = new_name(words) {
        new_names.push(name.copy()?)?;
    }
    Ok(())
}
