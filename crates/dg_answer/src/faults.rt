//! The faults among arguments: in order, each once, and the first 64.
ghost use Rattle.std.specs.Prelude.{◌≡◌, ◌++◌, IfOk, OnOk, flat_map, take};
ghost use Rattle.std.specs.List.{list_any};
ghost use Rattle.dg_base.specs.Same.{number_of_code, same_end, same_fault};
ghost use Rattle.dg_base.specs.Value.{faults_of, faults_of_arg, faults_of_args, distinct_faults, max_faults};
ghost use Rattle.dg_answer.specs.Kept.{keep_one, keep_all};

use dg_base::{Answer, ArgVal, Fault, FaultCode, Held};
use std::alloc::{AllocError, Global};

/// So many faults are kept.
pub const MAX_FAULTS: usize = 64;

/// The faults of arguments, in order, the first of equal ones, and no more than `MAX_FAULTS`. In
/// time linear in the faults.
pub fn faults_of_args(alloc: Global, args: &[ArgVal]) -> Result<Vec<Fault>, AllocError>
    ensures { IfOk result (λ v. v.items ≡ take max_faults (distinct_faults (faults_of_args args.now))) }
{
    let mut kept = Vec::new(alloc);
    for arg in args {
        keep_of_arg(&mut kept, arg)?;
    }
    Ok(kept)
}

fn keep_of_arg(kept: &mut Vec<Fault>, arg: &ArgVal) -> Result<(), AllocError>
    ensures { OnOk result (kept.new.items ≡ keep_all kept.old.items (faults_of_arg arg.now)) }
{
    match arg {
        ArgVal::Nil => Ok(()),
        ArgVal::Sub(_) => Ok(()),
        ArgVal::One(answer) => keep_of(kept, answer),
        ArgVal::Many(answers) => keep_of_all(kept, answers.as_slice()),
        ArgVal::Open(_) => Ok(()),
    }
}

fn keep_of_all(kept: &mut Vec<Fault>, answers: &[Held]) -> Result<(), AllocError>
    ensures { OnOk result (kept.new.items ≡ keep_all kept.old.items (flat_map faults_of answers.now)) }
{
    for answer in answers {
        keep_of(kept, answer)?;
    }
    Ok(())
}

fn keep_of(kept: &mut Vec<Fault>, answer: &Held) -> Result<(), AllocError>
    ensures { OnOk result (kept.new.items ≡ keep_all kept.old.items (faults_of answer.now)) }
{
    match answer.answer() {
        Answer::Good(_) => Ok(()),
        Answer::Bad(faults) => keep_all(kept, faults.as_slice()),
        Answer::Cycle => Ok(()),
    }
}

fn keep_all(kept: &mut Vec<Fault>, faults: &[Fault]) -> Result<(), AllocError>
    ensures { OnOk result (kept.new.items ≡ keep_all kept.old.items faults.now) }
{
    for fault in faults {
        keep_one(kept, *fault)?;
    }
    Ok(())
}

fn keep_one(kept: &mut Vec<Fault>, fault: Fault) -> Result<(), AllocError>
    ensures { OnOk result (kept.new.items ≡ keep_one kept.old.items fault) }
{
    if kept.len() < MAX_FAULTS && !is_among(kept, fault) {
        kept.push(fault)?;
    }
    Ok(())
}

fn is_among(faults: &[Fault], fault: Fault) -> bool
    ensures { result ≡ list_any (λ k. same_fault k fault) faults.now }
{
    faults.iter().any(|known| is_same(*known, fault))
}

fn is_same(a: Fault, b: Fault) -> bool
    ensures { result ≡ same_fault a b }
{
    a.at.node.0 == b.at.node.0
        && a.at.label.0 == b.at.label.0
        && number_of_code(a.code) == number_of_code(b.code)
}

fn number_of_code(code: FaultCode) -> u8
    ensures { result ≡ number_of_code code }
{
    match code {
        FaultCode::NoEndpoint => 1,
        FaultCode::Defective => 2,
        FaultCode::Range => 3,
        FaultCode::NoResource => 4,
        FaultCode::DuplicateId => 5,
        FaultCode::PropType => 6,
        FaultCode::BadName => 7,
        FaultCode::TooLong => 8,
    }
}
