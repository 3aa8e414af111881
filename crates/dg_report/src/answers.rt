//! The text of an answer.
ghost use Rattle.std.specs.Prelude.{◌≡◌, ◌++◌, IfOk, OnOk};
ghost use Rattle.dg_report.specs.Parts.{joined};
ghost use Rattle.dg_report.specs.Text.{fault_text, answer_text};

use crate::parts::{code_text, put_endpoint};
use crate::values::put_value;
use dg_base::{Answer, Fault, Names};
use std::alloc::{AllocError, Global};

/// What is printed of an answer: `cycle`, `fault ` and the faults in their order, or the value. It
/// takes time linear in the text, beside the lookups of interned names, and recursion as deep as
/// lists and records lie in one another.
pub fn answer_text(alloc: Global, answer: &Answer, names: &Names) -> Result<Vec<u8>, AllocError>
    ensures { IfOk result (λ b. b.items ≡ answer_text answer.now names.now) }
{
    let mut out = Vec::new(alloc);
    put_answer(&mut out, answer, names)?;
    Ok(out)
}

/// The same, put behind what is there.
pub fn put_answer(out: &mut Vec<u8>, answer: &Answer, names: &Names) -> Result<(), AllocError>
    ensures { OnOk result (out.new.items ≡ out.old.items ++ answer_text answer.now names.now) }
{
    match answer {
        Answer::Good(value) => put_value(out, value, names),
        Answer::Bad(faults) => {
            out.extend_from_slice(b"fault ")?;
            put_faults(out, faults.as_slice(), names)
        }
        Answer::Cycle => out.extend_from_slice(b"cycle"),
    }
}

fn put_faults(out: &mut Vec<u8>, faults: &[Fault], names: &Names) -> Result<(), AllocError>
    ensures { OnOk result (out.new.items ≡ out.old.items ++ joined (fault_text names.now) faults.now) }
{
    if let Some((first, rest)) = faults.split_first() {
        put_fault(out, *first, names)?;
        for fault in rest {
            out.extend_from_slice(b", ")?;
            put_fault(out, *fault, names)?;
        }
    }
    Ok(())
}

/// The endpoint, a blank and the code.
fn put_fault(out: &mut Vec<u8>, fault: Fault, names: &Names) -> Result<(), AllocError>
    ensures { OnOk result (out.new.items ≡ out.old.items ++ fault_text names.now fault) }
{
    put_endpoint(out, fault.at, names)?;
    out.push(b' ')?;
    out.extend_from_slice(code_text(fault.code).as_bytes())
}
