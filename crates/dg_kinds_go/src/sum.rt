//! The sum of numbers. It is added in 128 bits, so it is exact: the terms that would be past them
//! don't fit into memory.
ghost use Rattle.std.specs.Prelude.{◌≡◌, ◌+ℤ◌, IfOk};
ghost use Rattle.dg_base.specs.First.{number_in, number_answered, sum_answered, number_of_arg, sum_of_args, number_made};
ghost use Rattle.dg_kinds_go.specs.Sum.{sum_total};

use dg_base::{Answer, ArgVal, Datum, FaultCode, Held, Made};
use std::alloc::AllocError;

/// `Sum.total`: the sum of all arguments, or Range where it is past 64 bits.
pub fn sum_total(args: &[ArgVal]) -> Result<Made, AllocError>
    ensures { IfOk result (λ m. m ≡ sum_total args.now) }
{
    Ok(number_made(sum_of_args(args)?))
}

fn number_made(sum: i128) -> Made
    ensures { result ≡ number_made sum }
{
    match i64::try_from(sum) {
        Ok(number) => Made::good(Datum::Dec(number)),
        Err(_) => Made::Fault(FaultCode::Range),
    }
}

fn added(sum: i128, more: i128) -> Result<i128, AllocError>
    ensures { IfOk result (λ s. s ≡ sum +ℤ more) }
{
    match sum.checked_add(more) {
        Some(sum) => Ok(sum),
        None => Err(AllocError),
    }
}

fn sum_of_args(args: &[ArgVal]) -> Result<i128, AllocError>
    ensures { IfOk result (λ s. s ≡ sum_of_args args.now) }
{
    let mut sum = 0i128;
    for arg in args {
        sum = added(sum, number_of_arg(arg)?)?;
    }
    Ok(sum)
}

fn number_of_arg(arg: &ArgVal) -> Result<i128, AllocError>
    ensures { IfOk result (λ n. n ≡ number_of_arg arg.now) }
{
    match arg {
        ArgVal::Nil => Ok(0),
        ArgVal::Sub(datum) => Ok(i128::from(number_in(datum))),
        ArgVal::One(held) => Ok(i128::from(number_answered(held.answer()))),
        ArgVal::Many(helds) => sum_answered(helds.as_slice()),
        ArgVal::Open(_) => Ok(0),
    }
}

fn sum_answered(answers: &[Held]) -> Result<i128, AllocError>
    ensures { IfOk result (λ s. s ≡ sum_answered answers.now) }
{
    let mut sum = 0i128;
    for held in answers {
        sum = added(sum, i128::from(number_answered(held.answer())))?;
    }
    Ok(sum)
}

fn number_answered(answer: &Answer) -> i64
    ensures { result ≡ number_answered answer.now }
{
    match answer {
        Answer::Good(datum) => number_in(datum),
        Answer::Bad(_) => 0,
        Answer::Cycle => 0,
    }
}

fn number_in(datum: &Datum) -> i64
    ensures { result ≡ number_in datum.now }
{
    match datum {
        Datum::Dec(number) => *number,
        Datum::Nil | Datum::Flag(_) | Datum::Text(_) | Datum::Vec3(_) | Datum::Quat(_) => 0,
        Datum::Prop(_) | Datum::List(_) | Datum::Rec(_) => 0,
    }
}
