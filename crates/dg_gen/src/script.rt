//! The script of a project.
ghost use Rattle.std.specs.Prelude.{◌≡◌, ◌≤◌, ◌<◌, ◌++◌, string_bytes, flat_map, IfOk, OnOk};
ghost use Rattle.std.specs.List.{range_with_len};
ghost use Rattle.dg_gen.specs.Script.{move_line, pin_line, speed_line, pinned_line, undone_lines, build_line, round_lines, round_of, script_of};

use crate::draws::draw_at;
use std::alloc::{AllocError, Global};

/// The script: as many rounds as the size is, and a build.
pub(crate) fn script_of(alloc: Global, draws: &[u32], size: u32) -> Result<Vec<u8>, AllocError>
    requires { 1 ≤ size }
    ensures { IfOk result (λ v. v.items ≡ script_of draws.now size) }
{
    let mut out = Vec::new(alloc);
    put_rounds(alloc, &mut out, draws, size)?;
    out.extend_from_slice(build_line(alloc, size - 1)?.as_bytes())?;
    Ok(out)
}

fn put_rounds(alloc: Global, out: &mut Vec<u8>, draws: &[u32], size: u32) -> Result<(), AllocError>
    ensures { OnOk result (out.new.items ≡ out.old.items ++ flat_map (round_of draws.now size) (range_with_len 0 size)) }
{
    for round in 0..size {
        put_round(alloc, out, draws, size, round)?;
    }
    Ok(())
}

fn put_round(
    alloc: Global,
    out: &mut Vec<u8>,
    draws: &[u32],
    size: u32,
    round: u32,
) -> Result<(), AllocError>
    requires { round < size }
    ensures { OnOk result (out.new.items ≡ out.old.items ++ round_of draws.now size round) }
{
    let place = 3 * size as usize - 1 + 2 * round as usize;
    let x = draw_at(draws, place);
    let speed = draw_at(draws, place + 1);
    put_round_lines(alloc, out, size - 1, round, x, speed)
}

fn put_round_lines(
    alloc: Global,
    out: &mut Vec<u8>,
    last: u32,
    round: u32,
    x: u32,
    speed: u32,
) -> Result<(), AllocError>
    ensures { OnOk result (out.new.items ≡ out.old.items ++ round_lines last round x speed) }
{
    out.extend_from_slice(move_line(alloc, round, x)?.as_bytes())?;
    out.extend_from_slice(pin_line(alloc, round)?.as_bytes())?;
    out.extend_from_slice(speed_line(alloc, round, speed)?.as_bytes())?;
    out.extend_from_slice(pinned_line(alloc, round, last)?.as_bytes())?;
    out.extend_from_slice(undone_lines(alloc, last)?.as_bytes())
}

fn move_line(alloc: Global, round: u32, x: u32) -> Result<String, AllocError>
    ensures { IfOk result (λ s. string_bytes s ≡ move_line round x) }
{
    format!(in alloc; "set /g/c{round}.collection#a.position vec3 {x} 0 0\n")
}

fn pin_line(alloc: Global, round: u32) -> Result<String, AllocError>
    ensures { IfOk result (λ s. string_bytes s ≡ pin_line round) }
{
    format!(in alloc; "pin p{round}\n")
}

fn speed_line(alloc: Global, round: u32, speed: u32) -> Result<String, AllocError>
    ensures { IfOk result (λ s. string_bytes s ≡ speed_line round speed) }
{
    format!(in alloc; "set /g/o{round}.go#s:speed number \"{speed}\"\n")
}

fn pinned_line(alloc: Global, round: u32, last: u32) -> Result<String, AllocError>
    ensures { IfOk result (λ s. string_bytes s ≡ pinned_line round last) }
{
    format!(in alloc; "ask p{round} /g/c{last}.collection.flat\n")
}

fn undone_lines(alloc: Global, last: u32) -> Result<String, AllocError>
    ensures { IfOk result (λ s. string_bytes s ≡ undone_lines last) }
{
    format!(in alloc; "undo\nask now /g/c{last}.collection.flat\nredo\n")
}

fn build_line(alloc: Global, last: u32) -> Result<String, AllocError>
    ensures { IfOk result (λ s. string_bytes s ≡ build_line last) }
{
    format!(in alloc; "build /g/c{last}.collection\n")
}
