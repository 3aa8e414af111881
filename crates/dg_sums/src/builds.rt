//! What builds write, and where what they hold stands.
ghost use Rattle.std.specs.Prelude.{◌≡◌, ◌+◌, ◌++◌, ◌+ℤ◌, fold, map, Some, IfOk, OnOk};
ghost use Rattle.std.specs.Option.{option_copied, option_to_list};
ghost use Rattle.dg_kinds_coll.specs.Defold.{defold_tables};
ghost use Rattle.dg_build.specs.Contents.{entries_in};
ghost use Rattle.dg_play.specs.Seen.{line_of, reply_of};
ghost use Rattle.dg_sums.specs.Builds.{along_x, entries_built, files_written, sum_along_x, value_built, values_built};

use dg_asks::Answered;
use dg_base::{Datum, Names};
use dg_build::targets;
use dg_kinds_coll::place_in;
use dg_kinds_go::{field_in, good_in, items_in};
use dg_labels::labels::ENTRIES;
use dg_play::{Line, Reply};
use std::alloc::{AllocError, Global};

/// The values that the lines build, in order. An answer that isn't good builds none.
pub(crate) fn values_built(
    alloc: Global,
    lines: &[Line<Answered>],
) -> Result<Vec<&Datum>, AllocError>
    ensures { IfOk result (λ v. map (λ d. d.now) v.items ≡ values_built defold_tables (map line_of lines.now)) }
{
    let mut all = Vec::new(alloc);
    for line in lines {
        push_built(&mut all, &line.reply)?;
    }
    Ok(all)
}

fn push_built<'a>(all: &mut Vec<&'a Datum>, reply: &'a Reply<Answered>) -> Result<(), AllocError>
    ensures { OnOk result (map (λ d. d.now) all.new.items ≡ map (λ d. d.now) all.old.items ++ option_to_list (value_built defold_tables (reply_of reply.now))) }
{
    match value_built(reply) {
        Some(value) => {
            all.push(value)?;
            Ok(())
        }
        None => Ok(()),
    }
}

fn value_built(reply: &Reply<Answered>) -> Option<&Datum>
    ensures { option_copied result ≡ value_built defold_tables (reply_of reply.now) }
{
    match reply {
        Reply::Builds(answered) => good_in(answered.value().answer()),
        _ => None,
    }
}

/// How many files are written for the values, each file as often as it is written. The files are made, and let go
/// value by value.
pub(crate) fn files_written(
    alloc: Global,
    names: &Names,
    values: &[&Datum],
) -> Result<usize, AllocError>
    ensures { IfOk result (λ n. n ≡ files_written names.now (map (λ d. d.now) values.now)) }
{
    let mut all: usize = 0;
    for value in values {
        let files = targets(alloc, value, names)?;
        all = sum_of(all, files.len())?;
    }
    Ok(all)
}

fn sum_of(all: usize, more: usize) -> Result<usize, AllocError>
    ensures { IfOk result (λ n. n ≡ all + more) }
{
    match all.checked_add(more) {
        Some(sum) => Ok(sum),
        None => Err(AllocError),
    }
}

/// The sum of how far along x the values' entries stand, in billionths.
pub(crate) fn sum_built(values: &[&Datum]) -> Result<i64, AllocError>
    ensures { IfOk result (λ s. s ≡ sum_along_x (entries_built (map (λ d. d.now) values.now))) }
{
    let mut sum = 0;
    for value in values {
        sum = with_entries(sum, entries_in(value))?;
    }
    Ok(sum)
}

// The entries of a collection.
fn entries_in(built: &Datum) -> &[Datum]
    ensures { result.now ≡ entries_in built.now }
{
    items_in(field_in(Some(built), ENTRIES))
}

fn with_entries(before: i64, entries: &[Datum]) -> Result<i64, AllocError>
    ensures { IfOk result (λ s. s ≡ fold (λ sum entry. sum +ℤ along_x entry) before entries.now) }
{
    let mut sum = before;
    for entry in entries {
        sum = with_entry(sum, entry)?;
    }
    Ok(sum)
}

fn with_entry(before: i64, entry: &Datum) -> Result<i64, AllocError>
    ensures { IfOk result (λ s. s ≡ before +ℤ along_x entry.now) }
{
    match dg_decimal::add(before, place_in(Some(entry)).position.x) {
        Ok(sum) => Ok(sum),
        Err(_) => Err(AllocError),
    }
}
