//! What the words behind the task's give.
ghost use Rattle.std.specs.Prelude.{◌≡◌, map, string_bytes, true};
ghost use Rattle.clap.specs.Walk.{first_of, rows_of};
ghost use Rattle.clap.specs.Simple.{app_of};
ghost use Rattle.clap.specs.Matches.{found_of};
ghost use Rattle.clap.specs.Faults.{is_simple_and_free};
ghost use Rattle.clap.specs.Values.{kind_of};
ghost use Rattle.dg_base.specs.Refusal.{Gives};
ghost use Rattle.dg_words.specs.Grammar.{is_short, has_short, run_form, check_form, build_form, gen_form, format_form};
ghost use Rattle.dg_words.specs.Texts.{is_flagged, given_by, seen};
ghost use Rattle.dg_words.specs.Commands.{found_in, parsed_by, refusal_by};

use crate::commands::{build_command, check_command, format_command, gen_command, run_command};
use crate::task::Usage;
use clap::error::ErrorKind;
use clap::{ArgMatches, Command, Error};
use dg_base::Refusal;
use std::alloc::Global;

/// The texts that the words of a task give: those at the first and the second place, and those of the
/// options.
#[derive(Drop)]
pub(crate) struct Texts<'a> {
    pub(crate) first: Option<&'a str>,
    pub(crate) second: Option<&'a str>,
    pub(crate) workers: Option<&'a str>,
    pub(crate) cache: Option<&'a str>,
    pub(crate) stats: bool,
}

/// Whether a word begins with one minus alone.
fn is_short(word: &[u8]) -> bool
    ensures { result ≡ is_short word.now }
{
    match word {
        [b'-', b'-', ..] => false,
        [b'-', ..] => true,
        _ => false,
    }
}

/// Whether a word before the first `--` begins with one minus alone.
fn has_short(words: &[String]) -> bool
    ensures { result ≡ has_short (map string_bytes words.now) }
{
    for word in words {
        if word.as_str() == "--" {
            return false;
        }
        if is_short(word.as_str().as_bytes()) {
            return true;
        }
    }
    false
}

/// Whether a flag is given: `clap` gives it the text `true` then, and else `false`.
fn is_flagged(matches: &ArgMatches<'_>, name: &str) -> bool
    ensures { result ≡ is_flagged (first_of name.now (rows_of (found_of matches.now))) }
{
    match matches.get_str(name) {
        Some(text) => text == "true",
        None => false,
    }
}

/// The texts of what was found.
fn texts_of<'a>(matches: &ArgMatches<'a>) -> Texts<'a>
    ensures { seen result ≡ found_in (rows_of (found_of matches.now)) }
{
    Texts {
        first: matches.get_str("first"),
        second: matches.get_str("second"),
        workers: matches.get_str("workers"),
        cache: matches.get_str("cache"),
        stats: is_flagged(matches, "stats"),
    }
}

fn refusal_of(error: &Error) -> Refusal<Usage>
    ensures { result ≡ refusal_by (kind_of error.now) }
{
    match error.kind() {
        ErrorKind::OutOfMemory => Refusal::NoMemory,
        _ => Refusal::Because(Usage),
    }
}

// What the words give that the command takes.
fn read_texts<'a>(command: Command<'a>, words: &'a [String]) -> Result<Texts<'a>, Refusal<Usage>>
    requires { is_simple_and_free (app_of command) ≡ true }
    ensures { Gives seen result (parsed_by (app_of command.entry) (map string_bytes words.now)) }
{
    if has_short(words) {
        return Err(Refusal::Because(Usage));
    }
    match command.try_get_matches_from(words) {
        Ok(matches) => Ok(texts_of(&matches)),
        Err(error) => Err(refusal_of(&error)),
    }
}

/// What the words of `run` give.
pub(crate) fn run_texts(alloc: Global, words: &[String]) -> Result<Texts<'_>, Refusal<Usage>>
    ensures { Gives seen result (given_by run_form (map string_bytes words.now)) }
{
    let command = run_command(alloc)?;
    read_texts(command, words)
}

/// What the words of `check` give.
pub(crate) fn check_texts(alloc: Global, words: &[String]) -> Result<Texts<'_>, Refusal<Usage>>
    ensures { Gives seen result (given_by check_form (map string_bytes words.now)) }
{
    read_texts(check_command(alloc), words)
}

/// What the words of `build` give.
pub(crate) fn build_texts(alloc: Global, words: &[String]) -> Result<Texts<'_>, Refusal<Usage>>
    ensures { Gives seen result (given_by build_form (map string_bytes words.now)) }
{
    let command = build_command(alloc)?;
    read_texts(command, words)
}

/// What the words of `gen` give.
pub(crate) fn gen_texts(alloc: Global, words: &[String]) -> Result<Texts<'_>, Refusal<Usage>>
    ensures { Gives seen result (given_by gen_form (map string_bytes words.now)) }
{
    let command = gen_command(alloc)?;
    read_texts(command, words)
}

/// What the words of `format` give.
pub(crate) fn format_texts(alloc: Global, words: &[String]) -> Result<Texts<'_>, Refusal<Usage>>
    ensures { Gives seen result (given_by format_form (map string_bytes words.now)) }
{
    let command = format_command(alloc)?;
    read_texts(command, words)
}
