//! The command of each task, as `clap` reads it.
ghost use Rattle.std.specs.Prelude.{◌≡◌, IfOk, false};
ghost use Rattle.clap.specs.Walk.{rule_of};
ghost use Rattle.clap.specs.Simple.{app_of, with_rule};
ghost use Rattle.dg_words.specs.Commands.{place_rule, option_rule, flag_rule, bare_app, run_app, check_app, build_app, gen_app, format_app};

use clap::{Arg, ArgAction, Command};
use std::alloc::{AllocError, Global};

/// A command without arguments, and without the options for help and version that `clap` adds.
fn bare<'a>(alloc: Global, name: &'a str) -> Command<'a>
    ensures { app_of result ≡ bare_app name.now }
{
    Command::new(alloc, name)
        .no_binary_name(true)
        .disable_help_flag(true)
        .disable_version_flag(true)
}

/// A word that has to stand at its place.
fn place<'a>(alloc: Global, name: &'a str) -> Arg<'a>
    ensures rule { rule_of result ≡ place_rule name.now }
    ensures local { result.global ≡ false }
{
    Arg::new(alloc, name).required(true).action(ArgAction::Set)
}

/// An option with a value.
fn option<'a>(alloc: Global, name: &'a str) -> Arg<'a>
    ensures rule { rule_of result ≡ option_rule name.now }
    ensures local { result.global ≡ false }
{
    Arg::new(alloc, name).long(name).action(ArgAction::Set)
}

/// An option without a value.
fn flag<'a>(alloc: Global, name: &'a str) -> Arg<'a>
    ensures rule { rule_of result ≡ flag_rule name.now }
    ensures local { result.global ≡ false }
{
    Arg::new(alloc, name).long(name).action(ArgAction::SetTrue)
}

fn with<'a>(command: Command<'a>, arg: Arg<'a>) -> Result<Command<'a>, AllocError>
    requires { arg.global ≡ false }
    ensures { IfOk result (λ c. app_of c ≡ with_rule (app_of command.entry) (rule_of arg.entry)) }
{
    command.arg(arg)
}

/// `run SCRIPT [--workers N] [--cache N] [--stats]`
pub(crate) fn run_command<'a>(alloc: Global) -> Result<Command<'a>, AllocError>
    ensures { IfOk result (λ c. app_of c ≡ run_app) }
{
    let placed = with(bare(alloc, "run"), place(alloc, "first"))?;
    let working = with(placed, option(alloc, "workers"))?;
    let caching = with(working, option(alloc, "cache"))?;
    with(caching, flag(alloc, "stats"))
}

/// `check`
pub(crate) fn check_command<'a>(alloc: Global) -> Command<'a>
    ensures { app_of result ≡ check_app }
{
    bare(alloc, "check")
}

/// `build PATH [--workers N]`
pub(crate) fn build_command<'a>(alloc: Global) -> Result<Command<'a>, AllocError>
    ensures { IfOk result (λ c. app_of c ≡ build_app) }
{
    let placed = with(bare(alloc, "build"), place(alloc, "first"))?;
    with(placed, option(alloc, "workers"))
}

/// `gen SEED SIZE [--workers N] [--cache N]`
pub(crate) fn gen_command<'a>(alloc: Global) -> Result<Command<'a>, AllocError>
    ensures { IfOk result (λ c. app_of c ≡ gen_app) }
{
    let placed = with(bare(alloc, "gen"), place(alloc, "first"))?;
    let both = with(placed, place(alloc, "second"))?;
    let working = with(both, option(alloc, "workers"))?;
    with(working, option(alloc, "cache"))
}

/// `format PATH`
pub(crate) fn format_command<'a>(alloc: Global) -> Result<Command<'a>, AllocError>
    ensures { IfOk result (λ c. app_of c ≡ format_app) }
{
    with(bare(alloc, "format"), place(alloc, "first"))
}
