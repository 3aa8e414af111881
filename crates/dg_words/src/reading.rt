//! Reading the words of a command line.
ghost use Rattle.std.specs.Prelude.{◌≡◌, map, string_bytes};
ghost use Rattle.dg_base.specs.Refusal.{Gives};
ghost use Rattle.dg_words.specs.Texts.{seen};
ghost use Rattle.dg_words.specs.Tasks.{run_of, build_of, gen_of, format_of, run_in, check_in, build_in, gen_in, format_in, task_in};

use crate::numbers::{number_of, option_of};
use crate::paths::{built_path_of, formatted_path_of, path_of};
use crate::task::{Task, Usage};
use crate::texts::{Texts, build_texts, check_texts, format_texts, gen_texts, run_texts};
use dg_base::Refusal;
use std::alloc::Global;

/// The number of workers where the words have none, and the most.
const WORKERS: u32 = 4;

const MOST_WORKERS: u32 = 16;

/// How many answers the cache holds where the words do not say it, and the most.
const CACHE: u32 = 4_096;

const MOST_CACHE: u32 = 1_000_000;

/// The greatest size of a project that is made.
const MOST_SIZE: u64 = 64;

fn run_of(alloc: Global, texts: &Texts<'_>) -> Result<Task, Refusal<Usage>>
    ensures { Gives (λ t. t) result (run_of (seen texts.now)) }
{
    let script = path_of(alloc, texts.first)?;
    let workers = option_of(texts.workers, WORKERS, 0, MOST_WORKERS)?;
    let cache = option_of(texts.cache, CACHE, 1, MOST_CACHE)?;
    if texts.stats && workers != 0 {
        return Err(Refusal::Because(Usage));
    }
    Ok(Task::Run {
        script,
        workers,
        cache,
        stats: texts.stats,
    })
}

fn build_of(alloc: Global, texts: &Texts<'_>) -> Result<Task, Refusal<Usage>>
    ensures { Gives (λ t. t) result (build_of (seen texts.now)) }
{
    let path = built_path_of(alloc, texts.first)?;
    let workers = option_of(texts.workers, WORKERS, 0, MOST_WORKERS)?;
    Ok(Task::Build { path, workers })
}

fn gen_of(texts: &Texts<'_>) -> Result<Task, Refusal<Usage>>
    ensures { Gives (λ t. t) result (gen_of (seen texts.now)) }
{
    let seed = number_of(texts.first, 0, u64::MAX)?;
    let size = number_of(texts.second, 1, MOST_SIZE)?;
    let workers = option_of(texts.workers, WORKERS, 0, MOST_WORKERS)?;
    let cache = option_of(texts.cache, CACHE, 1, MOST_CACHE)?;
    Ok(Task::Gen {
        seed,
        size: size as u32,
        workers,
        cache,
    })
}

fn format_of(alloc: Global, texts: &Texts<'_>) -> Result<Task, Refusal<Usage>>
    ensures { Gives (λ t. t) result (format_of (seen texts.now)) }
{
    let path = formatted_path_of(alloc, texts.first)?;
    Ok(Task::Format { path })
}

fn read_run(alloc: Global, words: &[String]) -> Result<Task, Refusal<Usage>>
    ensures { Gives (λ t. t) result (run_in (map string_bytes words.now)) }
{
    match run_texts(alloc, words) {
        Ok(texts) => run_of(alloc, &texts),
        Err(refusal) => Err(refusal),
    }
}

fn read_check(alloc: Global, words: &[String]) -> Result<Task, Refusal<Usage>>
    ensures { Gives (λ t. t) result (check_in (map string_bytes words.now)) }
{
    match check_texts(alloc, words) {
        Ok(_) => Ok(Task::Check),
        Err(refusal) => Err(refusal),
    }
}

fn read_build(alloc: Global, words: &[String]) -> Result<Task, Refusal<Usage>>
    ensures { Gives (λ t. t) result (build_in (map string_bytes words.now)) }
{
    match build_texts(alloc, words) {
        Ok(texts) => build_of(alloc, &texts),
        Err(refusal) => Err(refusal),
    }
}

fn read_gen(alloc: Global, words: &[String]) -> Result<Task, Refusal<Usage>>
    ensures { Gives (λ t. t) result (gen_in (map string_bytes words.now)) }
{
    match gen_texts(alloc, words) {
        Ok(texts) => gen_of(&texts),
        Err(refusal) => Err(refusal),
    }
}

fn read_format(alloc: Global, words: &[String]) -> Result<Task, Refusal<Usage>>
    ensures { Gives (λ t. t) result (format_in (map string_bytes words.now)) }
{
    match format_texts(alloc, words) {
        Ok(texts) => format_of(alloc, &texts),
        Err(refusal) => Err(refusal),
    }
}

/// The task that the words say, which are those behind the program's name; [`Usage`] for words that are not in
/// the grammar, and for no others. The time is linear in the words.
pub fn read_words(alloc: Global, words: &[String]) -> Result<Task, Refusal<Usage>>
    ensures { Gives (λ t. t) result (task_in (map string_bytes words.now)) }
{
    let Some((task, words)) = words.split_first() else {
        return Err(Refusal::Because(Usage));
    };
    match task.as_str() {
        "run" => read_run(alloc, words),
        "check" => read_check(alloc, words),
        "build" => read_build(alloc, words),
        "gen" => read_gen(alloc, words),
        "format" => read_format(alloc, words),
        _ => Err(Refusal::Because(Usage)),
    }
}
