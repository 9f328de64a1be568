//! What the options of a command say.

ghost use Rattle.std.specs.Prelude.{◌≡◌, ◌≤◌, IfOk, map, option_map, codes};
ghost use Rattle.clap.specs.Words.{first_of, found_of, rows_of};
ghost use Rattle.racp_words.specs.Batches.{words_at};
ghost use Rattle.racp_words.specs.Tools.{AreDates};
ghost use Rattle.racp_words.specs.Rules.{IsCrew, IsNumberOf, IsWorkerCount, is_set, path_at};

use crate::most::{MOST_MEBIBYTES, MOST_TURNS, MOST_WORKERS};
use crate::request::{CrewOptions, Dates, Memory};
use clap::ArgMatches;
use std::alloc::{AllocError, Global};

/// How many mebibytes records are given if no option says so.
const DEFAULT_MEBIBYTES: u64 = 1024;

/// The path that a word gives.
pub(crate) fn path_of<'a>(words: &ArgMatches<'a>, id: &str) -> &'a str
    ensures { result.now ≡ path_at id.now (rows_of (found_of words.now)) }
{
    match words.get_str(id) {
        Some(path) => path,
        None => "",
    }
}

/// The paths that words give, in their order.
pub(crate) fn paths_of<'a>(
    alloc: Global,
    words: &ArgMatches<'a>,
    id: &str,
) -> Result<Vec<&'a str>, AllocError>
    ensures { IfOk result (λ paths. map (λ path. path.now) paths.items ≡ words_at id.now (rows_of (found_of words.now))) }
{
    match words.get_strs(id) {
        Some(paths) => {
            let paths = paths.to_vec(alloc)?;
            Ok(paths)
        }
        None => Ok(Vec::new(alloc)),
    }
}

/// How much memory records may take.
pub(crate) fn memory_of(words: &ArgMatches<'_>) -> Memory
    ensures { IsNumberOf 1048576 1024 (first_of (codes "memory") (rows_of (found_of words.now))) result.mebibytes }
{
    let word = text_of(words, "memory");
    Memory {
        mebibytes: number_of(word, MOST_MEBIBYTES, DEFAULT_MEBIBYTES) as usize,
    }
}

/// How workers are to make the plan, or the plans of a curve, if an option says so.
pub(crate) fn crew_of<'a>(words: &ArgMatches<'a>) -> Option<CrewOptions<'a>>
    ensures { IsCrew (rows_of (found_of words.now)) result }
{
    let workers = text_of(words, "workers");
    let turns = text_of(words, "turns");
    let stats = is_set(words, "stats");
    let limit = text_of(words, "time-limit");
    let progress = is_set(words, "progress");
    let best = text_of(words, "best");
    let is_silent = !stats && !progress && best.is_none();
    if workers.is_none() && turns.is_none() && limit.is_none() && is_silent {
        return None;
    }
    Some(CrewOptions {
        workers: worker_count(workers),
        turns: number_of(turns, MOST_TURNS, MOST_TURNS),
        time_limit: limit,
        stats,
        progress,
        best,
    })
}

/// How many workers the word of their option asks for; 0 stands for as many as there are processors. The option's rule
/// refuses words that are no numbers from 0 to 64.
pub(crate) fn worker_count(word: Option<&str>) -> usize
    ensures number { IsWorkerCount (option_map (λ word. word.now) word.entry) result }
    ensures few { result ≤ 64 }
{
    match word {
        Some(word) => word.parse().unwrap_or(1u64).min(MOST_WORKERS) as usize,
        None => 1,
    }
}

/// The word of an option.
pub(crate) fn text_of<'a>(words: &ArgMatches<'a>, id: &str) -> Option<&'a str>
    ensures { option_map (λ word. word.now) result ≡ first_of id.now (rows_of (found_of words.now)) }
{
    words.get_str(id)
}

/// Whether a flag is given.
pub(crate) fn is_set(words: &ArgMatches<'_>, id: &str) -> bool
    ensures { result ≡ is_set id.now (rows_of (found_of words.now)) }
{
    match text_of(words, id) {
        Some(word) => word == "true",
        None => false,
    }
}

/// The number that the word of an option writes, at most `most`; `otherwise` without a word. The option's rule refuses
/// words that are no numbers from 1 to `most`.
pub(crate) fn number_of(word: Option<&str>, most: u64, otherwise: u64) -> u64
    requires some { 1 ≤ otherwise }
    requires few { otherwise ≤ most }
    ensures number { IsNumberOf most otherwise (option_map (λ word. word.now) word.entry) result }
    ensures some { 1 ≤ result }
    ensures few { result ≤ most }
{
    match word {
        Some(word) => word.parse().unwrap_or(otherwise).clamp(1, most),
        None => otherwise,
    }
}

/// How times are to be told.
pub(crate) fn dates_of<'a>(words: &ArgMatches<'a>) -> Dates<'a>
    ensures { AreDates (rows_of (found_of words.now)) result }
{
    Dates {
        calendar: text_of(words, "calendar"),
        start: text_of(words, "start-date"),
        workdays: text_of(words, "workdays"),
        unit: text_of(words, "unit"),
    }
}
