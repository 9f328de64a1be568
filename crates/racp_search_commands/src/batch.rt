//! `batch`: runs it.

ghost use Rattle.std.specs.Prelude.{◌≤◌, IfOk};
ghost use Rattle.racp_search_commands.specs.Statuses.{IsStatusBy, IsStatusOfTable, IsStatusOfSearch};

use crate::gathering::gathered;
use crate::keeping::{Keeping, Lack, name_of};
use racp_batch::{Batch, BatchFault, Case, Ending, File, Multiple, Planning, cases, table_over};
use racp_calendar::Calendar;
use racp_cli::{DONE, OUT_OF_MEMORY, STOPPED, STREAM_FAILED, StreamFault};
use racp_host::answer::Answer;
use racp_host::asks::Asks;
use racp_host::bar::Bar;
use racp_host::failure::{Failure, OptionFault};
use racp_host::inputs::told;
use racp_host::machine::Crewed;
use racp_host::making::worker_count;
use racp_host::seconds::time_limit;
use racp_host::telling::Manner;
use racp_model::limits::MOST_PRICE;
use racp_prices::Factor;
use racp_words::{BatchWords, Memory};
use std::alloc::{AllocError, Global};
use std::fs;
use std::rt::Files;
use std::time::{Clock, Duration};

/// How the rows of a table are made and told, and where their plans are kept.
#[derive(Clone, Copy)]
struct Manufacture<'a> {
    /// The price of a unit of each resource.
    price: u32,
    /// After what time the planning of a row stops, if it does.
    limit: Option<Duration>,
    /// How much memory the records of a plan take.
    memory: Memory,
    /// How many rows are planned at a time, or 0 for one for each processor.
    jobs: usize,
    /// The folder in which plans are kept, if they are.
    folder: Option<&'a str>,
    /// How deadlines are told.
    calendar: Calendar<'a>,
    ghost price_few: { price ≤ 1000000 },
    ghost jobs_few: { jobs ≤ 64 },
}

/// Writes the table that the words ask for, with the days of a calendar.
pub fn run<R: Crewed>(
    rt: &R,
    words: &BatchWords<'_>,
    memory: Memory,
    manner: Manner,
    calendar: Calendar<'_>,
) -> Result<u8, Failure>
    ensures { IfOk result IsStatusOfSearch }
{
    let making = Manufacture {
        price: price_of(words.price)?,
        limit: time_limit(words.limit)?,
        memory,
        jobs: words.jobs,
        folder: words.out,
        calendar,
    };
    let multiples = multiples_of(rt.alloc(), words.factors)?;
    prepare(rt, making.folder, &words.nets)?;
    let files = gathered(rt, &words.nets, manner)?;
    table_of(rt, &files, &multiples, making, manner)
}

/// The price that a word writes; 1 without a word.
fn price_of(word: Option<&str>) -> Result<u32, OptionFault>
    ensures { IfOk result (λ price. price ≤ 1000000) }
{
    let Some(word) = word else {
        return Ok(1);
    };
    match word.parse::<u32>() {
        Ok(price) if price <= MOST_PRICE => Ok(price),
        _ => Err(OptionFault::Price),
    }
}

/// The factors that a word lists.
fn multiples_of<'a>(alloc: Global, words: &'a str) -> Result<Vec<Multiple<'a>>, Failure> {
    let mut multiples = Vec::new(alloc);
    for word in words.split(',') {
        let Some(factor) = Factor::read(word) else {
            return Err(Failure::Option(OptionFault::Factors));
        };
        add(&mut multiples, word, factor)?;
    }
    Ok(multiples)
}

/// Adds a factor.
fn add<'a>(
    multiples: &mut Vec<Multiple<'a>>,
    word: &'a str,
    factor: Factor,
) -> Result<(), AllocError> {
    match multiples.push(Multiple { word, factor }) {
        Ok(()) => Ok(()),
        Err(_) => Err(AllocError),
    }
}

/// Makes the folder in which plans are kept, if it is not there. No two networks may have their plans in the same files.
fn prepare<R: Files + AllocGlobal>(
    rt: &R,
    folder: Option<&str>,
    nets: &[&str],
) -> Result<(), Failure> {
    let Some(folder) = folder else {
        return Ok(());
    };
    if share_a_name(nets) {
        return Err(Failure::Option(OptionFault::SameName));
    }
    match fs::create_dir_all(rt, folder) {
        Ok(()) => Ok(()),
        Err(error) => Err(told(rt.alloc(), StreamFault::Write, folder, &error)),
    }
}

/// Whether plans of two of these networks would be kept in the same files.
fn share_a_name(nets: &[&str]) -> bool {
    nets.iter().enumerate().any(|(k, net)| nets
        .iter()
        .take(k)
        .any(|other| name_of(other) == name_of(net)))
}

/// Writes the table of these files with these factors.
fn table_of<R: Crewed>(
    rt: &R,
    files: &[File<'_>],
    multiples: &[Multiple<'_>],
    making: Manufacture<'_>,
    manner: Manner,
) -> Result<u8, Failure>
    ensures { IfOk result IsStatusOfSearch }
{
    let cases = cases(rt.alloc(), files, multiples, making.price)?;
    table_written(rt, &cases, making, bar_of(rt, manner, cases.len()))
}

/// What shows how many of so many rows are done: on a terminal that shows no rows, if something is to be told there.
fn bar_of<C: Clock>(clock: &C, manner: Manner, rows: usize) -> Option<Bar> {
    if manner.on_terminal && !manner.shows_answer && !manner.is_quiet() {
        Some(Bar::of(clock, rows))
    } else {
        None
    }
}

/// Writes the table of these cases, and shows there how far it is, or nowhere.
fn table_written<R: Crewed>(
    rt: &R,
    cases: &[Case<'_>],
    making: Manufacture<'_>,
    bar: Option<Bar>,
) -> Result<u8, Failure>
    ensures { IfOk result IsStatusOfSearch }
{
    let batch = Batch {
        alloc: rt.alloc(),
        cases,
        calendar: making.calendar,
        jobs: worker_count(rt, making.jobs),
    };
    let planning = Planning {
        alloc: rt.alloc(),
        memory: making.memory.mebibytes,
        limit: making.limit,
    };
    let keeping = Keeping::of(rt, making.folder, Asks::of(rt), bar);
    let (out, ending) = table_over(rt, &batch, &planning, &keeping, Answer::to(rt));
    let lack = keeping.lack();
    // Dropped here once, not at each way out.
    drop(keeping);
    status_of(&out, ending, lack)
}

/// The status of a table that was written there and ended so, of which rows may have lacked something.
fn status_of<R: Print>(
    out: &Answer<'_, R>,
    ending: Result<Ending, BatchFault>,
    lack: Option<Lack>,
) -> Result<u8, Failure>
    ensures { IfOk result (IsStatusOfTable ending lack) }
{
    match ending {
        Ok(ending) => status_by(ending.is_whole, lack),
        Err(BatchFault::Write) => Err(out.failure(StreamFault::Write)),
        Err(BatchFault::Memory) => Err(Failure::Stream(StreamFault::Memory)),
    }
}

/// The status of a table that is written, whole or not, of which rows may have lacked something.
fn status_by(is_whole: bool, lack: Option<Lack>) -> Result<u8, Failure>
    ensures { IfOk result (IsStatusBy is_whole lack) }
{
    match lack {
        Some(Lack::Memory) => Ok(OUT_OF_MEMORY),
        Some(Lack::Thread) => Ok(STREAM_FAILED),
        // Standard error has told which file it is.
        Some(Lack::Write) => Ok(STREAM_FAILED),
        None => Ok(if is_whole { DONE } else { STOPPED }),
    }
}
