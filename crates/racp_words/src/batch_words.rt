//! The words of the command that writes a table of results.

ghost use Rattle.std.specs.Prelude.{IfOk};
ghost use Rattle.clap.specs.Words.{found_of, rows_of};
ghost use Rattle.racp_words.specs.Batches.{AreBatchWords};

use crate::most::MOST_WORKERS;
use crate::options::{path_of, paths_of, text_of, worker_count};
use crate::table::{MEMORY, QUIET, Word};
use crate::table_requests::BatchWords;
use clap::ArgMatches;
use std::alloc::{AllocError, Global};

/// The words of `batch`.
pub(crate) const BATCH: &[Word] = &[
    Word::Files("NET", "The networks"),
    Word::Needed(
        "factors",
        "F,..",
        "The deadlines, each as so many times the critical length, rounded down: 1.0,1.2",
    ),
    Word::Text(
        "price",
        "N",
        "What a unit of each resource costs, 0 to 1,000,000 [default: 1]",
    ),
    Word::Text(
        "time-limit",
        "S",
        "After how many seconds the planning of each row stops, up to 1,000,000,000: 60 or 0.5",
    ),
    MEMORY,
    Word::Lettered(
        'j',
        "jobs",
        "N",
        MOST_WORKERS,
        "How many rows are planned at a time, 1 to 64, or 0 for one for each processor [default: 1]",
    ),
    Word::Text(
        "out",
        "DIR",
        "Keeps each plan in this folder: DIR/NAME-FACTOR.plan",
    ),
    Word::Text(
        "calendar",
        "FILE",
        "Tells the last day of each deadline too; FILE has the first day, the working days and the holidays",
    ),
    QUIET,
];

/// The words for a table of results.
pub(crate) fn batch_of<'a>(
    alloc: Global,
    words: &ArgMatches<'a>,
) -> Result<BatchWords<'a>, AllocError>
    ensures { IfOk result (AreBatchWords (rows_of (found_of words.now))) }
{
    let nets = paths_of(alloc, words, "NET")?;
    Ok(BatchWords {
        nets,
        factors: path_of(words, "factors"),
        price: text_of(words, "price"),
        limit: text_of(words, "time-limit"),
        jobs: worker_count(text_of(words, "jobs")),
        out: text_of(words, "out"),
    })
}
