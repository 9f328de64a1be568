//! The words of the command that reads tables of tasks, and those that others have too.

ghost use Rattle.std.specs.Prelude.{IfOk};
ghost use Rattle.clap.specs.Words.{found_of, rows_of};
ghost use Rattle.racp_words.specs.Tools.{AreTableWords};

use crate::options::{is_set, path_of, paths_of, text_of};
use crate::table::{QUIET, Word};
use crate::table_requests::TableWords;
use clap::ArgMatches;
use std::alloc::{AllocError, Global};

/// The option for a calendar of working days.
pub(crate) const CALENDAR: Word<'static> = Word::Text(
    "calendar",
    "FILE",
    "Tells times by the dates of working days; FILE has the first day, the working days and the holidays",
);

/// The option for the calendar by which dates are times.
pub(crate) const TIMES: Word<'static> = Word::Text(
    "calendar",
    "FILE",
    "Takes dates for times; FILE has the first day, the working days and the holidays",
);

/// The option for the date of the time 0.
pub(crate) const START_DATE: Word<'static> = Word::Text(
    "start-date",
    "DATE",
    "Tells times by dates; the time 0 is the beginning of this day: 2026-01-05",
);

/// The option for the days of the week that are worked on.
pub(crate) const WORKDAYS: Word<'static> = Word::Text(
    "workdays",
    "DAYS",
    "With --start-date, the days of the week that are worked on: mon-fri or mon-thu,sat; all if not said",
);

/// The option for how long a time unit is.
pub(crate) const UNIT: Word<'static> = Word::Text(
    "unit",
    "UNIT",
    "With --start-date, how long a time unit is: day or week; a day if not said",
);

/// The option for how many units are owned.
pub(crate) const OWNED: Word<'static> = Word::Text(
    "owned",
    "N,..",
    "How many units of each resource are owned, and cost nothing: 0,4 or Masons=0,Cranes=4",
);

/// The option for how many units there may be.
pub(crate) const CEILING: Word<'static> = Word::Text(
    "ceiling",
    "N,..",
    "How many units of each resource there may be: 5,9 or Masons=5,Cranes=9",
);

/// The words of `import`.
pub(crate) const IMPORT: &[Word] = &[
    Word::Files(
        "FILE",
        "The table: rows and cells, CSV, or XML of planners, or Patterson's format, .rcp; several are joined, and resources of one name are one",
    ),
    Word::Needed(
        "out",
        "PROJECT",
        "What the files are called: PROJECT.sm, PROJECT.names and PROJECT.toml",
    ),
    Word::Text(
        "from",
        "FORMAT",
        "The format of each table, csv, rcp or mspdi; else its first line tells",
    ),
    Word::Text(
        "prices",
        "N,..",
        "What a unit of each resource costs: 9,30 or Masons=9,Cranes=30",
    ),
    Word::Text(
        "factor",
        "F",
        "The deadline as so many times the critical length, rounded down: 1.2",
    ),
    Word::Text(
        "deadline",
        "T",
        "The deadline, 0 to 10,000,000, or with --calendar a date: 2026-11-27",
    ),
    OWNED,
    CEILING,
    Word::Text(
        "resources",
        "A,..",
        "The columns of resources by their titles; else all that are left",
    ),
    Word::Text(
        "ignore",
        "A,..",
        "Columns that are passed over, by their titles",
    ),
    Word::Number(
        "hours-a-day",
        "N",
        24,
        "How many hours make a day, 1 to 24, for durations such as 4h",
    ),
    Word::Text(
        "unit",
        "UNIT",
        "How long a time unit is: day or half-day, which doubles the times of the table; a day if not said",
    ),
    TIMES,
    Word::Text(
        "date-format",
        "FORMAT",
        "With --calendar, how the table writes dates: D.M.YYYY or MM/DD/YYYY; YYYY-MM-DD if not said",
    ),
    Word::Flag("strict", "Refuses a table that looks wrong"),
    Word::Flag(
        "force",
        "Replaces files that were changed since they were written",
    ),
    QUIET,
];

/// The words for tables of tasks.
pub(crate) fn table_of<'a>(
    alloc: Global,
    words: &ArgMatches<'a>,
) -> Result<TableWords<'a>, AllocError>
    ensures { IfOk result (AreTableWords (rows_of (found_of words.now))) }
{
    let files = paths_of(alloc, words, "FILE")?;
    Ok(TableWords {
        files,
        out: path_of(words, "out"),
        from: text_of(words, "from"),
        prices: text_of(words, "prices"),
        factor: text_of(words, "factor"),
        deadline: text_of(words, "deadline"),
        owned: text_of(words, "owned"),
        ceiling: text_of(words, "ceiling"),
        resources: text_of(words, "resources"),
        ignored: text_of(words, "ignore"),
        hours_a_day: text_of(words, "hours-a-day"),
        unit: text_of(words, "unit"),
        calendar: text_of(words, "calendar"),
        date_format: text_of(words, "date-format"),
        is_strict: is_set(words, "strict"),
        is_forced: is_set(words, "force"),
    })
}
