//! The dates of MSPDI that tasks are tied to.

use crate::fault::TableFault;
use crate::reading::Dating;
use jiff_core::civil::Date;
use racp_calendar::{Calendar, DateForm, Workdays, date_in, time_by, time_from};
use racp_model::limits::LATEST_TIME;
use racp_text::number;
use racp_xml::{Mark, text_of};
use std::alloc::Global;

/// A task, and how long it takes.
#[derive(Clone, Copy)]
pub(crate) struct Tied<'b, 'a> {
    pub(crate) marks: &'b [Mark<'a>],
    pub(crate) name: &'b str,
    pub(crate) line: u64,
    pub(crate) duration: u32,
    pub(crate) is_phase: bool,
}

/// The time from which a task may start, and the one by which it has to end.
pub(crate) fn bounds_of(
    alloc: Global,
    tied: Tied<'_, '_>,
    dating: Dating<'_>,
) -> Result<(u32, u32), TableFault> {
    let (earliest, due) = constraint_of(alloc, tied, dating)?;
    match text_of(tied.marks, 4, "Deadline") {
        Some(word) => {
            let end = end_by(alloc, tied, dating, word)?;
            Ok((earliest, due.min(end)))
        }
        None => Ok((earliest, due)),
    }
}

/// The same by the constraint of a task alone.
fn constraint_of(
    alloc: Global,
    tied: Tied<'_, '_>,
    dating: Dating<'_>,
) -> Result<(u32, u32), TableFault> {
    let kind = text_of(tied.marks, 4, "ConstraintType").unwrap_or("0");
    if kind == "0" || kind == "1" {
        return Ok((0, LATEST_TIME));
    }
    let Some(word) = text_of(tied.marks, 4, "ConstraintDate") else {
        let words = format!(in alloc;
            "task '{}' is tied to a date and has no ConstraintDate",
            tied.name
        );
        return Err(TableFault::at(tied.line, words));
    };
    if tied.is_phase && kind != "4" && kind != "7" {
        let words = format!(in alloc;
            "phase '{}' has the constraint {kind}; tie its tasks to dates",
            tied.name
        );
        return Err(TableFault::at(tied.line, words));
    }
    times_of(alloc, tied, dating, (kind, word))
}

/// The same by the kind of its constraint, which is none of 0 and 1, and its date.
fn times_of(
    alloc: Global,
    tied: Tied<'_, '_>,
    dating: Dating<'_>,
    constraint: (&str, &str),
) -> Result<(u32, u32), TableFault> {
    let (kind, word) = constraint;
    let length = tied.duration;
    match kind {
        "2" => {
            let start = start_from(alloc, tied, dating, word)?;
            Ok((start, start.saturating_add(length)))
        }
        "3" => {
            let end = end_by(alloc, tied, dating, word)?;
            Ok((end.saturating_sub(length), end))
        }
        "4" => Ok((start_from(alloc, tied, dating, word)?, LATEST_TIME)),
        "5" => {
            let start = start_from(alloc, tied, dating, word)?;
            Ok((0, start.saturating_add(length)))
        }
        "6" => {
            let end = end_by(alloc, tied, dating, word)?;
            Ok((end.saturating_sub(length), LATEST_TIME))
        }
        "7" => Ok((0, end_by(alloc, tied, dating, word)?)),
        _ => {
            let words = format!(in alloc;
                "task '{}' has the constraint '{kind}', which is none from 0 to 7",
                tied.name
            );
            Err(TableFault::at(tied.line, words))
        }
    }
}

/// The first time from the day of a word on; from the next one on, if the word tells an hour of the afternoon.
fn start_from(
    alloc: Global,
    tied: Tied<'_, '_>,
    dating: Dating<'_>,
    word: &str,
) -> Result<u32, TableFault> {
    let (calendar, date, is_late) = dated(alloc, tied, dating, word)?;
    let date = if is_late {
        date.tomorrow().unwrap_or(date)
    } else {
        date
    };
    Ok(time_from(calendar, date))
}

/// The last time that ends by the day of a word; by the one before, if the word tells an hour of the morning.
fn end_by(
    alloc: Global,
    tied: Tied<'_, '_>,
    dating: Dating<'_>,
    word: &str,
) -> Result<u32, TableFault> {
    let (calendar, date, is_late) = dated(alloc, tied, dating, word)?;
    let date = if is_late {
        date
    } else {
        date.yesterday().unwrap_or(date)
    };
    match time_by(calendar, date) {
        Some(time) => Ok(time),
        None => {
            let words = format!(in alloc;
                "task '{}' has to end by {word}, before the end of the first day that is worked on",
                tied.name
            );
            Err(TableFault::at(tied.line, words))
        }
    }
}

/// The calendar, the date of a word such as `2026-03-23T08:00:00`, and whether its hour is one of the afternoon.
fn dated<'c>(
    alloc: Global,
    tied: Tied<'_, '_>,
    dating: Dating<'c>,
    word: &str,
) -> Result<(&'c Workdays, Date, bool), TableFault> {
    let Calendar::Dates(calendar) = dating.calendar else {
        let words = format!(in alloc;
            "task '{}' is tied to a date, {word}; --calendar FILE says which days are worked on",
            tied.name
        );
        return Err(TableFault::at(tied.line, words));
    };
    if let Some((day, clock)) = word.split_once('T') {
        if let Some(date) = date_in(alloc, day, DateForm::ISO)? {
            return Ok((calendar, date, is_late(clock)));
        }
    }
    let words = format!(in alloc;
        "task '{}' is tied to '{word}', which is not written as 2026-03-23T08:00:00",
        tied.name
    );
    Err(TableFault::at(tied.line, words))
}

/// Whether a time of the day such as `17:00:00` is one of the afternoon.
fn is_late(clock: &str) -> bool {
    match clock.split_once(':') {
        Some((hour, _)) => number(hour.as_bytes()).unwrap_or(0) >= 12,
        None => false,
    }
}
