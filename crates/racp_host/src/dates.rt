//! How times are told, by the words for it.

use crate::failure::{Failure, OptionFault};
use crate::inputs::{read_file, shown};
use racp_calendar::{
    Calendar, CalendarError, CalendarFault, Unit, Workdays, WorkdaysFault, first_day,
    read_calendar, worked_days,
};
use racp_streams::StreamFault;
use racp_words::Dates;
use std::alloc::Global;
use std::rt::Files;

/// How times are told: by their numbers, or by the dates of working days.
pub fn calendar_of(workdays: &Option<Workdays>) -> Calendar<'_> {
    match workdays {
        Some(workdays) => Calendar::Dates(workdays),
        None => Calendar::Numbers,
    }
}

/// The calendar of working days that words tell of: that of a file, or one with a first day and no holidays; none if no
/// word tells of one.
///
/// # Errors
///
/// A file is named, and a first day, working days or a time unit beside it; the file cannot be read, or is no calendar; the
/// word for the first day names none, or there is none beside the other words; the word for the working days tells of none;
/// the word for a time unit is neither `day` nor `week`.
pub fn workdays_of<R: Files + AllocGlobal>(
    rt: &R,
    dates: Dates<'_>,
) -> Result<Option<Workdays>, Failure> {
    let Some(path) = dates.calendar else {
        return of_words(rt.alloc(), dates);
    };
    if dates.start.is_some() || dates.workdays.is_some() || dates.unit.is_some() {
        return Err(Failure::Option(OptionFault::Calendar));
    }
    Ok(Some(calendar_in(rt, path)?))
}

/// The calendar of working days of a file that may be named.
///
/// # Errors
///
/// The file cannot be read, or is no calendar.
pub fn named_calendar<R: Files + AllocGlobal>(
    rt: &R,
    path: Option<&str>,
) -> Result<Option<Workdays>, Failure> {
    match path {
        Some(path) => Ok(Some(calendar_in(rt, path)?)),
        None => Ok(None),
    }
}

/// The calendar of working days of a file that may be named, for an answer that has dates as JSON alone.
///
/// # Errors
///
/// A file is named, and the answer is no JSON; the file cannot be read, or is no calendar.
pub fn calendar_for_json<R: Files + AllocGlobal>(
    rt: &R,
    path: Option<&str>,
    is_json: bool,
) -> Result<Option<Workdays>, Failure> {
    if path.is_some() && !is_json {
        return Err(Failure::Option(OptionFault::NoJson));
    }
    named_calendar(rt, path)
}

/// The calendar of working days of the file with this path.
fn calendar_in<R: Files + AllocGlobal>(rt: &R, path: &str) -> Result<Workdays, Failure> {
    let text = read_file(rt, path)?;
    match read_calendar(rt.alloc(), &text) {
        Ok(workdays) => Ok(workdays),
        Err(error) => Err(refused(rt.alloc(), path, error)),
    }
}

/// Why a file is no calendar.
fn refused(alloc: Global, path: &str, error: CalendarError) -> Failure {
    if matches!(error.fault, CalendarFault::Memory) {
        return Failure::Stream(StreamFault::Memory);
    }
    let name = shown(path);
    match format!(in alloc; "racp: {name}:{error}") {
        Ok(words) => Failure::Refused(words),
        Err(_) => Failure::Stream(StreamFault::Memory),
    }
}

/// The calendar that words other than the path of a file tell of.
fn of_words(alloc: Global, dates: Dates<'_>) -> Result<Option<Workdays>, Failure> {
    let Some(word) = dates.start else {
        return without_start(dates);
    };
    let unit = unit_of(dates.unit)?;
    let worked = worked_of(dates.workdays)?;
    let Some(first) = first_day(word) else {
        return Err(Failure::Option(OptionFault::StartDate));
    };
    match Workdays::of(alloc, first, unit, worked, &[]) {
        Ok(workdays) => Ok(Some(workdays)),
        Err(WorkdaysFault::Memory) => Err(Failure::Stream(StreamFault::Memory)),
        Err(_) => Err(Failure::Option(OptionFault::Workdays)),
    }
}

/// No calendar, if no word asks for one.
fn without_start(dates: Dates<'_>) -> Result<Option<Workdays>, Failure> {
    if dates.unit.is_some() {
        Err(Failure::Option(OptionFault::Unit))
    } else if dates.workdays.is_some() {
        Err(Failure::Option(OptionFault::Workdays))
    } else {
        Ok(None)
    }
}

/// How long a time unit is; a day without a word.
fn unit_of(word: Option<&str>) -> Result<Unit, OptionFault> {
    match word {
        None | Some("day") => Ok(Unit::Day),
        Some("week") => Ok(Unit::Week),
        Some(_) => Err(OptionFault::Unit),
    }
}

/// The days of a week that are worked on, from Monday on; all of them without a word.
fn worked_of(word: Option<&str>) -> Result<[bool; 7], OptionFault> {
    match word {
        None => Ok([true; 7]),
        Some(word) => worked_days(word).ok_or(OptionFault::Workdays),
    }
}
