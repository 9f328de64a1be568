//! Reading a calendar from a TOML text.

use crate::calendar_fault::{CalendarError, CalendarFault, of_workdays};
use crate::fault::WorkdaysFault;
use crate::holiday::Holiday;
use crate::place::{item_place, key_place, line_and_column};
use crate::unit::Unit;
use crate::workdays::Workdays;
use crate::worked::worked_days;
use jiff_core::civil::Date;
use std::alloc::Global;
use toml::{Table, Value};

/// How many bytes a text has at most.
const MOST_BYTES: usize = 65_536;

/// The keys of a calendar.
const KEYS: [&str; 4] = ["start", "workdays", "unit", "holidays"];

/// Reads a calendar of working days from a TOML text: the first day `start`; perhaps `workdays`, the days of the week that
/// are worked on, as `worked_days` reads them, all of them if it is not there; perhaps `unit`, `day` or `week`, a day if it
/// is not there; and perhaps `holidays`, dates and arrays of a first and a last date.
///
/// # Errors
///
/// The first rule that the text breaks, and where: `TooLong`, `NotToml`, `Unknown`, `NoStart`, `Start`, `Workdays`, `Unit`,
/// and for each holiday `Holiday` and `Backwards`; then `NoWorkday` and `TooMany`. `Memory` if memory was refused.
pub fn read_calendar(alloc: Global, text: &[u8]) -> Result<Workdays, CalendarError> {
    if MOST_BYTES < text.len() {
        return Err(at(CalendarFault::TooLong, "", 0));
    }
    let Ok(text) = std::str::from_utf8(text) else {
        return Err(at(CalendarFault::NotToml, "", 0));
    };
    match toml::table_from_str(alloc, text) {
        Ok(table) => calendar_of(alloc, text, &table),
        Err(error) if error.is_memory() => Err(at(CalendarFault::Memory, "", 0)),
        Err(error) => match error.span() {
            Some(span) => Err(at(CalendarFault::NotToml, text, span.start)),
            None => Err(at(CalendarFault::NotToml, text, 0)),
        },
    }
}

/// A fault at a byte of a text.
fn at(fault: CalendarFault, text: &str, offset: usize) -> CalendarError {
    let (line, column) = line_and_column(text, offset);
    CalendarError {
        fault,
        line,
        column,
    }
}

/// A fault at a key of a text.
fn at_key(fault: CalendarFault, text: &str, key: &str) -> CalendarError {
    at(fault, text, key_place(text, key))
}

/// The calendar of a table, which was read from this text.
fn calendar_of(alloc: Global, text: &str, table: &Table) -> Result<Workdays, CalendarError> {
    check_keys(text, table)?;
    let first = first_of(text, table)?;
    let worked = worked_of(text, table)?;
    let unit = unit_of(text, table)?;
    let holidays = holidays_of(alloc, text, table)?;
    match Workdays::of(alloc, first, unit, worked, holidays.as_slice()) {
        Ok(workdays) => Ok(workdays),
        Err(WorkdaysFault::TooMany) => Err(at_key(CalendarFault::TooMany, text, "holidays")),
        Err(fault) => Err(at_key(of_workdays(fault), text, "workdays")),
    }
}

/// Refuses a table with a key that a calendar does not have.
fn check_keys(text: &str, table: &Table) -> Result<(), CalendarError> {
    for key in table.keys() {
        if !is_known(key.as_str()) {
            return Err(at_key(CalendarFault::Unknown, text, key.as_str()));
        }
    }
    Ok(())
}

/// Whether a calendar may have this key.
fn is_known(key: &str) -> bool {
    for known in KEYS {
        if known == key {
            return true;
        }
    }
    false
}

/// The first day.
fn first_of(text: &str, table: &Table) -> Result<Date, CalendarError> {
    let Some(value) = table.get("start") else {
        return Err(at(CalendarFault::NoStart, text, 0));
    };
    match date_of(value) {
        Some(date) => Ok(date),
        None => Err(at_key(CalendarFault::Start, text, "start")),
    }
}

/// The date that a value is, if it is one and no time stands beside it.
fn date_of(value: &Value) -> Option<Date> {
    let datetime = value.as_datetime()?;
    if datetime.time.is_some() || datetime.offset.is_some() {
        return None;
    }
    let date = datetime.date?;
    if date.year < 1 || 9999 < date.year || 12 < date.month || 31 < date.day {
        return None;
    }
    Date::new(date.year as i16, date.month as i8, date.day as i8).ok()
}

/// The days of a week that are worked on, from Monday on; all of them if nothing is told.
fn worked_of(text: &str, table: &Table) -> Result<[bool; 7], CalendarError> {
    let Some(value) = table.get("workdays") else {
        return Ok([true; 7]);
    };
    match value.as_str() {
        Some("") => Err(at_key(CalendarFault::NoWorkday, text, "workdays")),
        Some(word) => worked_days(word).ok_or(at_key(CalendarFault::Workdays, text, "workdays")),
        None => Err(at_key(CalendarFault::Workdays, text, "workdays")),
    }
}

/// How long a time unit is; a day if nothing is told.
fn unit_of(text: &str, table: &Table) -> Result<Unit, CalendarError> {
    let Some(value) = table.get("unit") else {
        return Ok(Unit::Day);
    };
    match value.as_str() {
        Some("day") => Ok(Unit::Day),
        Some("week") => Ok(Unit::Week),
        _ => Err(at_key(CalendarFault::Unit, text, "unit")),
    }
}

/// The holidays; none if nothing is told.
fn holidays_of(alloc: Global, text: &str, table: &Table) -> Result<Vec<Holiday>, CalendarError> {
    let mut holidays = Vec::new(alloc);
    let Some(value) = table.get("holidays") else {
        return Ok(holidays);
    };
    let Some(items) = value.as_array() else {
        return Err(at_key(CalendarFault::Holiday, text, "holidays"));
    };
    for (place, item) in items.as_slice().iter().enumerate() {
        let holiday = match holiday_of(item) {
            Ok(holiday) => holiday,
            Err(fault) => return Err(at_item(fault, text, place)),
        };
        if holidays.push(holiday).is_err() {
            return Err(at(CalendarFault::Memory, "", 0));
        }
    }
    Ok(holidays)
}

/// A fault at the holiday at this place.
fn at_item(fault: CalendarFault, text: &str, place: usize) -> CalendarError {
    let begin = key_place(text, "holidays");
    at(fault, text, item_place(text, begin, place))
}

/// The holiday that a value is: a date, or an array of a first and a last one.
fn holiday_of(value: &Value) -> Result<Holiday, CalendarFault> {
    if let Some(date) = date_of(value) {
        return Ok(Holiday {
            first: date,
            last: date,
        });
    }
    let Some(dates) = value.as_array() else {
        return Err(CalendarFault::Holiday);
    };
    match dates.as_slice() {
        [first, last] => range_of(date_of(first), date_of(last)),
        _ => Err(CalendarFault::Holiday),
    }
}

/// The holidays from a first to a last day.
fn range_of(first: Option<Date>, last: Option<Date>) -> Result<Holiday, CalendarFault> {
    let (Some(first), Some(last)) = (first, last) else {
        return Err(CalendarFault::Holiday);
    };
    if last.days_since_min() < first.days_since_min() {
        return Err(CalendarFault::Backwards);
    }
    Ok(Holiday { first, last })
}
