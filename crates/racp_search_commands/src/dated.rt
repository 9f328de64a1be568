//! What changes cost, with the days of deadlines.

use racp_calendar::{Calendar, last_word, push_last};
use std::alloc::{AllocError, Global};

/// What stands before a deadline in JSON.
const DEADLINE: &str = "\"deadline\":";

/// What stands before the deadline of a change in JSON.
const CHANGE: &str = "\"change\":\"deadline\",\"resource\":null,\"name\":null,\"value\":";

/// What `whatif` wrote, as a calendar tells its deadlines: in lines their last days in place of their numbers, and in JSON beside
/// them. Other texts stay as they are.
///
/// # Errors
///
/// Memory was refused.
pub(crate) fn dated_findings(
    alloc: Global,
    text: &[u8],
    calendar: Calendar<'_>,
) -> Result<String, AllocError> {
    // What is written is UTF-8.
    let text = std::str::from_utf8(text).unwrap_or("");
    if !calendar.has_dates() {
        return String::from_str(alloc, text);
    }
    if text.starts_with('{') {
        let dated = dated_behind(alloc, text, (DEADLINE, "deadline_day"), calendar)?;
        dated_behind(alloc, dated.as_str(), (CHANGE, "value_day"), calendar)
    } else {
        dated_lines(alloc, text, calendar)
    }
}

/// Lines with the last day of a deadline in place of its number.
fn dated_lines(alloc: Global, text: &str, calendar: Calendar<'_>) -> Result<String, AllocError> {
    let mut dated = String::new(alloc);
    for line in text.lines() {
        push_line(&mut dated, line, calendar)?;
        dated.push('\n')?;
    }
    Ok(dated)
}

/// Adds a line, with the last day of the deadline with which it begins, if it does.
fn push_line(dated: &mut String, line: &str, calendar: Calendar<'_>) -> Result<(), AllocError> {
    match deadline_in(line) {
        Some((deadline, rest)) => {
            dated.push_str("deadline ")?;
            push_last(dated, calendar, deadline as u128)?;
            dated.push_str(rest)
        }
        None => dated.push_str(line),
    }
}

/// The deadline with which a line begins, and what stands behind it, if it does.
fn deadline_in(line: &str) -> Option<(u32, &str)> {
    let rest = line.strip_prefix("deadline ")?;
    let digits = digits_of(rest);
    let behind = rest.strip_prefix(digits)?;
    if behind.starts_with(':') {
        Some((digits.parse().ok()?, behind))
    } else {
        None
    }
}

/// JSON with a member behind each number that stands behind such a text: the last day of the time, if it has one.
fn dated_behind(
    alloc: Global,
    text: &str,
    member: (&str, &str),
    calendar: Calendar<'_>,
) -> Result<String, AllocError> {
    let (before, name) = member;
    let mut dated = String::new(alloc);
    for (place, part) in text.split(before).enumerate() {
        if place > 0 {
            dated.push_str(before)?;
            push_dated(alloc, &mut dated, part, (name, calendar))?;
        } else {
            dated.push_str(part)?;
        }
    }
    Ok(dated)
}

/// Adds a text that begins with the number of a time, and behind that a member of this name with its last day.
fn push_dated(
    alloc: Global,
    dated: &mut String,
    part: &str,
    told: (&str, Calendar<'_>),
) -> Result<(), AllocError> {
    let (name, calendar) = told;
    let digits = digits_of(part);
    dated.push_str(digits)?;
    if let Ok(time) = digits.parse::<u32>()
        && let Some(day) = last_word(alloc, calendar, time as u128)?
    {
        write!(dated, ",\"{name}\":\"{day}\"")?;
    }
    dated.push_str(part.strip_prefix(digits).unwrap_or(""))
}

/// The digits with which a text begins.
fn digits_of(text: &str) -> &str {
    match text.split_once(is_no_digit) {
        Some((digits, _)) => digits,
        None => text,
    }
}

/// Whether a letter is no digit.
fn is_no_digit(letter: char) -> bool {
    !letter.is_ascii_digit()
}
