//! The day behind a day.

ghost use Rattle.std.specs.Prelude.{◌≡◌, ◌==◌, IfOk, length, not, option_map, string_bytes};
ghost use Rattle.jiff.specs.Words.{date_parts, date_text};
ghost use Rattle.racp_calendar.specs.Dates.{IsDateAfter, last_text};
ghost use Rattle.racp_export.specs.Days.{day_behind, is_told, named_day, word_behind};

use jiff::civil::Date;
use jiff_core::civil::Date as Day;
use racp_calendar::{Calendar, first_day, push_last};
use std::alloc::{AllocError, Global};

/// The day behind the last day of what ends at a time, as `2026-03-06`; empty if it has no date.
pub(crate) fn day_behind(
    alloc: Global,
    calendar: Calendar<'_>,
    end: u128,
) -> Result<String, AllocError>
    ensures { IfOk result (λ day. string_bytes day ≡ day_behind (last_text calendar.entry end)) }
{
    let mut last = String::new(alloc);
    push_last(&mut last, calendar, end)?;
    behind(alloc, last.as_str())
}

/// Whether a calendar tells what ends at a time and what ends before by dates, and the day behind too.
pub fn is_told(alloc: Global, calendar: Calendar<'_>, end: u128) -> Result<bool, AllocError>
    ensures { IfOk result (λ told. told ≡ is_told calendar.entry end) }
{
    let behind = day_behind(alloc, calendar, end)?;
    Ok(!behind.is_empty())
}

/// The day behind the one that a word names; empty if it names none, or the last of all.
fn behind(alloc: Global, word: &str) -> Result<String, AllocError>
    ensures { IfOk result (λ day. string_bytes day ≡ day_behind word.now) }
{
    match next_day(word) {
        Some(date) => format!(in alloc; "{date}"),
        None => Ok(String::new(alloc)),
    }
}

/// The day behind the one that a word names, if there is one.
fn next_day(word: &str) -> Option<Date>
    ensures { option_map date_text result ≡ word_behind word.now }
{
    match day_named(word) {
        Some(day) => day_after(day),
        None => None,
    }
}

/// The day behind a day; `None` if that is after the year 9999.
fn day_after(day: Day) -> Option<Date>
    ensures { IsDateAfter day 1 result }
{
    Date::from_plain(day).tomorrow().ok()
}

/// The day that a word names, as `2026-01-05` does; `None` if it names none.
#[tactic(auto, unfolding(crate::specs::Days::named_day))]
fn day_named(word: &str) -> Option<Day>
    ensures { option_map date_parts result ≡ named_day word.now }
{
    first_day(word)
}
