//! What other programs are told of a calendar: its week, its free days, and how much work lies between times.

ghost use Rattle.std.specs.Prelude.{◌≡◌, ◌++◌, ◌≤◌, ◌<◌, ◌^◌, OnOk, decimal, option_map, string_bytes, unwrap_or};
ghost use Rattle.jiff.specs.Words.{date_text};
ghost use Rattle.racp_calendar.specs.Dates.{word_after};
ghost use Rattle.racp_calendar.specs.Told.{counted_text, days_worked, free_days, is_workday, work_between};

use crate::calendar::{Calendar, date_after};
use crate::workdays::Workdays;
use jiff::civil::Date;
use jiff_core::civil::Date as FirstDay;
use std::alloc::AllocError;

/// Whether a day of the week, from 0 for Monday, is worked on but for holidays. By numbers each day is.
pub fn is_workday(calendar: Calendar<'_>, day: u8) -> bool
    ensures { result ≡ is_workday calendar.entry day }
{
    match calendar {
        Calendar::Numbers => true,
        Calendar::Dates(workdays) => {
            let begin = workdays.first.weekday().index();
            workdays.days.is_weekly(day as u64 + 7 - begin as u64)
        }
    }
}

/// The days, counted from the first day, that are free though their day of the week is worked on, in rising order.
pub fn free_days(calendar: Calendar<'_>) -> &[u32]
    ensures { result.now ≡ free_days calendar.entry }
{
    match calendar {
        Calendar::Numbers => &[],
        Calendar::Dates(workdays) => workdays.days.free(),
    }
}

/// Adds the day so many days after the first day, or that number if it has no date.
///
/// # Errors
///
/// Memory was refused.
#[tactic(auto, unfolding(crate::specs::Told::counted_text))]
pub fn push_counted(text: &mut String, calendar: Calendar<'_>, days: u32) -> Result<(), AllocError>
    ensures { OnOk result (string_bytes text.new ≡ string_bytes text.old ++ counted_text calendar.entry days) }
{
    match calendar {
        Calendar::Numbers => write!(text, "{days}"),
        Calendar::Dates(workdays) => push_date(text, workdays.first, days),
    }
}

/// Adds the day so many days after a first day, or that number if it has no date.
fn push_date(text: &mut String, first: FirstDay, days: u32) -> Result<(), AllocError>
    ensures { OnOk result (string_bytes text.new ≡ string_bytes text.old ++ unwrap_or (word_after first days) (decimal days)) }
{
    match dated(first, days) {
        Some(date) => write!(text, "{date}"),
        None => write!(text, "{days}"),
    }
}

/// The day so many days after a first day.
fn dated(first: FirstDay, days: u32) -> Option<Date>
    ensures { option_map date_text result ≡ word_after first days }
{
    date_after(first, days as u64)
}

/// How many days are worked on from the first day of what starts at a time to the last day of what ends at a later one. By
/// numbers each time unit is such a day.
pub fn work_between(calendar: Calendar<'_>, start: u64, end: u64) -> u128
    ensures value { result ≡ work_between calendar.entry start end }
    ensures few { result ≤ 2 ^ 64 }
{
    match calendar {
        Calendar::Numbers => end.saturating_sub(start) as u128,
        Calendar::Dates(workdays) => {
            if start < end {
                days_worked(workdays, start, end)
            } else {
                0
            }
        }
    }
}

/// How many days are worked on from the first day of what starts at a time to the last day of what ends at a later one.
fn days_worked(workdays: &Workdays, start: u64, end: u64) -> u128
    ensures value { result ≡ days_worked workdays.now start end }
    ensures few { result ≤ 2 ^ 64 }
{
    let first = workdays.days.below(workdays.start_day(start as u128)) as u128;
    let last = workdays.days.below(workdays.end_day(end as u128)) as u128;
    (last + 1).saturating_sub(first)
}
