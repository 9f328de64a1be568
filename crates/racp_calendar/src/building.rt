//! What a calendar of working days is made of.

ghost use Rattle.std.specs.Prelude.{◌≡◌, ◌<◌, ◌≤◌, ◌||◌, ℕ, IfOk, OnOk, max, vec_len};
ghost use Rattle.std.specs.List.{list_any};
ghost use Rattle.racp_calendar.specs.Holidays.{day_number, is_off, week_from};
ghost use Rattle.racp_calendar.specs.Units.{unit_days};
ghost use Rattle.racp_calendar.specs.Work.{has_day, has_work, is_free, is_worked};

use crate::fault::WorkdaysFault;
use crate::holiday::Holiday;
use crate::pattern::{Pattern, is_weekly};
use crate::unit::Unit;
use jiff_core::civil::Date;
use std::alloc::{AllocError, Global};

/// The most days that are free by holidays.
const MOST_FREE: usize = 4_000;

/// Which blocks of days have one that is worked on.
pub(crate) fn blocks_of(alloc: Global, unit: Unit, days: &Pattern) -> Result<Pattern, AllocError>
    ensures { IfOk result (λ blocks. (block : ℕ) → is_worked blocks.week blocks.free.items block ≡
        has_work (is_worked days.now.week days.now.free.items) (unit_days unit) block) }
{
    match unit {
        Unit::Day => days.again(alloc),
        Unit::Week => days.weeks(alloc),
    }
}

/// The seven days of a week that begins so many days after Monday, of one that begins on Monday.
pub(crate) fn week_from(worked: [bool; 7], begin: u8) -> [bool; 7]
    requires { begin < 7 }
    ensures { result ≡ week_from worked begin }
{
    let begin = begin as usize;
    [
        worked[begin % 7],
        worked[(begin + 1) % 7],
        worked[(begin + 2) % 7],
        worked[(begin + 3) % 7],
        worked[(begin + 4) % 7],
        worked[(begin + 5) % 7],
        worked[(begin + 6) % 7],
    ]
}

/// Whether some day of a week is worked on.
#[tactic(auto, using(crate::proofs::Places::count_zero, crate::proofs::Places::count_at, crate::proofs::Places::count_past))]
pub(crate) fn has_day(week: &[bool; 7]) -> bool
    ensures { result ≡ has_day week.now }
{
    for day in 0..7u64 {
        if is_weekly(week, day) {
            return true;
        }
    }
    false
}

/// The days that are free by holidays, counted from the first day.
pub(crate) fn free_days(
    alloc: Global,
    first: Date,
    holidays: &[Holiday],
) -> Result<Vec<u32>, WorkdaysFault>
    ensures free { IfOk result (λ days. (day : ℕ) →
        is_free days.items day ≡ list_any (λ holiday. is_off first holiday day) holidays.now) }
    ensures few { IfOk result (λ days. vec_len days ≤ 4000) }
{
    let mut days = Vec::new(alloc);
    for holiday in holidays {
        push_free(&mut days, first, holiday)?;
    }
    Ok(days)
}

/// Adds the days of a holiday, counted from the first day; those before it are left out.
fn push_free(days: &mut Vec<u32>, first: Date, holiday: &Holiday) -> Result<(), WorkdaysFault>
    requires { vec_len days.old ≤ 4000 }
    ensures free { OnOk result ((day : ℕ) → is_free days.new.items day ≡ (is_free days.old.items day || is_off first holiday.now day)) }
    ensures few { OnOk result (vec_len days.new ≤ 4000) }
{
    let start = number_of(first);
    let from = later(number_of(holiday.first), start);
    let end = number_of(holiday.last) + 1;
    for number in from..end {
        if days.len() == MOST_FREE {
            return Err(WorkdaysFault::TooMany);
        }
        days.push(number - start)?;
    }
    Ok(())
}

/// The greater of two numbers.
fn later(number: u32, other: u32) -> u32
    ensures { result ≡ max number other }
{
    if number < other { other } else { number }
}

/// The number of a date among all dates.
pub(crate) fn number_of(date: Date) -> u32
    ensures value { result ≡ day_number date }
    ensures some { 366 ≤ result }
    ensures small { result ≤ 7_304_849 }
{
    date.days_since_min() + 366
}
