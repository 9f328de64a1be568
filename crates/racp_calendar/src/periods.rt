//! Weeks, months and years, and when they begin on a calendar. Days have the numbers that they have among all dates.

ghost use Rattle.std.specs.Prelude.{◌≡◌, ◌+◌, ◌*◌, ◌<◌, ◌≤◌, ◌++◌, ◌^◌, OnOk, max, min, string_bytes, true, unsigned_abs};
ghost use Rattle.jiff_core.specs.declared.civil.date.Date.{Date};
ghost use Rattle.racp_calendar.specs.Dates.{day_of, end_of, most_days, start_of};
ghost use Rattle.racp_calendar.specs.Periods.{begin_time, day_numbered, free_before, last_number, month_begin, month_number, month_text, period_begin, period_of, period_text, quarter_text, week_in_year, week_text, year_text};
ghost use Rattle.racp_calendar.specs.Times.{end_number, start_number};
ghost use Rattle.racp_calendar.specs.Written.{four_digits, two_digits};

use crate::building::number_of;
use crate::times::first_time;
use crate::workdays::Workdays;
use crate::written::{zero_before, zeros_before};
use jiff_core::civil::Date;
use std::alloc::AllocError;
use std::cmp::max;

/// The number of the last date, 9999-12-31.
pub const LAST_NUMBER: u128 = 7_304_849;

/// Days that are told together.
#[derive(Clone, Copy)]
pub enum Period {
    /// A week, from Monday on, as ISO 8601 counts them.
    Week,
    /// A month.
    Month,
    /// Three months, from January, April, July or October on.
    Quarter,
    /// So many years, from a multiple of that on; 1 if it is 0.
    Years(u64),
}

impl Workdays {
    /// The number of the day on which what starts at a time is begun.
    pub fn start_number(&self, time: u128) -> u128
        ensures { result ≡ start_number self.now time }
    {
        number_of(self.first) as u128 + self.start_day(time) as u128
    }

    /// The number of the day on the evening of which what ends at a time is done.
    pub fn end_number(&self, time: u128) -> u128
        ensures { result ≡ end_number self.now time }
    {
        number_of(self.first) as u128 + self.end_day(time) as u128
    }

    /// The first time that starts on the day with a number or later.
    pub fn begin_time(&self, number: u128) -> u128
        ensures { result ≡ begin_time self.now number }
    {
        let first = number_of(self.first);
        let number = capped(number) as u32;
        if number < first {
            return 0;
        }
        first_time(self, number - first) as u128
    }

    /// How many free days lie between what ends and what starts at a time.
    pub fn free_before(&self, time: u128) -> u64
        ensures { result ≡ free_before self.now time }
    {
        self.start_day(time)
            .saturating_sub(self.end_day(time))
            .saturating_sub(1)
    }
}

impl Period {
    /// The number of the period in which the day with a number is.
    pub fn of(self, number: u128) -> u64
        ensures value { result ≡ period_of self number }
        ensures small { result < 2 ^ 32 }
    {
        match self {
            Period::Week => capped(number).saturating_sub(2) as u64 / 7,
            Period::Month => month_number(date_of(number)),
            Period::Quarter => month_number(date_of(number)) / 3,
            Period::Years(count) => (month_number(date_of(number)) as u128
                / (max(count, 1) as u128 * 12)) as u64,
        }
    }

    /// The number of the first day of the period with a number.
    pub fn begin(self, number: u64) -> u128
        requires { number < 2 ^ 40 }
        ensures value { result ≡ period_begin self number }
        ensures small { result < 2 ^ 100 }
    {
        let number = number as u128;
        match self {
            Period::Week => number * 7 + 2,
            Period::Month => month_begin(number),
            Period::Quarter => month_begin(number * 3),
            Period::Years(count) => month_begin(number * (max(count, 1) as u128 * 12)),
        }
    }

    /// Adds what a period is called whose first day has this number.
    ///
    /// # Errors
    ///
    /// Memory was refused.
    pub fn push_name(self, text: &mut String, first: u128) -> Result<(), AllocError>
        requires { first < 2 ^ 100 }
        ensures { OnOk result (string_bytes text.new ≡ string_bytes text.old ++ period_text self first) }
    {
        match self {
            Period::Week => push_week(text, week_in_year(date_of(first + 3))),
            Period::Month => push_month(text, date_of(first)),
            Period::Quarter => push_quarter(text, date_of(first)),
            Period::Years(_) => push_year(text, date_of(first)),
        }
    }
}

/// A number, or that of the last date if that is less.
fn capped(number: u128) -> u128
    ensures { result ≡ min number last_number }
{
    if number < LAST_NUMBER {
        number
    } else {
        LAST_NUMBER
    }
}

/// The date with a number, or the last one.
fn date_of(number: u128) -> Date
    ensures { day_of result ≡ day_numbered number }
{
    Date::from_days_since_min(capped(number).saturating_sub(366) as u32)
}

/// How many months from the year 0 on lie before that of a date.
fn month_number(date: Date) -> u64
    ensures value { result ≡ month_number (day_of date) }
    ensures small { result < 2 ^ 32 }
{
    date.year.unsigned_abs() as u64 * 12 + (date.month as u64 - 1)
}

/// The first day of a month; the day behind the last date if it is later.
fn month_begin(month: u128) -> u128
    ensures { result ≡ month_begin month }
{
    let year = month / 12;
    if year > 9999 {
        return LAST_NUMBER + 1;
    }
    number_of(Date::constrain(year as i16, (month % 12) as u8 + 1, 1)) as u128
}

/// Which week of its year a week is that has this Thursday.
fn week_in_year(thursday: Date) -> u16
    ensures { result ≡ week_in_year (day_of thursday) }
{
    (thursday.day_of_year() - 1) / 7 + 1
}

/// Adds the number of a week in its year.
#[tactic(auto, unfolding(crate::specs::Periods::week_text))]
fn push_week(text: &mut String, week: u16) -> Result<(), AllocError>
    ensures { OnOk result (string_bytes text.new ≡ string_bytes text.old ++ week_text week) }
{
    text.push_str("W")?;
    push_two(text, week)
}

/// Adds a month, with its year.
#[tactic(auto, unfolding(crate::specs::Periods::month_text))]
fn push_month(text: &mut String, date: Date) -> Result<(), AllocError>
    ensures { OnOk result (string_bytes text.new ≡ string_bytes text.old ++ month_text (day_of date)) }
{
    push_year(text, date)?;
    text.push_str("-")?;
    push_two(text, date.month as u16)
}

/// Adds a quarter, with its year.
#[tactic(auto, unfolding(crate::specs::Periods::quarter_text))]
fn push_quarter(text: &mut String, date: Date) -> Result<(), AllocError>
    ensures { OnOk result (string_bytes text.new ≡ string_bytes text.old ++ quarter_text (day_of date)) }
{
    let quarter = (date.month - 1) / 3 + 1;
    push_year(text, date)?;
    write!(text, "-Q{quarter}")
}

/// Adds a year, with four digits.
fn push_year(text: &mut String, date: Date) -> Result<(), AllocError>
    ensures { OnOk result (string_bytes text.new ≡ string_bytes text.old ++ year_text (day_of date)) }
{
    let year = date.year.unsigned_abs();
    let zeros = zeros_before(year);
    write!(text, "{zeros}{year}")
}

/// Adds a number, with two digits.
fn push_two(text: &mut String, number: u16) -> Result<(), AllocError>
    ensures { OnOk result (string_bytes text.new ≡ string_bytes text.old ++ two_digits true number) }
{
    let zero = zero_before(number, true);
    write!(text, "{zero}{number}")
}
