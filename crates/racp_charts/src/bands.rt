//! Weeks, months and years on an axis of dates.

ghost use Rattle.std.specs.Prelude.{◌≡◌, ◌+◌, ◌<◌, ◌≤◌, ◌^◌, ◌++◌, OnOk, min, string_bytes};
ghost use Rattle.racp_charts.specs.Bands.{band_marks, band_names, begin_at, day_across, first_day_at, name_element, name_room, period_line, period_mark, period_name};

use crate::axis::{Span, push_begin, push_line};
use racp_calendar::{Period, Workdays};
use std::alloc::AllocError;
use std::cmp::min;

/// How many periods an axis has at most.
const MOST_PERIODS: u64 = 26;

/// A band of an axis: weeks, months or years one after the other.
#[derive(Clone, Copy)]
pub(crate) struct Band<'a> {
    /// Which days are worked on.
    pub(crate) workdays: &'a Workdays,
    /// The times of the axis.
    pub(crate) span: Span<'a>,
    /// Which periods it has.
    pub(crate) period: Period,
}

impl Band<'_> {
    /// The number of the first day of the period at a place, from 0.
    fn first_day(self, place: u64) -> u128
        requires { place < 2 ^ 32 }
        ensures value { result ≡ first_day_at self.entry.workdays.now self.entry.span self.entry.period place }
        ensures small { result < 2 ^ 100 }
    {
        let start = self.workdays.start_number(self.span.first as u128);
        self.period.begin(self.period.of(start) + place)
    }

    /// Where the period at a place begins.
    fn begin(self, place: u64) -> u128
        requires { place < 2 ^ 32 }
        ensures place { result ≡ begin_at self.entry.workdays.now self.entry.span self.entry.period place }
        ensures within { result ≤ 970 }
    {
        day_across(self.workdays, self.span, self.first_day(place))
    }
}

/// Where the day with a number begins on an axis.
fn day_across(calendar: &Workdays, span: Span<'_>, number: u128) -> u128
    ensures place { result ≡ day_across calendar.now span.entry number }
    ensures within { result ≤ 970 }
{
    if number <= calendar.end_number(span.last as u128) {
        span.across(calendar.begin_time(number))
    } else {
        span.across(span.last as u128)
    }
}

/// How much room the name of a period takes.
fn room_of(period: Period) -> u128
    ensures value { result ≡ name_room period }
    ensures small { result < 2 ^ 32 }
{
    match period {
        Period::Week => 30,
        Period::Month => 52,
        Period::Quarter => 56,
        Period::Years(_) => 36,
    }
}

/// Adds the periods of a band: a line at each from `top` to `bottom`, and its name there.
pub(crate) fn push_marks(
    text: &mut String,
    band: Band<'_>,
    top: u128,
    bottom: u128,
) -> Result<(), AllocError>
    ensures { OnOk result (string_bytes text.new ≡ string_bytes text.old ++ band_marks band.entry.workdays.now band.entry.span band.entry.period top bottom) }
{
    for place in 0..MOST_PERIODS {
        push_period(text, band, top, bottom, place)?;
    }
    Ok(())
}

/// Adds the names of the periods of a band at this height, as far as they have room before the place `end`.
pub(crate) fn push_names(
    text: &mut String,
    band: Band<'_>,
    end: u128,
    y: u128,
) -> Result<(), AllocError>
    ensures { OnOk result (string_bytes text.new ≡ string_bytes text.old ++ band_names band.entry.workdays.now band.entry.span band.entry.period end y) }
{
    for place in 0..MOST_PERIODS {
        push_name(text, band, end, y, place)?;
    }
    Ok(())
}

/// Adds the period at a place of a band.
fn push_period(
    text: &mut String,
    band: Band<'_>,
    top: u128,
    bottom: u128,
    place: u64,
) -> Result<(), AllocError>
    requires { place < 2 ^ 31 }
    ensures { OnOk result (string_bytes text.new ≡ string_bytes text.old ++ period_mark band.entry.workdays.now band.entry.span band.entry.period top bottom place) }
{
    push_period_line(text, band, top, bottom, place)?;
    push_name(text, band, 1000, bottom, place)?;
    Ok(())
}

/// Adds the line of the period at a place, unless the next begins there too.
fn push_period_line(
    text: &mut String,
    band: Band<'_>,
    top: u128,
    bottom: u128,
    place: u64,
) -> Result<(), AllocError>
    requires { place < 2 ^ 31 }
    ensures { OnOk result (string_bytes text.new ≡ string_bytes text.old ++ period_line band.entry.workdays.now band.entry.span band.entry.period top bottom place) }
{
    let left = band.begin(place);
    if left < band.begin(place + 1) {
        push_line(text, left, top, bottom)
    } else {
        Ok(())
    }
}

/// Adds the name of the period at a place in its middle, if it has room.
#[tactic(auto, unfolding(crate::specs::Bands::period_name))]
fn push_name(
    text: &mut String,
    band: Band<'_>,
    end: u128,
    y: u128,
    place: u64,
) -> Result<(), AllocError>
    requires { place < 2 ^ 31 }
    ensures { OnOk result (string_bytes text.new ≡ string_bytes text.old ++ period_name band.entry.workdays.now band.entry.span band.entry.period end y place) }
{
    let left = band.begin(place);
    let right = min(band.begin(place + 1), end);
    if left + room_of(band.period) <= right {
        let first = band.first_day(place);
        push_named(text, band.period, first, (left + right) / 2, y)
    } else {
        Ok(())
    }
}

/// Adds the name of the period with this first day around a place.
fn push_named(
    text: &mut String,
    period: Period,
    first: u128,
    x: u128,
    y: u128,
) -> Result<(), AllocError>
    requires { first < 2 ^ 100 }
    ensures { OnOk result (string_bytes text.new ≡ string_bytes text.old ++ name_element period first x y) }
{
    push_begin(text, x, y)?;
    period.push_name(text, first)?;
    text.push_str("</text>\n")?;
    Ok(())
}
