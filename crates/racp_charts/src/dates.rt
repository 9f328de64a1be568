//! Axes of dates.

ghost use Rattle.std.specs.Prelude.{◌≡◌, ◌<◌, ◌^◌, ◌++◌, OnOk, string_bytes};
ghost use Rattle.racp_charts.specs.Bands.{date_axis, dates_above, days_in, free_line, free_mark, free_marks, has_bands, has_weeks, long_period, week_axis, weeks_above};

use crate::axis::Span;
use crate::bands::{Band, push_marks, push_names};
use crate::mark::mark_of;
use racp_calendar::{LAST_NUMBER, Period, Workdays};
use std::alloc::AllocError;
use std::cmp::min;

/// How many days an axis has at most that has weeks, and shows free days.
const MOST_DAYS: u64 = 150;

/// Whether an axis is one of dates: it has more than one time, and its last day has a date.
pub(crate) fn has_bands(calendar: &Workdays, span: Span<'_>) -> bool
    ensures { result ≡ has_bands calendar.now span.entry }
{
    span.first < span.last && calendar.end_number(span.last as u128) <= LAST_NUMBER
}

/// How many days the last day of an axis is after its first.
fn days_in(calendar: &Workdays, span: Span<'_>) -> u128
    ensures { result ≡ days_in calendar.now span.entry }
{
    calendar
        .end_number(span.last as u128)
        .saturating_sub(calendar.start_number(span.first as u128))
}

/// Whether an axis has weeks, and shows free days: it has at most 150 days.
fn has_weeks(days: u128) -> bool
    ensures { result ≡ has_weeks days }
{
    days < MOST_DAYS as u128
}

/// The months of an axis, its quarters if it has more than 366 days, its years if more than 1,098.
fn long_period(days: u128) -> Period
    ensures { result ≡ long_period days }
{
    if days < 366 {
        Period::Month
    } else if days < 1098 {
        Period::Quarter
    } else {
        Period::Years(mark_of((min(days, LAST_NUMBER) / 365) as u64) as u64)
    }
}

/// Adds the axis of dates below a chart that goes from `top` to `bottom`.
pub(crate) fn push_date_axis(
    text: &mut String,
    workdays: &Workdays,
    span: Span<'_>,
    top: u128,
    bottom: u128,
) -> Result<(), AllocError>
    requires { bottom < 2 ^ 72 }
    ensures { OnOk result (string_bytes text.new ≡ string_bytes text.old ++ date_axis workdays.now span.entry top bottom) }
{
    let days = days_in(workdays, span);
    if has_weeks(days) {
        return push_week_axis(text, workdays, span, top, bottom);
    }
    let band = Band {
        workdays,
        span,
        period: long_period(days),
    };
    push_marks(text, band, top, bottom + 15)
}

/// Adds an axis of weeks and below them months, and free days.
fn push_week_axis(
    text: &mut String,
    workdays: &Workdays,
    span: Span<'_>,
    top: u128,
    bottom: u128,
) -> Result<(), AllocError>
    requires { bottom < 2 ^ 72 }
    ensures { OnOk result (string_bytes text.new ≡ string_bytes text.old ++ week_axis workdays.now span.entry top bottom) }
{
    let weeks = Band {
        workdays,
        span,
        period: Period::Week,
    };
    let months = Band {
        workdays,
        span,
        period: Period::Month,
    };
    push_free_marks(text, workdays, span, top, bottom)?;
    push_marks(text, weeks, top, bottom + 11)?;
    push_marks(text, months, bottom + 13, bottom + 23)?;
    Ok(())
}

/// Adds what stands at this height above a chart.
pub(crate) fn push_dates_above(
    text: &mut String,
    workdays: &Workdays,
    span: Span<'_>,
    y: u128,
) -> Result<(), AllocError>
    ensures { OnOk result (string_bytes text.new ≡ string_bytes text.old ++ dates_above workdays.now span.entry y) }
{
    let days = days_in(workdays, span);
    if has_weeks(days) {
        return push_weeks_above(text, workdays, span, y);
    }
    let band = Band {
        workdays,
        span,
        period: long_period(days),
    };
    push_names(text, band, 1000, y)
}

/// Adds weeks at this height above a chart, and months above them, which leave room for the deadline.
fn push_weeks_above(
    text: &mut String,
    workdays: &Workdays,
    span: Span<'_>,
    y: u128,
) -> Result<(), AllocError>
    ensures { OnOk result (string_bytes text.new ≡ string_bytes text.old ++ weeks_above workdays.now span.entry y) }
{
    let weeks = Band {
        workdays,
        span,
        period: Period::Week,
    };
    let months = Band {
        workdays,
        span,
        period: Period::Month,
    };
    push_names(text, weeks, 1000, y)?;
    push_names(text, months, 850, y.saturating_sub(16))?;
    Ok(())
}

/// Adds the free days between the working days of an axis.
fn push_free_marks(
    text: &mut String,
    workdays: &Workdays,
    span: Span<'_>,
    top: u128,
    bottom: u128,
) -> Result<(), AllocError>
    ensures { OnOk result (string_bytes text.new ≡ string_bytes text.old ++ free_marks workdays.now span.entry top bottom) }
{
    for place in 0..MOST_DAYS {
        push_free_mark(text, workdays, span, top, bottom, place)?;
    }
    Ok(())
}

/// Adds the free days before the time at a place of an axis, if there are some, and it is between the first and the last.
#[tactic(auto, unfolding(crate::specs::Bands::free_mark))]
fn push_free_mark(
    text: &mut String,
    workdays: &Workdays,
    span: Span<'_>,
    top: u128,
    bottom: u128,
    place: u64,
) -> Result<(), AllocError>
    requires { place < 2 ^ 32 }
    ensures { OnOk result (string_bytes text.new ≡ string_bytes text.old ++ free_mark workdays.now span.entry top bottom place) }
{
    let time = span.first as u128 + place as u128 + 1;
    let days = workdays.free_before(time);
    if time < span.last as u128 && days > 0 {
        push_free_line(text, min(days, 6) + 1, span.across(time), top, bottom)
    } else {
        Ok(())
    }
}

/// Adds the line that stands for free days.
#[tactic(auto, unfolding(crate::specs::Bands::free_line))]
fn push_free_line(
    text: &mut String,
    width: u64,
    x: u128,
    top: u128,
    bottom: u128,
) -> Result<(), AllocError>
    ensures { OnOk result (string_bytes text.new ≡ string_bytes text.old ++ free_line width x top bottom) }
{
    write!(
        text,
        "<path class=\"line\" stroke-width=\"{width}\" d=\"M{x} {top}V{bottom}\"/>\n"
    )
}
