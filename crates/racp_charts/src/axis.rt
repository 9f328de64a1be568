//! The times of a chart, and the elements that charts share. Places are in units of the drawing, from the left and from
//! above, and have 128 bits, so that no sum and no product is too great for them.

ghost use Rattle.std.specs.Prelude.{◌≡◌, ◌<◌, ◌≤◌, ◌^◌, ◌++◌, OnOk, string_bytes};
ghost use Rattle.racp_charts.specs.Axes.{across, axis_mark, axis_time, mark_begin, mark_element, mark_line, mark_number, number_axis, numbers_above, time_above, time_below, told_time};
ghost use Rattle.racp_charts.specs.Drawings.{axis, axis_above, deadline_label, deadline_line, place_text, scale_element, step_text};

use crate::dates::{has_bands, push_date_axis, push_dates_above};
use crate::mark::{MOST_MARKS, mark_of};
use racp_calendar::{Calendar, push_first, push_last};
use std::alloc::AllocError;
use std::cmp::min;

/// The times that a chart has, in time units.
#[derive(Clone, Copy)]
pub struct Span<'a> {
    /// The first time.
    pub first: u32,
    /// The last time.
    pub last: u32,
    /// How times are told.
    pub calendar: Calendar<'a>,
    /// Whether the times of an axis are deadlines, which are told by last days, and not starts.
    pub of_ends: bool,
}

impl Span<'_> {
    /// Where a time is drawn, from the left: the first is drawn at 270 and the last at 970, and times before and after
    /// them there too.
    pub(crate) fn across(self, time: u128) -> u128
        ensures place { result ≡ across self.entry time }
        ensures within { result ≤ 970 }
    {
        let all = self.last.saturating_sub(self.first) as u128;
        if all == 0 {
            return 270;
        }
        270 + min(time.saturating_sub(self.first as u128), all) * 700 / all
    }

    /// How much later each number of an axis is than the one before; dates, which are wider, have twice the room.
    fn apart(self) -> u128
        ensures mark { result ≡ axis_mark self.entry }
        ensures some { 1 ≤ result }
        ensures small { result < 2 ^ 62 }
    {
        let all = self.last.saturating_sub(self.first) as u64;
        match self.calendar {
            Calendar::Numbers => mark_of(all),
            Calendar::Dates(_) => mark_of(all * 2),
        }
    }

    /// The time of the number at this place of an axis, from 0.
    fn mark(self, place: u64) -> u128
        requires { place < 2 ^ 32 }
        ensures { result ≡ axis_time self.entry place }
    {
        let mark = self.apart();
        ((self.first as u128).div_ceil(mark) + place as u128) * mark
    }
}

/// Adds the axis of times below a chart that goes from `top` to `bottom`: numbers, or weeks, months and years, and a line up at
/// each.
pub(crate) fn push_axis(
    text: &mut String,
    span: Span<'_>,
    top: u128,
    bottom: u128,
) -> Result<(), AllocError>
    requires { bottom < 2 ^ 72 }
    ensures { OnOk result (string_bytes text.new ≡ string_bytes text.old ++ axis span.entry top bottom) }
{
    match span.calendar {
        Calendar::Numbers => push_number_axis(text, span, top, bottom),
        Calendar::Dates(workdays) => {
            if has_bands(workdays, span) {
                push_date_axis(text, workdays, span, top, bottom)
            } else {
                push_number_axis(text, span, top, bottom)
            }
        }
    }
}

/// Adds an axis of times one by one.
fn push_number_axis(
    text: &mut String,
    span: Span<'_>,
    top: u128,
    bottom: u128,
) -> Result<(), AllocError>
    requires { bottom < 2 ^ 72 }
    ensures { OnOk result (string_bytes text.new ≡ string_bytes text.old ++ number_axis span.entry top bottom) }
{
    for place in 0..MOST_MARKS + 1 {
        push_below(text, span, top, bottom, place)?;
    }
    Ok(())
}

/// Adds the number at this place of the axis below, from 0, if it is no later than the last time.
fn push_below(
    text: &mut String,
    span: Span<'_>,
    top: u128,
    bottom: u128,
    place: u64,
) -> Result<(), AllocError>
    requires place { place < 2 ^ 32 }
    requires bottom { bottom < 2 ^ 72 }
    ensures { OnOk result (string_bytes text.new ≡ string_bytes text.old ++ time_below span.entry top bottom place) }
{
    let time = span.mark(place);
    if time <= span.last as u128 {
        push_mark(text, span, time, top, bottom)
    } else {
        Ok(())
    }
}

/// Adds a time below a chart, and the line at it.
fn push_mark(
    text: &mut String,
    span: Span<'_>,
    time: u128,
    top: u128,
    bottom: u128,
) -> Result<(), AllocError>
    requires { bottom < 2 ^ 72 }
    ensures { OnOk result (string_bytes text.new ≡ string_bytes text.old ++ mark_element span.entry time top bottom) }
{
    push_line(text, span.across(time), top, bottom)?;
    push_number(text, span, time, bottom + 15)?;
    Ok(())
}

/// Adds the axis of times at this height above a chart.
pub(crate) fn push_above(text: &mut String, span: Span<'_>, y: u128) -> Result<(), AllocError>
    ensures { OnOk result (string_bytes text.new ≡ string_bytes text.old ++ axis_above span.entry y) }
{
    match span.calendar {
        Calendar::Numbers => push_numbers_above(text, span, y),
        Calendar::Dates(workdays) => {
            if has_bands(workdays, span) {
                push_dates_above(text, workdays, span, y)
            } else {
                push_numbers_above(text, span, y)
            }
        }
    }
}

/// Adds the times of an axis one by one at this height above a chart.
fn push_numbers_above(text: &mut String, span: Span<'_>, y: u128) -> Result<(), AllocError>
    ensures { OnOk result (string_bytes text.new ≡ string_bytes text.old ++ numbers_above span.entry y) }
{
    for place in 0..MOST_MARKS + 1 {
        push_time_above(text, span, y, place)?;
    }
    Ok(())
}

/// Adds the number at this place of the axis above, from 0, if it is no later than the last time.
fn push_time_above(text: &mut String, span: Span<'_>, y: u128, place: u64) -> Result<(), AllocError>
    requires { place < 2 ^ 32 }
    ensures { OnOk result (string_bytes text.new ≡ string_bytes text.old ++ time_above span.entry y place) }
{
    let time = span.mark(place);
    if time <= span.last as u128 {
        push_number(text, span, time, y)
    } else {
        Ok(())
    }
}

/// Adds the line at `x` from `top` to `bottom`.
#[tactic(auto, unfolding(crate::specs::Axes::mark_line))]
pub(crate) fn push_line(
    text: &mut String,
    x: u128,
    top: u128,
    bottom: u128,
) -> Result<(), AllocError>
    ensures { OnOk result (string_bytes text.new ≡ string_bytes text.old ++ mark_line x top bottom) }
{
    write!(text, "<path class=\"line\" d=\"M{x} {top}V{bottom}\"/>")
}

/// Adds a time at its place.
fn push_number(text: &mut String, span: Span<'_>, time: u128, y: u128) -> Result<(), AllocError>
    ensures { OnOk result (string_bytes text.new ≡ string_bytes text.old ++ mark_number span.entry time y) }
{
    push_begin(text, span.across(time), y)?;
    push_told(text, span, time)?;
    text.push_str("</text>\n")?;
    Ok(())
}

/// Adds a time as an axis tells it: by the first day of what starts then, or by the last day of what ends.
fn push_told(text: &mut String, span: Span<'_>, time: u128) -> Result<(), AllocError>
    ensures { OnOk result (string_bytes text.new ≡ string_bytes text.old ++ told_time span.entry time) }
{
    if span.of_ends {
        push_last(text, span.calendar, time)
    } else {
        push_first(text, span.calendar, time, 1)
    }
}

/// Adds the beginning of a number at a place.
#[tactic(auto, unfolding(crate::specs::Axes::mark_begin))]
pub(crate) fn push_begin(text: &mut String, x: u128, y: u128) -> Result<(), AllocError>
    ensures { OnOk result (string_bytes text.new ≡ string_bytes text.old ++ mark_begin x y) }
{
    write!(text, "<text class=\"mark\" x=\"{x}\" y=\"{y}\">")
}

/// Adds the line of the deadline, from `top` to `bottom`.
#[tactic(auto, unfolding(crate::specs::Drawings::deadline_line))]
pub(crate) fn push_deadline(text: &mut String, top: u128, bottom: u128) -> Result<(), AllocError>
    ensures { OnOk result (string_bytes text.new ≡ string_bytes text.old ++ deadline_line top bottom) }
{
    write!(
        text,
        "<path class=\"deadline\" d=\"M970 {top}V{bottom}\"/>\n"
    )
}

/// Adds the deadline above its line.
pub(crate) fn push_deadline_label(text: &mut String, span: Span<'_>) -> Result<(), AllocError>
    ensures { OnOk result (string_bytes text.new ≡ string_bytes text.old ++ deadline_label span.entry) }
{
    text.push_str("<text class=\"end\" x=\"990\" y=\"18\">deadline ")?;
    push_last(text, span.calendar, span.last as u128)?;
    text.push_str("</text>\n")?;
    Ok(())
}

/// Adds the numbers at the left of a chart: the greatest at the height `top`, and 0 at `bottom`.
#[tactic(auto, unfolding(crate::specs::Drawings::scale_element))]
pub(crate) fn push_scale(
    text: &mut String,
    most: u64,
    top: u128,
    bottom: u128,
) -> Result<(), AllocError>
    ensures { OnOk result (string_bytes text.new ≡ string_bytes text.old ++ scale_element most top bottom) }
{
    write!(
        text,
        "<text class=\"end\" x=\"264\" y=\"{top}\">{most}</text>\
         <text class=\"end\" x=\"264\" y=\"{bottom}\">0</text>\n"
    )
}

/// Adds where a stair begins.
#[tactic(auto, unfolding(crate::specs::Drawings::place_text))]
pub(crate) fn push_place(text: &mut String, x: u128, y: u128) -> Result<(), AllocError>
    ensures { OnOk result (string_bytes text.new ≡ string_bytes text.old ++ place_text x y) }
{
    write!(text, "M{x} {y}")
}

/// Adds a step of a stair: across to `x`, and up or down to `y`.
#[tactic(auto, unfolding(crate::specs::Drawings::step_text))]
pub(crate) fn push_step(text: &mut String, x: u128, y: u128) -> Result<(), AllocError>
    ensures { OnOk result (string_bytes text.new ≡ string_bytes text.old ++ step_text x y) }
{
    write!(text, "H{x}V{y}")
}
