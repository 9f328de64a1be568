//! What deadlines cost, as a drawing.

ghost use Rattle.std.specs.Prelude.{◌≡◌, ◌<◌, ◌^◌, ◌++◌, ◌≤◌, OnOk, string_bytes};
ghost use Rattle.racp_charts.specs.Texts.{texts_before};
ghost use Rattle.racp_charts.specs.CostDrawings.{cost_axis, cost_corners, cost_down, cost_element, cost_mark, cost_stair, cost_steps, costs_element, costs_in, corner_begin, corner_element, corner_end, corner_words, deadline_name, first_deadline, most_cost};

use crate::axis::{Span, push_axis, push_place, push_step};
use crate::labels::push_labels;
use crate::mark::{MOST_MARKS, mark_of};
use racp_calendar::{Calendar, push_last};
use std::alloc::AllocError;
use std::cmp::{max, min};

/// A deadline from which on a plan costs so much.
#[derive(Clone, Copy)]
pub struct Corner {
    /// The deadline, in time units.
    pub deadline: u64,
    /// What the plan costs.
    pub cost: u64,
}

/// Adds what deadlines cost, from the first of these corners up to a last deadline: a stair, whose last step goes on a
/// little behind that deadline, and the cost of each corner as a tooltip, and beside it where there is room. The
/// corners rise by deadline. It is 290 high.
///
/// # Errors
///
/// Memory was refused.
pub fn push_costs(
    text: &mut String,
    corners: &[Corner],
    last: u32,
    calendar: Calendar<'_>,
) -> Result<(), AllocError>
    ensures { OnOk result (string_bytes text.new ≡ string_bytes text.old ++ costs_element calendar.entry corners.now last) }
{
    let span = Span {
        first: first_deadline(corners, last),
        last,
        calendar,
        of_ends: true,
    };
    push_in(text, corners, span, most_cost(corners))
}

/// Adds what deadlines cost in this span, up to this cost.
fn push_in(
    text: &mut String,
    corners: &[Corner],
    span: Span<'_>,
    most: u64,
) -> Result<(), AllocError>
    requires { 1 ≤ most }
    ensures { OnOk result (string_bytes text.new ≡ string_bytes text.old ++ costs_in span.entry most corners.now) }
{
    push_cost_axis(text, span.calendar, most)?;
    push_axis(text, span, 30, 250)?;
    push_stair(text, corners, span, most)?;
    push_corners(text, corners, span, most)?;
    push_labels(text, corners, span, most)?;
    Ok(())
}

/// The deadline of the first corner, or this one if that is sooner or there is none.
fn first_deadline(corners: &[Corner], last: u32) -> u32
    ensures { result ≡ first_deadline corners.now last }
{
    if corners.is_empty() {
        return last;
    }
    min(corners[0].deadline, last as u64) as u32
}

/// The greatest cost, and at least 1.
fn most_cost(corners: &[Corner]) -> u64
    ensures most { result ≡ most_cost corners.now }
    ensures some { 1 ≤ result }
{
    let mut most = 1;
    for corner in corners {
        most = max(most, corner.cost);
    }
    most
}

/// Where a cost is drawn, from above: the costs are drawn from 250 up to 50.
pub(crate) fn down(cost: u64, most: u64) -> u128
    requires { 1 ≤ most }
    ensures place { result ≡ cost_down most cost }
    ensures within { result ≤ 250 }
{
    250u128.saturating_sub(cost as u128 * 200 / most as u128)
}

/// Adds the axis of costs, and what both axes are called.
fn push_cost_axis(text: &mut String, calendar: Calendar<'_>, most: u64) -> Result<(), AllocError>
    requires { 1 ≤ most }
    ensures { OnOk result (string_bytes text.new ≡ string_bytes text.old ++ cost_axis calendar.entry most) }
{
    push_cost_marks(text, most)?;
    text.push_str(
        "<text class=\"end\" x=\"264\" y=\"20\">cost</text>\
         <text class=\"end\" x=\"994\" y=\"283\">",
    )?;
    text.push_str(deadline_name(calendar))?;
    text.push_str("</text>\n")?;
    Ok(())
}

/// What the axis of deadlines is called: dates are their last days.
fn deadline_name(calendar: Calendar<'_>) -> &'static str
    ensures { result.now ≡ deadline_name calendar.entry }
{
    match calendar {
        Calendar::Numbers => "deadline",
        Calendar::Dates(_) => "last day",
    }
}

/// Adds the numbers of the axis of costs.
fn push_cost_marks(text: &mut String, most: u64) -> Result<(), AllocError>
    requires { 1 ≤ most }
    ensures { OnOk result (string_bytes text.new ≡ string_bytes text.old ++ texts_before (cost_mark most) 13) }
{
    for place in 0..MOST_MARKS + 1 {
        push_cost_mark(text, most, place)?;
    }
    Ok(())
}

/// Adds the number at this place of the axis of costs, from 0, if it is no greater than the greatest cost.
fn push_cost_mark(text: &mut String, most: u64, place: u64) -> Result<(), AllocError>
    requires some { 1 ≤ most }
    requires place { place < 2 ^ 32 }
    ensures { OnOk result (string_bytes text.new ≡ string_bytes text.old ++ cost_mark most place) }
{
    let cost = mark_of(most) * place as u128;
    if cost <= most as u128 {
        push_cost(text, cost, down(cost as u64, most))
    } else {
        Ok(())
    }
}

/// Adds a number of the axis of costs: a line at the height `y`, and the number.
#[tactic(auto, unfolding(crate::specs::CostDrawings::cost_element))]
fn push_cost(text: &mut String, cost: u128, y: u128) -> Result<(), AllocError>
    requires { y < 2 ^ 32 }
    ensures { OnOk result (string_bytes text.new ≡ string_bytes text.old ++ cost_element cost y) }
{
    let base = y + 4;
    write!(
        text,
        "<path class=\"line\" d=\"M270 {y}H994\"/><text class=\"end\" x=\"264\" y=\"{base}\">{cost}</text>\n"
    )
}

/// Adds the stair of the costs.
fn push_stair(
    text: &mut String,
    corners: &[Corner],
    span: Span<'_>,
    most: u64,
) -> Result<(), AllocError>
    requires { 1 ≤ most }
    ensures { OnOk result (string_bytes text.new ≡ string_bytes text.old ++ cost_stair span.entry most corners.now) }
{
    text.push_str("<path class=\"used\" d=\"")?;
    push_place(text, 270, 250)?;
    push_steps(text, corners, span, most)?;
    text.push_str("H994V250Z\"/>\n")?;
    Ok(())
}

/// Adds the steps of the stair.
fn push_steps(
    text: &mut String,
    corners: &[Corner],
    span: Span<'_>,
    most: u64,
) -> Result<(), AllocError>
    requires { 1 ≤ most }
    ensures { OnOk result (string_bytes text.new ≡ string_bytes text.old ++ cost_steps span.entry most corners.now) }
{
    for corner in corners {
        let x = span.across(corner.deadline as u128);
        push_step(text, x, down(corner.cost, most))?;
    }
    Ok(())
}

/// Adds the corners.
fn push_corners(
    text: &mut String,
    corners: &[Corner],
    span: Span<'_>,
    most: u64,
) -> Result<(), AllocError>
    requires { 1 ≤ most }
    ensures { OnOk result (string_bytes text.new ≡ string_bytes text.old ++ cost_corners span.entry most corners.now) }
{
    for corner in corners {
        let x = span.across(corner.deadline as u128);
        push_corner(text, x, down(corner.cost, most), corner, span.calendar)?;
    }
    Ok(())
}

/// Adds a corner at a place; its deadline and its cost are the tooltip.
fn push_corner(
    text: &mut String,
    x: u128,
    y: u128,
    corner: &Corner,
    calendar: Calendar<'_>,
) -> Result<(), AllocError>
    ensures { OnOk result (string_bytes text.new ≡ string_bytes text.old ++ corner_element calendar.entry x y corner.now) }
{
    push_corner_begin(text, x, y)?;
    text.push_str(corner_words(calendar))?;
    push_last(text, calendar, corner.deadline as u128)?;
    push_corner_end(text, corner.cost)?;
    Ok(())
}

/// What stands before the deadline of a corner: a day is one by whose evening it is kept.
fn corner_words(calendar: Calendar<'_>) -> &'static str
    ensures { result.now ≡ corner_words calendar.entry }
{
    match calendar {
        Calendar::Numbers => "from ",
        Calendar::Dates(_) => "by the evening of ",
    }
}

/// Adds the beginning of a corner at a place.
#[tactic(auto, unfolding(crate::specs::CostDrawings::corner_begin))]
fn push_corner_begin(text: &mut String, x: u128, y: u128) -> Result<(), AllocError>
    ensures { OnOk result (string_bytes text.new ≡ string_bytes text.old ++ corner_begin x y) }
{
    write!(
        text,
        "<circle class=\"critical\" cx=\"{x}\" cy=\"{y}\" r=\"4\"><title>"
    )
}

/// Adds the cost of a corner, and its end.
#[tactic(auto, unfolding(crate::specs::CostDrawings::corner_end))]
fn push_corner_end(text: &mut String, cost: u64) -> Result<(), AllocError>
    ensures { OnOk result (string_bytes text.new ≡ string_bytes text.old ++ corner_end cost) }
{
    write!(text, ": {cost}</title></circle>\n")
}
