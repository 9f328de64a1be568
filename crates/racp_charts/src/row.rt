//! A row of a chart: a phase or a task.

ghost use Rattle.std.specs.Prelude.{◌≡◌, ◌<◌, ◌≤◌, ◌^◌, ◌++◌, OnOk, option_map, string_bytes};
ghost use Rattle.racp_charts.specs.Drawings.{bar_element, diamond_element, name_columns, name_left, phase_element, phase_middle, row_element, row_middle, shape_element, slack_element, task_element, tip_before, tip_begin, tip_element, tip_slack, tip_times};
ghost use Rattle.racp_charts.specs.Elements.{shape_class};

use crate::axis::Span;
use crate::escape::push_escaped;
use crate::names::{push_name, push_predecessors, push_short, push_within};
use crate::times::push_times;
use racp_calendar::Calendar;
use racp_show::{Predecessor, Row, Task};
use std::alloc::{AllocError, Global};
use std::cmp::min;

/// Adds a row of a chart, which begins at the height `top`.
///
/// # Errors
///
/// Memory was refused.
pub fn push_row(
    alloc: Global,
    text: &mut String,
    row: &Row<'_>,
    span: Span<'_>,
    top: u128,
) -> Result<(), AllocError>
    requires { top < 2 ^ 72 }
    ensures { OnOk result (string_bytes text.new ≡ string_bytes text.old ++ row_element span.entry row.now top) }
{
    match row {
        Row::Heading { depth, title } => push_phase(alloc, text, title, *depth, top),
        Row::Bar { depth, task } => push_task(alloc, text, task, *depth, span, top),
    }
}

/// Adds the row of a phase.
fn push_phase(
    alloc: Global,
    text: &mut String,
    title: &str,
    depth: usize,
    top: u128,
) -> Result<(), AllocError>
    requires { top < 2 ^ 72 }
    ensures { OnOk result (string_bytes text.new ≡ string_bytes text.old ++ phase_element depth title.now top) }
{
    text.push_str("<g><title>")?;
    push_escaped(text, title)?;
    text.push_str("</title>")?;
    push_phase_middle(text, left_of(depth), top)?;
    push_within(alloc, text, title, 100)?;
    text.push_str("</text></g>\n")?;
    Ok(())
}

/// Adds the stripe of a row, and the beginning of the title in it.
#[tactic(auto, unfolding(crate::specs::Drawings::phase_middle))]
fn push_phase_middle(text: &mut String, left: usize, top: u128) -> Result<(), AllocError>
    requires { top < 2 ^ 72 }
    ensures { OnOk result (string_bytes text.new ≡ string_bytes text.old ++ phase_middle left top) }
{
    let stripe = top / 20 % 2;
    let y = top + 14;
    write!(
        text,
        "<rect class=\"stripe{stripe}\" x=\"0\" y=\"{top}\" width=\"1000\" height=\"20\"/>\
         <text class=\"head phase\" x=\"{left}\" y=\"{y}\">"
    )
}

/// Where a name begins that stands in so many phases.
fn left_of(depth: usize) -> usize
    ensures { result ≡ name_left depth }
{
    8 + min(depth, 8) * 12
}

/// How many columns such a name takes at most.
fn columns_of(depth: usize) -> usize
    ensures { result ≡ name_columns depth }
{
    40 - min(depth, 8) * 2
}

/// Adds the row of a task that stands in so many phases.
fn push_task(
    alloc: Global,
    text: &mut String,
    task: &Task<'_>,
    depth: usize,
    span: Span<'_>,
    top: u128,
) -> Result<(), AllocError>
    requires { top < 2 ^ 72 }
    ensures { OnOk result (string_bytes text.new ≡ string_bytes text.old ++ task_element span.entry depth task.now top) }
{
    push_tip(text, task, span.calendar)?;
    push_middle(text, left_of(depth), top)?;
    push_short(alloc, text, task.name, "task", task.job, columns_of(depth))?;
    text.push_str("</text>")?;
    push_slack(text, task, span, top + 10)?;
    push_shape(text, task, span, top + 4)?;
    Ok(())
}

/// Adds the tooltip of a task: its name, when it starts and ends, its slack, and what comes before it.
fn push_tip(text: &mut String, task: &Task<'_>, calendar: Calendar<'_>) -> Result<(), AllocError>
    ensures { OnOk result (string_bytes text.new ≡ string_bytes text.old ++ tip_element calendar.entry task.now) }
{
    text.push_str("<g><title>")?;
    push_name(text, task.name, "task", task.job)?;
    push_tip_times(text, task, calendar)?;
    push_before(text, task.predecessors.as_slice())?;
    text.push_str("</title>")?;
    Ok(())
}

/// Adds the times of a tooltip.
fn push_tip_times(
    text: &mut String,
    task: &Task<'_>,
    calendar: Calendar<'_>,
) -> Result<(), AllocError>
    ensures { OnOk result (string_bytes text.new ≡ string_bytes text.old ++ tip_times calendar.entry task.now) }
{
    push_tip_begin(text, task.job)?;
    push_times(text, calendar, task.start as u128, task.duration as u128)?;
    push_tip_slack(text, task.latest.saturating_sub(task.start))?;
    Ok(())
}

/// Adds the beginning of the times of a tooltip.
#[tactic(auto, unfolding(crate::specs::Drawings::tip_begin))]
fn push_tip_begin(text: &mut String, job: usize) -> Result<(), AllocError>
    ensures { OnOk result (string_bytes text.new ≡ string_bytes text.old ++ tip_begin job) }
{
    write!(text, "\ntask {job}, ")
}

/// Adds the slack in a tooltip.
#[tactic(auto, unfolding(crate::specs::Drawings::tip_slack))]
fn push_tip_slack(text: &mut String, slack: u32) -> Result<(), AllocError>
    ensures { OnOk result (string_bytes text.new ≡ string_bytes text.old ++ tip_slack slack) }
{
    write!(text, ", slack {slack}")
}

/// Adds what a task waits for, if for anything.
fn push_before(text: &mut String, predecessors: &[Predecessor]) -> Result<(), AllocError>
    ensures { OnOk result (string_bytes text.new ≡ string_bytes text.old ++ tip_before predecessors.now) }
{
    if predecessors.is_empty() {
        return Ok(());
    }
    text.push_str(", after ")?;
    push_predecessors(text, predecessors)?;
    Ok(())
}

/// Adds the stripe of a row, and the beginning of the name in it.
#[tactic(auto, unfolding(crate::specs::Drawings::row_middle))]
fn push_middle(text: &mut String, left: usize, top: u128) -> Result<(), AllocError>
    requires { top < 2 ^ 72 }
    ensures { OnOk result (string_bytes text.new ≡ string_bytes text.old ++ row_middle left top) }
{
    let stripe = top / 20 % 2;
    let y = top + 14;
    write!(
        text,
        "<rect class=\"stripe{stripe}\" x=\"0\" y=\"{top}\" width=\"1000\" height=\"20\"/><text x=\"{left}\" y=\"{y}\">"
    )
}

/// Adds the thin line of a task's slack at this height.
#[tactic(auto, unfolding(crate::specs::Drawings::slack_element))]
fn push_slack(text: &mut String, task: &Task<'_>, span: Span<'_>, y: u128) -> Result<(), AllocError>
    ensures { OnOk result (string_bytes text.new ≡ string_bytes text.old ++ slack_element span.entry task.now y) }
{
    let from = span.across(task.start as u128 + task.duration as u128);
    let to = span.across(task.latest as u128 + task.duration as u128);
    write!(text, "<path class=\"slack\" d=\"M{from} {y}H{to}\"/>")
}

/// Adds the bar of a task at this height, or a diamond if it takes no time, and the end of the row.
fn push_shape(
    text: &mut String,
    task: &Task<'_>,
    span: Span<'_>,
    top: u128,
) -> Result<(), AllocError>
    ensures { OnOk result (string_bytes text.new ≡ string_bytes text.old ++ shape_element span.entry task.now top) }
{
    let x = span.across(task.start as u128);
    let class = class_of(task);
    if task.duration == 0 {
        return push_diamond(text, class, x, top);
    }
    let end = span.across(task.start as u128 + task.duration as u128);
    push_bar(text, class, x, end.saturating_sub(x).max(1), top)
}

/// What a task's shape is called, by which it gets its colour.
pub fn class_of(task: &Task<'_>) -> &'static str
    ensures { result.now ≡ shape_class task.now.is_critical }
{
    if task.is_critical { "critical" } else { "bar" }
}

/// Adds a bar, and the end of the row.
#[tactic(auto, unfolding(crate::specs::Drawings::bar_element))]
fn push_bar(text: &mut String, class: &str, x: u128, width: u128, y: u128) -> Result<(), AllocError>
    ensures { OnOk result (string_bytes text.new ≡ string_bytes text.old ++ bar_element class.now x width y) }
{
    write!(
        text,
        "<rect class=\"{class}\" x=\"{x}\" y=\"{y}\" width=\"{width}\" height=\"12\" rx=\"2\"/></g>\n"
    )
}

/// Adds a diamond, and the end of the row.
#[tactic(auto, unfolding(crate::specs::Drawings::diamond_element))]
fn push_diamond(text: &mut String, class: &str, x: u128, y: u128) -> Result<(), AllocError>
    ensures { OnOk result (string_bytes text.new ≡ string_bytes text.old ++ diamond_element class.now x y) }
{
    write!(
        text,
        "<path class=\"{class}\" d=\"M{x} {y}l6 6l-6 6l-6 -6z\"/></g>\n"
    )
}
