//! The phases and the tasks as a table.

ghost use Rattle.std.specs.Prelude.{◌≡◌, ◌<◌, ◌^◌, ◌++◌, OnOk, flat_map, option_map, string_bytes};
ghost use Rattle.racp_report.specs.Pages.{padding, padding_style, phase_row, table_row, task_cells, task_duration, task_row, task_row_begin, task_slack, task_times, yes_text};

use racp_calendar::{Calendar, push_first, push_last};
use racp_charts::{class_of, push_escaped, push_name, push_predecessors};
use racp_show::{Row, Task};
use std::alloc::AllocError;

/// Adds each row.
pub(crate) fn push_rows(
    text: &mut String,
    rows: &[Row<'_>],
    calendar: Calendar<'_>,
) -> Result<(), AllocError>
    ensures { OnOk result (string_bytes text.new ≡ string_bytes text.old ++ flat_map (table_row calendar.entry) rows.now) }
{
    for row in rows {
        push_row(text, row, calendar)?;
    }
    Ok(())
}

/// Adds a row.
fn push_row(text: &mut String, row: &Row<'_>, calendar: Calendar<'_>) -> Result<(), AllocError>
    ensures { OnOk result (string_bytes text.new ≡ string_bytes text.old ++ table_row calendar.entry row.now) }
{
    match row {
        Row::Heading { depth, title } => push_phase(text, *depth, title),
        Row::Bar { depth, task } => push_task(text, *depth, task, calendar),
    }
}

/// Adds the row of a phase.
fn push_phase(text: &mut String, depth: usize, title: &str) -> Result<(), AllocError>
    ensures { OnOk result (string_bytes text.new ≡ string_bytes text.old ++ phase_row depth title.now) }
{
    text.push_str("<tr class=\"phase\"><td class=\"left\" colspan=\"8\"")?;
    push_padding(text, depth)?;
    text.push_str("><b>")?;
    push_escaped(text, title)?;
    text.push_str("</b></td></tr>\n")?;
    Ok(())
}

/// Adds how far in a cell begins that stands in so many phases, if it stands in one.
fn push_padding(text: &mut String, depth: usize) -> Result<(), AllocError>
    ensures { OnOk result (string_bytes text.new ≡ string_bytes text.old ++ padding depth) }
{
    if depth == 0 {
        Ok(())
    } else {
        push_style(text, depth as u128)
    }
}

/// Adds how far in a cell begins that stands in so many phases.
#[tactic(auto, unfolding(crate::specs::Pages::padding_style))]
fn push_style(text: &mut String, depth: u128) -> Result<(), AllocError>
    requires { depth < 2 ^ 64 }
    ensures { OnOk result (string_bytes text.new ≡ string_bytes text.old ++ padding_style depth) }
{
    let blanks = depth * 2;
    write!(text, " style=\"padding-left:{blanks}em\"")
}

/// Adds the row of a task that stands in so many phases.
fn push_task(
    text: &mut String,
    depth: usize,
    task: &Task<'_>,
    calendar: Calendar<'_>,
) -> Result<(), AllocError>
    ensures { OnOk result (string_bytes text.new ≡ string_bytes text.old ++ task_row calendar.entry depth task.now) }
{
    push_begin(text, task)?;
    push_padding(text, depth)?;
    text.push_str(">")?;
    push_name(text, task.name, "task", task.job)?;
    push_cells(text, task, calendar)?;
    push_predecessors(text, task.predecessors.as_slice())?;
    text.push_str("</td></tr>\n")?;
    Ok(())
}

/// Adds the beginning of a task's row.
#[tactic(auto, unfolding(crate::specs::Pages::task_row_begin))]
fn push_begin(text: &mut String, task: &Task<'_>) -> Result<(), AllocError>
    ensures { OnOk result (string_bytes text.new ≡ string_bytes text.old ++ task_row_begin task.now) }
{
    let job = task.job;
    let class = class_of(task);
    write!(
        text,
        "<tr class=\"{class}\"><td class=\"left\">{job}</td><th scope=\"row\""
    )
}

/// Adds the cells of a task, from its duration up to what comes before it.
fn push_cells(text: &mut String, task: &Task<'_>, calendar: Calendar<'_>) -> Result<(), AllocError>
    ensures { OnOk result (string_bytes text.new ≡ string_bytes text.old ++ task_cells calendar.entry task.now) }
{
    push_times(text, task, calendar)?;
    text.push_str(yes_of(task))?;
    text.push_str("</td><td class=\"left\">")?;
    Ok(())
}

/// Adds the cells of a task's times.
fn push_times(text: &mut String, task: &Task<'_>, calendar: Calendar<'_>) -> Result<(), AllocError>
    ensures { OnOk result (string_bytes text.new ≡ string_bytes text.old ++ task_times calendar.entry task.now) }
{
    push_duration(text, task.duration)?;
    push_first(text, calendar, task.start as u128, task.duration as u128)?;
    text.push_str("</td><td>")?;
    push_last(text, calendar, task.start as u128 + task.duration as u128)?;
    push_slack(text, task.latest.saturating_sub(task.start))?;
    Ok(())
}

/// Adds the cell of how long a task takes, and the beginning of the next.
#[tactic(auto, unfolding(crate::specs::Pages::task_duration))]
fn push_duration(text: &mut String, duration: u32) -> Result<(), AllocError>
    ensures { OnOk result (string_bytes text.new ≡ string_bytes text.old ++ task_duration duration) }
{
    write!(text, "</th><td>{duration}</td><td>")
}

/// Adds the end of a cell, that of a task's slack, and the beginning of the next.
#[tactic(auto, unfolding(crate::specs::Pages::task_slack))]
fn push_slack(text: &mut String, slack: u32) -> Result<(), AllocError>
    ensures { OnOk result (string_bytes text.new ≡ string_bytes text.old ++ task_slack slack) }
{
    write!(text, "</td><td>{slack}</td><td class=\"left\">")
}

/// What a table says of whether a task is on the critical chain.
fn yes_of(task: &Task<'_>) -> &'static str
    ensures { result.now ≡ yes_text task.now.is_critical }
{
    if task.is_critical { "yes" } else { "" }
}
