//! A report as a page.

ghost use Rattle.std.specs.Prelude.{◌≡◌, ◌++◌, IfOk, OnOk, string_bytes};
ghost use Rattle.racp_report.specs.Pages.{IsPage, body_of, charts, choice_table, task_table, time_titles};

use crate::change_table::push_changes;
use crate::chart::push_chart;
use crate::choice_table::{push_choices, push_total};
use crate::cost_table::push_curve;
use crate::heading::{push_checking, push_heading, push_opening};
use crate::key::push_key_figure;
use crate::panels::push_panels;
use crate::report::Report;
use crate::style::PAGE_STYLE;
use crate::task_table::push_rows;
use racp_calendar::Calendar;
use racp_charts::{STYLE, Span};
use std::alloc::{AllocError, Global};

/// A report as a page in HTML, in UTF-8, which needs nothing from elsewhere. No name stands in it with a character that
/// means something else in HTML. Its length grows with the jobs, the pairs, the resources, the lines of a curve and
/// those of changes, and not with the deadline.
///
/// # Errors
///
/// Memory was refused.
pub fn report_text(alloc: Global, report: &Report<'_>) -> Result<String, AllocError>
    ensures { IfOk result (λ text. IsPage report.now text) }
{
    let mut text = String::new(alloc);
    push_opening(&mut text, &report.plan)?;
    text.push_str(STYLE)?;
    text.push_str(PAGE_STYLE)?;
    push_body(alloc, &mut text, report)?;
    Ok(text)
}

/// Adds all of a page that stands behind its style.
fn push_body(alloc: Global, text: &mut String, report: &Report<'_>) -> Result<(), AllocError>
    ensures { OnOk result (string_bytes text.new ≡ string_bytes text.old ++ body_of report.now) }
{
    push_heading(text, &report.plan, report.claim)?;
    push_choice_table(text, report)?;
    push_charts(alloc, text, report)?;
    push_task_table(text, report)?;
    push_curve(alloc, text, report)?;
    push_changes(text, report.changes)?;
    push_checking(text)?;
    Ok(())
}

/// Adds the table of the resources.
fn push_choice_table(text: &mut String, report: &Report<'_>) -> Result<(), AllocError>
    ensures { OnOk result (string_bytes text.new ≡ string_bytes text.old ++ choice_table report.now) }
{
    text.push_str(
        "<h2>What to have</h2>\n<div class=\"wide\"><table>\n<thead><tr><th>Resource</th><th>Units</th><th>Owned</th>\
         <th>Price</th><th>Cost</th><th>Busy</th></tr></thead>\n<tbody>\n",
    )?;
    push_choices(text, report.plan.choices.as_slice())?;
    push_total(text, report.plan.cost)?;
    Ok(())
}

/// Adds the charts of the tasks and of the resources.
fn push_charts(alloc: Global, text: &mut String, report: &Report<'_>) -> Result<(), AllocError>
    ensures { OnOk result (string_bytes text.new ≡ string_bytes text.old ++ charts report.now) }
{
    let span = Span {
        first: 0,
        last: report.plan.deadline,
        calendar: report.plan.calendar,
        of_ends: false,
    };
    text.push_str("<h2>When each task runs</h2>\n")?;
    push_key_figure(text)?;
    push_chart(alloc, text, report.plan.rows.as_slice(), span)?;
    text.push_str("<h2>How much of each resource is used</h2>\n")?;
    push_panels(alloc, text, report.plan.choices.as_slice(), span)?;
    Ok(())
}

/// Adds the table of the tasks.
fn push_task_table(text: &mut String, report: &Report<'_>) -> Result<(), AllocError>
    ensures { OnOk result (string_bytes text.new ≡ string_bytes text.old ++ task_table report.now) }
{
    text.push_str(
        "<h2>The tasks</h2>\n<div class=\"wide\"><table>\n<thead><tr><th>No.</th><th class=\"left\">Task</th>\
         <th>Duration</th>",
    )?;
    text.push_str(time_titles(report.plan.calendar))?;
    text.push_str(
        "<th>Slack</th><th class=\"left\">Critical</th><th class=\"left\">After</th></tr></thead>\n<tbody>\n",
    )?;
    push_rows(text, report.plan.rows.as_slice(), report.plan.calendar)?;
    text.push_str("</tbody></table></div>\n")?;
    Ok(())
}

/// What the columns of the times of a task are called.
fn time_titles(calendar: Calendar<'_>) -> &'static str
    ensures { result.now ≡ time_titles calendar.entry }
{
    match calendar {
        Calendar::Numbers => "<th>Start</th><th>End</th>",
        Calendar::Dates(_) => "<th>First day</th><th>Last day</th>",
    }
}
