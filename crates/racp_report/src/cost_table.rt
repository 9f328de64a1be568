//! What deadlines cost, as a table.

ghost use Rattle.std.specs.Prelude.{◌≡◌, ◌++◌, OnOk, flat_map, string_bytes};
ghost use Rattle.racp_report.specs.Pages.{cost_cells, cost_row, cost_section, cost_table, cost_text, unit_text};

use crate::cost_chart::push_cost_figure;
use crate::report::Report;
use racp_calendar::{Calendar, push_last};
use racp_json::Step;
use std::alloc::{AllocError, Global};

/// Adds what deadlines cost, if anything is known of it.
pub(crate) fn push_curve(
    alloc: Global,
    text: &mut String,
    report: &Report<'_>,
) -> Result<(), AllocError>
    ensures { OnOk result (string_bytes text.new ≡ string_bytes text.old ++
        cost_section report.now.plan.calendar report.now.plan.deadline report.now.costs.items) }
{
    if report.costs.is_empty() {
        return Ok(());
    }
    let plan = &report.plan;
    push_cost_table(
        alloc,
        text,
        report.costs.as_slice(),
        plan.deadline,
        plan.calendar,
    )
}

/// Adds what deadlines cost.
fn push_cost_table(
    alloc: Global,
    text: &mut String,
    costs: &[Step],
    deadline: u32,
    calendar: Calendar<'_>,
) -> Result<(), AllocError>
    ensures { OnOk result (string_bytes text.new ≡ string_bytes text.old ++ cost_table calendar.entry deadline costs.now) }
{
    text.push_str("<h2>What each deadline costs</h2>\n")?;
    push_cost_figure(alloc, text, costs, deadline, calendar)?;
    text.push_str(
        "<div class=\"wide\"><table>\n<thead><tr><th>From deadline</th><th>Cost</th><th>Units of each resource</th>\
         </tr></thead>\n<tbody>\n",
    )?;
    push_rows(text, costs, calendar)?;
    text.push_str("</tbody></table></div>\n")?;
    Ok(())
}

/// Adds a row for each step.
fn push_rows(text: &mut String, costs: &[Step], calendar: Calendar<'_>) -> Result<(), AllocError>
    ensures { OnOk result (string_bytes text.new ≡ string_bytes text.old ++ flat_map (cost_row calendar.entry) costs.now) }
{
    for step in costs {
        push_row(text, step, calendar)?;
    }
    Ok(())
}

/// Adds the row of a step.
fn push_row(text: &mut String, step: &Step, calendar: Calendar<'_>) -> Result<(), AllocError>
    ensures { OnOk result (string_bytes text.new ≡ string_bytes text.old ++ cost_row calendar.entry step.now) }
{
    push_cells(text, step, calendar)?;
    push_units(text, step.capacities.as_slice())?;
    text.push_str("</td></tr>\n")?;
    Ok(())
}

/// Adds the deadline and the cost of a step.
fn push_cells(text: &mut String, step: &Step, calendar: Calendar<'_>) -> Result<(), AllocError>
    ensures { OnOk result (string_bytes text.new ≡ string_bytes text.old ++ cost_cells calendar.entry step.now) }
{
    text.push_str("<tr><td class=\"left\">")?;
    push_last(text, calendar, step.deadline as u128)?;
    push_cost(text, step.cost)?;
    Ok(())
}

/// Adds the end of a cell, that of a cost, and the beginning of the next.
#[tactic(auto, unfolding(crate::specs::Pages::cost_text))]
fn push_cost(text: &mut String, cost: u64) -> Result<(), AllocError>
    ensures { OnOk result (string_bytes text.new ≡ string_bytes text.old ++ cost_text cost) }
{
    write!(text, "</td><td>{cost}</td><td>")
}

/// Adds how many units there are of each resource, with a blank before each.
fn push_units(text: &mut String, units: &[u64]) -> Result<(), AllocError>
    ensures { OnOk result (string_bytes text.new ≡ string_bytes text.old ++ flat_map unit_text units.now) }
{
    for count in units {
        push_unit(text, *count)?;
    }
    Ok(())
}

/// Adds a number, with a blank before it.
#[tactic(auto, unfolding(crate::specs::Pages::unit_text))]
fn push_unit(text: &mut String, count: u64) -> Result<(), AllocError>
    ensures { OnOk result (string_bytes text.new ≡ string_bytes text.old ++ unit_text count) }
{
    write!(text, " {count}")
}
