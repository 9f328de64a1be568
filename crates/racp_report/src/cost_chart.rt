//! What deadlines cost, as a chart.

ghost use Rattle.std.specs.Prelude.{◌≡◌, ◌++◌, IfOk, OnOk, map, string_bytes};
ghost use Rattle.racp_report.specs.Drawings.{corner_figure, corner_of, cost_figure};

use crate::figure::push_drawing;
use racp_calendar::Calendar;
use racp_charts::{Corner, push_costs};
use racp_json::Step;
use std::alloc::{AllocError, Global};

/// Adds the drawing of what deadlines cost, from the first of them up to the plan's.
pub(crate) fn push_cost_figure(
    alloc: Global,
    text: &mut String,
    costs: &[Step],
    deadline: u32,
    calendar: Calendar<'_>,
) -> Result<(), AllocError>
    ensures { OnOk result (string_bytes text.new ≡ string_bytes text.old ++ cost_figure calendar.entry costs.now deadline) }
{
    let corners = corners_of(alloc, costs)?;
    push_corners(text, &corners, deadline, calendar)
}

/// Adds the drawing of some corners.
fn push_corners(
    text: &mut String,
    corners: &[Corner],
    deadline: u32,
    calendar: Calendar<'_>,
) -> Result<(), AllocError>
    ensures { OnOk result (string_bytes text.new ≡ string_bytes text.old ++ corner_figure calendar.entry corners.now deadline) }
{
    push_drawing(text, "What each deadline costs", 290)?;
    push_costs(text, corners, deadline, calendar)?;
    text.push_str("</svg></figure>\n")?;
    Ok(())
}

/// The corners of the steps of a curve.
fn corners_of(alloc: Global, steps: &[Step]) -> Result<Vec<Corner>, AllocError>
    ensures { IfOk result (λ corners. corners.items ≡ map corner_of steps.now) }
{
    let mut corners = Vec::new(alloc);
    for step in steps {
        corners.push(Corner {
            deadline: step.deadline,
            cost: step.cost,
        })?;
    }
    Ok(corners)
}
