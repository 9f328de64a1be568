//! The use of each resource over time.

ghost use Rattle.std.specs.Prelude.{◌≡◌, ◌<◌, ◌^◌, ◌++◌, OnOk, option_map, string_bytes};
ghost use Rattle.racp_charts.specs.Drawings.{height_of, limit_element, panel_element, panel_numbers, panel_title, stair_element, stair_steps};

use crate::axis::{Span, push_axis, push_deadline, push_place, push_scale, push_step};
use crate::choice::Choice;
use crate::names::push_short;
use racp_show::Step;
use std::alloc::{AllocError, Global};

/// Adds what is drawn of a resource: its name, how many units there are and how busy they are, and its usage over time
/// as a stair below the line of all units. It is 106 high.
///
/// # Errors
///
/// Memory was refused.
pub fn push_panel(
    alloc: Global,
    text: &mut String,
    choice: &Choice<'_>,
    span: Span<'_>,
) -> Result<(), AllocError>
    ensures { OnOk result (string_bytes text.new ≡ string_bytes text.old ++ panel_element span.entry choice.now) }
{
    push_title(alloc, text, choice)?;
    push_axis(text, span, 10, 80)?;
    push_stair(text, span, choice)?;
    push_limit(text, choice.units)?;
    push_deadline(text, 10, 80)?;
    Ok(())
}

/// Adds the name of a resource, how many units there are, and how busy they are.
fn push_title(alloc: Global, text: &mut String, choice: &Choice<'_>) -> Result<(), AllocError>
    ensures { OnOk result (string_bytes text.new ≡ string_bytes text.old ++ panel_title choice.now) }
{
    text.push_str("<text class=\"head\" x=\"8\" y=\"32\">")?;
    push_short(alloc, text, choice.name, "resource", choice.resource, 40)?;
    push_title_end(text, choice)?;
    Ok(())
}

/// Adds the units of a resource and how busy they are, below its name.
#[tactic(auto, unfolding(crate::specs::Drawings::panel_numbers))]
fn push_title_end(text: &mut String, choice: &Choice<'_>) -> Result<(), AllocError>
    ensures { OnOk result (string_bytes text.new ≡ string_bytes text.old ++ panel_numbers choice.now) }
{
    let (units, busy) = (choice.units, choice.busy);
    write!(
        text,
        "</text><text x=\"8\" y=\"50\">units {units}, {busy}% busy</text>\n"
    )
}

/// Adds the stair of a resource's usage.
fn push_stair(text: &mut String, span: Span<'_>, choice: &Choice<'_>) -> Result<(), AllocError>
    ensures { OnOk result (string_bytes text.new ≡ string_bytes text.old ++ stair_element span.entry choice.now) }
{
    text.push_str("<path class=\"used\" d=\"")?;
    push_place(text, 270, 80)?;
    push_steps(text, span, choice.units, choice.usage.as_slice())?;
    text.push_str("H970V80Z\"/>")?;
    Ok(())
}

/// Adds the steps of a usage.
fn push_steps(
    text: &mut String,
    span: Span<'_>,
    units: u32,
    usage: &[Step],
) -> Result<(), AllocError>
    ensures { OnOk result (string_bytes text.new ≡ string_bytes text.old ++ stair_steps span.entry units usage.now) }
{
    for step in usage {
        let y = 80u128.saturating_sub(height(units, step.units));
        push_step(text, span.across(step.from as u128), y)?;
    }
    Ok(())
}

/// How high a usage is drawn: all units are 60 high.
fn height(units: u32, used: u32) -> u128
    ensures { result ≡ height_of units used }
{
    if units == 0 {
        return 0;
    }
    used as u128 * 60 / units as u128
}

/// Adds the line of all units, and the axis of units.
fn push_limit(text: &mut String, units: u32) -> Result<(), AllocError>
    ensures { OnOk result (string_bytes text.new ≡ string_bytes text.old ++ limit_element units) }
{
    text.push_str("<path class=\"limit\" d=\"M270 20H970\"/>")?;
    push_scale(text, units as u64, 24, 84)?;
    Ok(())
}
