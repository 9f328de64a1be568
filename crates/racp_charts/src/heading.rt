//! What a picture of a plan says above its drawings.

ghost use Rattle.std.specs.Prelude.{◌≡◌, ◌++◌, OnOk, string_bytes};
ghost use Rattle.racp_charts.specs.Pictures.{deadline_words, heading_element, key_at, key_element, length_element, plan_title, plan_title_begin, title_element};

use crate::drawing::Drawing;
use crate::parts::push_group;
use racp_calendar::{Calendar, push_last};
use std::alloc::AllocError;

/// Adds what is said first of a plan.
///
/// # Errors
///
/// Memory was refused.
pub fn push_plan(
    text: &mut String,
    cost: u64,
    deadline: u32,
    calendar: Calendar<'_>,
) -> Result<(), AllocError>
    ensures { OnOk result (string_bytes text.new ≡ string_bytes text.old ++ plan_title calendar.entry cost deadline) }
{
    push_plan_begin(text, cost)?;
    text.push_str(deadline_words(calendar))?;
    push_last(text, calendar, deadline as u128)?;
    Ok(())
}

/// What a deadline is called: a day is one in the evening.
fn deadline_words(calendar: Calendar<'_>) -> &'static str
    ensures { result.now ≡ deadline_words calendar.entry }
{
    match calendar {
        Calendar::Numbers => "deadline ",
        Calendar::Dates(_) => "the evening of ",
    }
}

/// Adds the beginning of what is said first of a plan.
#[tactic(auto, unfolding(crate::specs::Pictures::plan_title_begin))]
fn push_plan_begin(text: &mut String, cost: u64) -> Result<(), AllocError>
    ensures { OnOk result (string_bytes text.new ≡ string_bytes text.old ++ plan_title_begin cost) }
{
    write!(text, "Plan of cost {cost} by ")
}

/// Adds the title of a picture of a plan.
pub(crate) fn push_title(
    text: &mut String,
    cost: u64,
    deadline: u32,
    calendar: Calendar<'_>,
) -> Result<(), AllocError>
    ensures { OnOk result (string_bytes text.new ≡ string_bytes text.old ++ title_element calendar.entry cost deadline) }
{
    text.push_str("<title>")?;
    push_plan(text, cost, deadline, calendar)?;
    text.push_str("</title>\n")?;
    Ok(())
}

/// Adds what stands above the drawings of a plan.
pub(crate) fn push_heading(text: &mut String, drawing: &Drawing<'_>) -> Result<(), AllocError>
    ensures { OnOk result (string_bytes text.new ≡ string_bytes text.old ++ heading_element drawing.now) }
{
    text.push_str("<text class=\"title\" x=\"8\" y=\"26\">")?;
    push_plan(text, drawing.cost, drawing.deadline, drawing.calendar)?;
    text.push_str("</text>\n")?;
    push_length(text, drawing.critical)?;
    Ok(())
}

/// Adds the critical length.
#[tactic(auto, unfolding(crate::specs::Pictures::length_element))]
fn push_length(text: &mut String, critical: u64) -> Result<(), AllocError>
    ensures { OnOk result (string_bytes text.new ≡ string_bytes text.old ++ length_element critical) }
{
    write!(
        text,
        "<text x=\"8\" y=\"48\">critical length {critical}</text>\n"
    )
}

/// Adds what the shapes of the drawings mean, below this height.
pub(crate) fn push_key_at(text: &mut String, top: u128) -> Result<(), AllocError>
    ensures { OnOk result (string_bytes text.new ≡ string_bytes text.old ++ key_at top) }
{
    push_group(text, top)?;
    push_key(text)?;
    text.push_str("</g>\n")?;
    Ok(())
}

/// Adds what the shapes of the drawings of a plan mean. It is 16 high.
///
/// # Errors
///
/// Memory was refused.
#[tactic(auto, unfolding(crate::specs::Pictures::key_element))]
pub fn push_key(text: &mut String) -> Result<(), AllocError>
    ensures { OnOk result (string_bytes text.new ≡ string_bytes text.old ++ key_element) }
{
    text.push_str(
        "<rect class=\"critical\" x=\"270\" y=\"3\" width=\"24\" height=\"10\" rx=\"2\"/>\
         <text x=\"300\" y=\"12\">on the critical chain</text>\
         <rect class=\"bar\" x=\"438\" y=\"3\" width=\"24\" height=\"10\" rx=\"2\"/>\
         <text x=\"468\" y=\"12\">other tasks</text>\
         <path class=\"slack\" d=\"M552 8h24\"/><text x=\"582\" y=\"12\">slack</text>\
         <path class=\"bar\" d=\"M642 2l6 6l-6 6l-6 -6z\"/><text x=\"654\" y=\"12\">no duration</text>\
         <path class=\"deadline\" d=\"M748 1v14\"/><text x=\"756\" y=\"12\">deadline</text>\
         <path class=\"limit\" d=\"M832 8h24\"/><text x=\"862\" y=\"12\">all units</text>\n",
    )
}
