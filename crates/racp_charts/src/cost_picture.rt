//! What deadlines cost, as a picture.

ghost use Rattle.std.specs.Prelude.{◌≡◌, ◌++◌, IfOk, OnOk, string_bytes};
ghost use Rattle.racp_charts.specs.Pictures.{IsCostPicture, costs_begin, costs_body, costs_title};

use crate::costs::{Corner, push_costs};
use crate::parts::{push_begin, push_group, push_page};
use crate::style::STYLE;
use racp_calendar::Calendar;
use std::alloc::{AllocError, Global};

/// What deadlines cost, as a picture in SVG: a stair over the deadlines from that of the first corner up to `last`,
/// with round numbers on both axes, or by a calendar with dates in place of deadlines: a deadline is then told by its last day,
/// on the evening of which the project ends. The corners rise by deadline. The text grows with the corners, and not with
/// the deadlines.
///
/// # Errors
///
/// Memory was refused.
pub fn costs_svg(
    alloc: Global,
    corners: &[Corner],
    last: u32,
    calendar: Calendar<'_>,
) -> Result<String, AllocError>
    ensures { IfOk result (λ text. IsCostPicture calendar.entry corners.now last (string_bytes text)) }
{
    let mut text = String::new(alloc);
    push_opening(&mut text, calendar)?;
    text.push_str(STYLE)?;
    push_body(&mut text, corners, last, calendar)?;
    Ok(text)
}

/// Adds the beginning of the picture.
fn push_opening(text: &mut String, calendar: Calendar<'_>) -> Result<(), AllocError>
    ensures { OnOk result (string_bytes text.new ≡ string_bytes text.old ++ costs_begin calendar.entry) }
{
    push_begin(text, 190, 810, 334)?;
    text.push_str("<title>")?;
    text.push_str(title(calendar))?;
    text.push_str("</title>\n")?;
    Ok(())
}

/// What the picture is called: dates are the last days of deadlines.
fn title(calendar: Calendar<'_>) -> &'static str
    ensures { result.now ≡ costs_title calendar.entry }
{
    match calendar {
        Calendar::Numbers => "What each deadline costs",
        Calendar::Dates(_) => "What each deadline costs, by its last day",
    }
}

/// Adds all of the picture that stands behind its style.
fn push_body(
    text: &mut String,
    corners: &[Corner],
    last: u32,
    calendar: Calendar<'_>,
) -> Result<(), AllocError>
    ensures { OnOk result (string_bytes text.new ≡ string_bytes text.old ++ costs_body calendar.entry corners.now last) }
{
    push_page(text, 334)?;
    text.push_str("<text class=\"title\" x=\"204\" y=\"26\">")?;
    text.push_str(title(calendar))?;
    text.push_str("</text>\n")?;
    push_group(text, 40)?;
    push_costs(text, corners, last, calendar)?;
    text.push_str("</g>\n</svg>\n")?;
    Ok(())
}
