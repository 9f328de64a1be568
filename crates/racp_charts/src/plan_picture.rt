//! A plan as a picture.

ghost use Rattle.std.specs.Prelude.{◌≡◌, ◌<◌, ◌^◌, ◌++◌, IfOk, OnOk, length, string_bytes};
ghost use Rattle.racp_charts.specs.Pictures.{IsPlanPicture, picture_height, plan_begin, plan_body, resource_element, resource_panels, resources_top, rows_from, tasks_bottom, tasks_element};

use crate::axis::Span;
use crate::choice::Choice;
use crate::drawing::Drawing;
use crate::frame::push_frame;
use crate::heading::{push_heading, push_key_at, push_title};
use crate::links::push_links;
use crate::panel::push_panel;
use crate::parts::{push_begin, push_group, push_page};
use crate::row::push_row;
use crate::style::STYLE;
use racp_show::Row;
use std::alloc::{AllocError, Global};

/// A plan as a picture in SVG: its cost, its deadline and its critical length; a row for each phase, with its title, and for
/// each task, with its bar or, if it takes no time, a diamond, its slack as a thin line, and a tooltip; if links are wanted,
/// an arrow from each task to each that waits for it; and the usage of each resource as a stair. The text grows with the
/// rows, the pairs and the resources, and not with the deadline.
///
/// # Errors
///
/// Memory was refused.
pub fn plan_svg(alloc: Global, drawing: &Drawing<'_>, has_links: bool) -> Result<String, AllocError>
    ensures { IfOk result (λ text. IsPlanPicture has_links drawing.now (string_bytes text)) }
{
    let mut text = String::new(alloc);
    push_opening(&mut text, drawing)?;
    text.push_str(STYLE)?;
    push_body(alloc, &mut text, drawing, has_links)?;
    Ok(text)
}

/// Adds the beginning of the picture of a plan.
fn push_opening(text: &mut String, drawing: &Drawing<'_>) -> Result<(), AllocError>
    ensures { OnOk result (string_bytes text.new ≡ string_bytes text.old ++ plan_begin drawing.now) }
{
    push_begin(text, 0, 1000, height(drawing))?;
    push_title(text, drawing.cost, drawing.deadline, drawing.calendar)?;
    Ok(())
}

/// How far down the rows go in their frame.
fn bottom(drawing: &Drawing<'_>) -> u128
    ensures bottom { result ≡ tasks_bottom drawing.now }
    ensures small { result < 2 ^ 70 }
{
    40 + drawing.rows.len() as u128 * 20
}

/// Where the resources begin, from above.
fn resources(drawing: &Drawing<'_>) -> u128
    ensures top { result ≡ resources_top drawing.now }
    ensures small { result < 2 ^ 71 }
{
    bottom(drawing) + 88
}

/// How high the picture is.
fn height(drawing: &Drawing<'_>) -> u128
    ensures { result ≡ picture_height drawing.now }
{
    resources(drawing) + drawing.choices.len() as u128 * 106
}

/// Adds all of the picture of a plan that stands behind its style.
fn push_body(
    alloc: Global,
    text: &mut String,
    drawing: &Drawing<'_>,
    has_links: bool,
) -> Result<(), AllocError>
    ensures { OnOk result (string_bytes text.new ≡ string_bytes text.old ++ plan_body has_links drawing.now) }
{
    let span = Span {
        first: 0,
        last: drawing.deadline,
        calendar: drawing.calendar,
        of_ends: false,
    };
    push_page(text, height(drawing))?;
    push_heading(text, drawing)?;
    push_key_at(text, 38)?;
    push_tasks(
        alloc,
        text,
        drawing.rows.as_slice(),
        span,
        bottom(drawing),
        has_links,
    )?;
    push_resources(
        alloc,
        text,
        drawing.choices.as_slice(),
        span,
        resources(drawing),
    )?;
    text.push_str("</svg>\n")?;
    Ok(())
}

/// Adds the rows of a plan, which go down to this height, and the arrows if they are wanted.
fn push_tasks(
    alloc: Global,
    text: &mut String,
    rows: &[Row<'_>],
    span: Span<'_>,
    bottom: u128,
    has_links: bool,
) -> Result<(), AllocError>
    requires { bottom < 2 ^ 70 }
    ensures { OnOk result (string_bytes text.new ≡ string_bytes text.old ++ tasks_element has_links span.entry bottom rows.now) }
{
    push_group(text, 56)?;
    push_frame(text, span, bottom)?;
    push_rows(alloc, text, rows, span)?;
    push_links(text, rows, span, has_links)?;
    text.push_str("</g>\n")?;
    Ok(())
}

/// Adds each row.
fn push_rows(
    alloc: Global,
    text: &mut String,
    rows: &[Row<'_>],
    span: Span<'_>,
) -> Result<(), AllocError>
    ensures { OnOk result (string_bytes text.new ≡ string_bytes text.old ++ rows_from span.entry 0 rows.now) }
{
    for (place, row) in rows.iter().enumerate() {
        push_row(alloc, text, row, span, 40 + place as u128 * 20)?;
    }
    Ok(())
}

/// Adds the usage of each resource, the first of them below this height.
fn push_resources(
    alloc: Global,
    text: &mut String,
    choices: &[Choice<'_>],
    span: Span<'_>,
    top: u128,
) -> Result<(), AllocError>
    requires { top < 2 ^ 71 }
    ensures { OnOk result
        (string_bytes text.new ≡ string_bytes text.old ++ resource_panels span.entry top 0 choices.now) }
{
    for (place, choice) in choices.iter().enumerate() {
        push_resource(alloc, text, choice, span, top + place as u128 * 106)?;
    }
    Ok(())
}

/// Adds the usage of a resource below this height.
fn push_resource(
    alloc: Global,
    text: &mut String,
    choice: &Choice<'_>,
    span: Span<'_>,
    top: u128,
) -> Result<(), AllocError>
    ensures { OnOk result
        (string_bytes text.new ≡ string_bytes text.old ++ resource_element span.entry top choice.now) }
{
    push_group(text, top)?;
    push_panel(alloc, text, choice, span)?;
    text.push_str("</g>\n")?;
    Ok(())
}
