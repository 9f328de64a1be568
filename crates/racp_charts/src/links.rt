//! Which tasks wait for which, as arrows.

ghost use Rattle.std.specs.Prelude.{◌≡◌, ◌<◌, ◌^◌, ◌++◌, OnOk, flat_map, string_bytes};
ghost use Rattle.racp_charts.specs.Links.{curve_begin, curve_end, end_in, end_of, link_between, link_from, link_to, links_element, links_from, links_to, tip_element};

use crate::axis::Span;
use racp_show::{Predecessor, Row, Task};
use std::alloc::AllocError;

/// Adds an arrow from each task to each that waits for it, if arrows are wanted.
pub(crate) fn push_links(
    text: &mut String,
    rows: &[Row<'_>],
    span: Span<'_>,
    has_links: bool,
) -> Result<(), AllocError>
    ensures { OnOk result
        (string_bytes text.new ≡ string_bytes text.old ++ links_element has_links span.entry rows.now) }
{
    if !has_links {
        return Ok(());
    }
    push_all(text, rows, span)
}

/// Adds an arrow from each task to each that waits for it.
fn push_all(text: &mut String, rows: &[Row<'_>], span: Span<'_>) -> Result<(), AllocError>
    ensures { OnOk result
        (string_bytes text.new ≡ string_bytes text.old ++ links_from span.entry rows.now 0 rows.now) }
{
    for (place, row) in rows.iter().enumerate() {
        push_links_to(text, rows, span, place, row)?;
    }
    Ok(())
}

/// Adds the arrows to the row at this place.
fn push_links_to(
    text: &mut String,
    rows: &[Row<'_>],
    span: Span<'_>,
    place: usize,
    row: &Row<'_>,
) -> Result<(), AllocError>
    ensures { OnOk result
        (string_bytes text.new ≡ string_bytes text.old ++ links_to span.entry rows.now place row.now) }
{
    match row {
        Row::Heading { .. } => Ok(()),
        Row::Bar { task, .. } => {
            let before = task.predecessors.as_slice();
            push_links_of(text, rows, span, place, task, before)
        }
    }
}

/// Adds the arrows to the task in the row at this place from tasks that it waits for.
fn push_links_of(
    text: &mut String,
    rows: &[Row<'_>],
    span: Span<'_>,
    place: usize,
    task: &Task<'_>,
    before: &[Predecessor],
) -> Result<(), AllocError>
    ensures { OnOk result (string_bytes text.new ≡ string_bytes text.old ++
        flat_map (link_from span.entry rows.now place task.now) before.now) }
{
    for predecessor in before {
        push_link_from(text, rows, span, place, task, predecessor.job)?;
    }
    Ok(())
}

/// Adds the arrow to the task in the row at this place from the task with this number, if that has a row.
fn push_link_from(
    text: &mut String,
    rows: &[Row<'_>],
    span: Span<'_>,
    place: usize,
    task: &Task<'_>,
    number: u32,
) -> Result<(), AllocError>
    ensures { OnOk result (string_bytes text.new ≡ string_bytes text.old ++
        link_to span.entry place task.now (end_of number 0 rows.now)) }
{
    match end_of(rows, number) {
        Some((row, time)) => push_link(
            text,
            span.across(time as u128),
            50 + row as u128 * 20,
            span.across(task.start as u128),
            50 + place as u128 * 20,
        ),
        None => Ok(()),
    }
}

/// The place of the row of the task with this number, and when that has ended; `None` if it has no row.
fn end_of(rows: &[Row<'_>], number: u32) -> Option<(usize, u64)>
    ensures { result ≡ end_of number 0 rows.now }
{
    for (place, row) in rows.iter().enumerate() {
        if let Some(time) = end_in(row, number) {
            return Some((place, time));
        }
    }
    None
}

/// When a row's task has ended, if it has this number.
fn end_in(row: &Row<'_>, number: u32) -> Option<u64>
    ensures { result ≡ end_in number row.now }
{
    match row {
        Row::Heading { .. } => None,
        Row::Bar { task, .. } => {
            if task.job == number as usize {
                Some(task.start as u64 + task.duration as u64)
            } else {
                None
            }
        }
    }
}

/// Adds an arrow.
fn push_link(
    text: &mut String,
    from_x: u128,
    from_y: u128,
    to_x: u128,
    to_y: u128,
) -> Result<(), AllocError>
    requires { from_x < 2 ^ 32 }
    ensures { OnOk result
        (string_bytes text.new ≡ string_bytes text.old ++ link_between from_x from_y to_x to_y) }
{
    push_curve_begin(text, from_x, from_y)?;
    push_curve_end(text, to_x, to_y)?;
    push_tip(text, to_x, to_y)?;
    Ok(())
}

/// Adds the beginning of an arrow, which goes to the right.
#[tactic(auto, unfolding(crate::specs::Links::curve_begin))]
fn push_curve_begin(text: &mut String, x: u128, y: u128) -> Result<(), AllocError>
    requires { x < 2 ^ 32 }
    ensures { OnOk result (string_bytes text.new ≡ string_bytes text.old ++ curve_begin x y) }
{
    let right = x + 16;
    write!(text, "<path class=\"link\" d=\"M{x} {y}C{right} {y}")
}

/// Adds the rest of its line, which comes from the left.
#[tactic(auto, unfolding(crate::specs::Links::curve_end))]
fn push_curve_end(text: &mut String, x: u128, y: u128) -> Result<(), AllocError>
    ensures { OnOk result (string_bytes text.new ≡ string_bytes text.old ++ curve_end x y) }
{
    let left = x.saturating_sub(16);
    write!(text, " {left} {y} {x} {y}\"/>")
}

/// Adds the tip of an arrow.
#[tactic(auto, unfolding(crate::specs::Links::tip_element))]
fn push_tip(text: &mut String, x: u128, y: u128) -> Result<(), AllocError>
    ensures { OnOk result (string_bytes text.new ≡ string_bytes text.old ++ tip_element x y) }
{
    write!(text, "<path class=\"tip\" d=\"M{x} {y}l-5 -3v6z\"/>\n")
}
