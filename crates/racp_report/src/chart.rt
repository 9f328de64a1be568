//! The chart of the tasks.

ghost use Rattle.std.specs.Prelude.{◌≡◌, ◌<◌, ◌^◌, ◌++◌, OnOk, length, string_bytes};
ghost use Rattle.racp_report.specs.Drawings.{block_begin, block_end, frame, row_block, row_blocks};

use crate::figure::push_drawing;
use racp_charts::{Span, push_row};
use racp_show::Row;
use std::alloc::{AllocError, Global};

/// How many rows a drawing has at most, so that it fits half a printed page.
const MOST_ROWS: usize = 30;

/// Where the rows of a drawing begin, from above.
const TOP: u128 = 40;

/// Adds the drawings of the rows.
pub(crate) fn push_chart(
    alloc: Global,
    text: &mut String,
    rows: &[Row<'_>],
    span: Span<'_>,
) -> Result<(), AllocError>
    ensures { OnOk result
        (string_bytes text.new ≡ string_bytes text.old ++ row_blocks span.entry (length rows.now) 0 rows.now) }
{
    for (place, row) in rows.iter().enumerate() {
        push_block(alloc, text, row, span, place, rows.len())?;
    }
    Ok(())
}

/// Adds the row at this place of so many, with the beginning of a drawing before the first of it, and its
/// end behind the last.
fn push_block(
    alloc: Global,
    text: &mut String,
    row: &Row<'_>,
    span: Span<'_>,
    place: usize,
    count: usize,
) -> Result<(), AllocError>
    ensures { OnOk result
        (string_bytes text.new ≡ string_bytes text.old ++ row_block span.entry count place row.now) }
{
    push_block_begin(text, span, place, count)?;
    push_row(
        alloc,
        text,
        row,
        span,
        TOP + (place % MOST_ROWS) as u128 * 20,
    )?;
    push_block_end(text, place, count)?;
    Ok(())
}

/// Adds the beginning of a drawing before its first row.
fn push_block_begin(
    text: &mut String,
    span: Span<'_>,
    place: usize,
    count: usize,
) -> Result<(), AllocError>
    ensures { OnOk result (string_bytes text.new ≡ string_bytes text.old ++ block_begin span.entry count place) }
{
    if !place.is_multiple_of(MOST_ROWS) {
        return Ok(());
    }
    let bottom = TOP + count.saturating_sub(place).min(MOST_ROWS) as u128 * 20;
    push_frame(text, span, bottom)
}

/// Adds the beginning of a drawing that goes down to here, with what stands around its rows.
fn push_frame(text: &mut String, span: Span<'_>, bottom: u128) -> Result<(), AllocError>
    requires { bottom < 2 ^ 72 }
    ensures { OnOk result (string_bytes text.new ≡ string_bytes text.old ++ frame span.entry bottom) }
{
    push_drawing(text, "The tasks over time", bottom + 24)?;
    racp_charts::push_frame(text, span, bottom)?;
    Ok(())
}

/// Adds the end of a drawing behind its last row.
fn push_block_end(text: &mut String, place: usize, count: usize) -> Result<(), AllocError>
    ensures { OnOk result (string_bytes text.new ≡ string_bytes text.old ++ block_end count place) }
{
    if place % MOST_ROWS == MOST_ROWS - 1 || count.saturating_sub(place) == 1 {
        text.push_str("</svg></figure>\n")
    } else {
        Ok(())
    }
}
