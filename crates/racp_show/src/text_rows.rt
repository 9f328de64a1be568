//! The lines of a chart in text.

use crate::cells::{bar_cell, level_cell};
use crate::chart::{Chart, JobRow, ResourceRow};
use crate::entry::Entry;
use crate::label::{columns_of, indent, label_within};
use crate::outline::Outline;
use crate::scale::Scale;
use crate::text::{Lettering, units_note};
use racp_calendar::{Calendar, first_word, push_first, push_last};
use std::alloc::{AllocError, Global};

/// How many columns there are from one mark of the ruler to the next.
const MARK: u32 = 10;

/// What stands at the left of the lines.
#[derive(Clone, Copy)]
pub(crate) struct Sides<'a> {
    /// The labels of the rows and then of the resources.
    pub(crate) labels: &'a [String],
    /// The most columns of a label.
    pub(crate) most: usize,
    /// For how many columns there is room.
    pub(crate) width: usize,
    /// The columns of a line.
    pub(crate) line: usize,
}

/// Adds a line for each row of the outline, and an empty line.
pub(crate) fn push_rows(
    alloc: Global,
    text: &mut String,
    sides: &Sides<'_>,
    chart: &Chart,
    lettering: Lettering<'_>,
) -> Result<(), AllocError> {
    for (place, entry) in lettering.outline.rows().iter().enumerate() {
        match entry {
            Entry::Heading { depth, title } => {
                push_title(alloc, text, title.as_str(), *depth, sides.line)?
            }
            Entry::Bar { depth, job } => {
                push_label(text, sides, place, indent(*depth, sides.most))?;
                push_bar(text, chart, job.saturating_sub(1), lettering)?;
            }
        }
    }
    text.push('\n')
}

/// Adds the line of a phase.
fn push_title(
    alloc: Global,
    text: &mut String,
    title: &str,
    depth: usize,
    line: usize,
) -> Result<(), AllocError> {
    let before = indent(depth, line);
    let label = label_within(alloc, Some(title), "", 0, line.saturating_sub(before))?;
    push_blanks(text, before)?;
    text.push_str(label.as_str())?;
    text.push('\n')
}

/// Adds the bar of the job at this place.
fn push_bar(
    text: &mut String,
    chart: &Chart,
    place: usize,
    lettering: Lettering<'_>,
) -> Result<(), AllocError> {
    match chart.jobs.get(place) {
        Some(row) => push_job(text, row, chart.scale.columns, lettering),
        None => Ok(()),
    }
}

/// Adds a line for each resource.
pub(crate) fn push_resources(
    alloc: Global,
    text: &mut String,
    outline: &Outline,
    sides: &Sides<'_>,
    chart: &Chart,
    is_ascii: bool,
) -> Result<(), AllocError> {
    let rows = outline.rows().len();
    for (place, row) in chart.resources.iter().enumerate() {
        push_label(text, sides, rows.saturating_add(place), 0)?;
        push_resource(alloc, text, row, is_ascii)?;
    }
    Ok(())
}

/// Adds the two lines of the ruler, if there are columns: at each tenth column its first time, and a mark.
pub(crate) fn push_ruler(
    alloc: Global,
    text: &mut String,
    label: usize,
    scale: &Scale,
    calendar: Calendar<'_>,
) -> Result<(), AllocError> {
    let marks = scale.columns.div_ceil(MARK);
    if marks == 0 {
        return Ok(());
    }
    push_blanks(text, label)?;
    push_times(alloc, text, marks - 1, scale.span, calendar)?;
    push_blanks(text, label)?;
    push_marks(text, marks - 1)
}

/// Adds the first time of each tenth column, if this many tenth columns stand before the last.
fn push_times(
    alloc: Global,
    text: &mut String,
    before: u32,
    span: u32,
    calendar: Calendar<'_>,
) -> Result<(), AllocError> {
    let step = MARK.saturating_mul(span);
    for mark in 0..before {
        let length = text.len();
        push_mark_time(alloc, text, mark.saturating_mul(step), calendar)?;
        let used = text.len().saturating_sub(length);
        push_blanks(text, (MARK as usize).saturating_sub(used))?;
    }
    push_mark_time(alloc, text, before.saturating_mul(step), calendar)?;
    text.push('\n')
}

/// Adds a time of the ruler: its number, or the month and the day on which it is.
fn push_mark_time(
    alloc: Global,
    text: &mut String,
    time: u32,
    calendar: Calendar<'_>,
) -> Result<(), AllocError> {
    let Some(word) = first_word(alloc, calendar, time as u128, 1)? else {
        return write!(text, "{time}");
    };
    match word.as_str().split_once("-") {
        Some((_, day)) => text.push_str(day),
        None => text.push_str(word.as_str()),
    }
}

/// Adds a mark at each tenth column, if this many tenth columns stand before the last.
fn push_marks(text: &mut String, before: u32) -> Result<(), AllocError> {
    for _ in 0..before {
        text.push_str("|         ")?;
    }
    text.push_str("|\n")
}

/// Adds the label at this place, with so many blanks before it, and blanks after it.
fn push_label(
    text: &mut String,
    sides: &Sides<'_>,
    place: usize,
    before: usize,
) -> Result<(), AllocError> {
    push_blanks(text, before)?;
    let mut blanks = sides.width.saturating_sub(before);
    if let Some(label) = sides.labels.get(place) {
        text.push_str(label.as_str())?;
        blanks = blanks.saturating_sub(columns_of(label.as_str()));
    }
    push_blanks(text, blanks)
}

/// Adds this many blanks.
fn push_blanks(text: &mut String, count: usize) -> Result<(), AllocError> {
    for _ in 0..count {
        text.push(' ')?;
    }
    Ok(())
}

/// Adds the bar of a job, and its times.
fn push_job(
    text: &mut String,
    row: &JobRow,
    columns: u32,
    lettering: Lettering<'_>,
) -> Result<(), AllocError> {
    for column in 0..columns {
        text.push(bar_cell(&row.bar, column, lettering.is_ascii))?;
    }
    text.push_str("  ")?;
    push_row_times(text, row, lettering.calendar)?;
    text.push('\n')
}

/// Adds the times of a job: its start and its end, or its first and its last day. What takes no time is done in the evening
/// of a day.
fn push_row_times(
    text: &mut String,
    row: &JobRow,
    calendar: Calendar<'_>,
) -> Result<(), AllocError> {
    let duration = row.end.saturating_sub(row.start) as u128;
    if duration == 0 && calendar.has_dates() {
        text.push_str("evening of ")?;
    } else {
        push_first(text, calendar, row.start as u128, duration)?;
        text.push_str("..")?;
    }
    push_last(text, calendar, row.end as u128)
}

/// Adds the usage of a resource, and how many units there are.
fn push_resource(
    alloc: Global,
    text: &mut String,
    row: &ResourceRow,
    ascii: bool,
) -> Result<(), AllocError> {
    for units in &row.levels {
        text.push(level_cell(*units, row.capacity, ascii))?;
    }
    let note = units_note(alloc, row.capacity, row.busy)?;
    writeln!(text, "  {note}")
}
