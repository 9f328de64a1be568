//! A chart as a text.

ghost use Rattle.std.specs.Prelude.{◌≡◌, length};
ghost use Rattle.racp_model.specs.Plan.{FitsTerms};
ghost use Rattle.racp_model.specs.Terms.{AreTermsOf};

use crate::chart::chart_of;
use crate::entry::Entry;
use crate::label::{columns_of, indent, labels, widest};
use crate::names::Names;
use crate::order::deadline_of;
use crate::outline::Outline;
use crate::text_rows::{Sides, push_resources, push_rows, push_ruler};
use crate::usage::busy_percent;
use racp_calendar::{Calendar, push_last};
use racp_model::Network;
use racp_plan::Plan;
use racp_prices::Order;
use std::alloc::{AllocError, Global};

/// The least width of a chart, in columns.
pub const LEAST_WIDTH: usize = 40;

/// The greatest width of a chart, in columns.
pub const MOST_WIDTH: usize = 1000;

/// The most columns of a name.
const MOST_LABEL: usize = 24;

/// The columns of two dates and what stands between them.
const DAYS: usize = 22;

/// The blanks on both sides of the drawn columns.
const GAPS: usize = 4;

/// How a chart is written.
#[derive(Clone, Copy)]
pub struct Lettering<'a> {
    /// How many columns a line has at most; 40 if it is less, 1,000 if it is more.
    pub width: usize,
    /// Whether it has characters of ASCII alone, but for names.
    pub is_ascii: bool,
    /// How times are told.
    pub calendar: Calendar<'a>,
    /// Which tasks and phases have a line.
    pub outline: &'a Outline,
}

/// A plan as a chart in lines: a line for each task of the outline, with its name or its number, a bar from its start to
/// its end, and these times, or its first and its last day if the calendar has dates; above them the titles of phases; and a line for each resource, with its usage, how many
/// units there are and how busy they are. What stands in a phase has two blanks more before it. A column stands for as
/// few time units as the width allows; the ruler says at each tenth which time it begins with, or the month and the day.
///
/// Bars are drawn by blocks, tasks of duration 0 by `|`, and usages by blocks of as many eighths of the capacity,
/// rounded up. In ASCII, bars are drawn by `#`, and usages by as many ninths of the capacity, rounded up; no usage is
/// blank.
///
/// The plan fits the order, as `check_plan` of racp_check tells.
///
/// # Errors
///
/// Memory was refused.
pub fn chart_text(
    alloc: Global,
    net: &Network,
    order: &Order,
    plan: &Plan,
    names: &Names,
    lettering: Lettering<'_>,
) -> Result<String, AllocError>
    requires terms { AreTermsOf net.now order.now }
    requires capacities { length plan.now.capacities ≡ net.now.resources }
    requires fits { FitsTerms net.now order.now plan.now.capacities plan.now.starts }
{
    let deadline = deadline_of(order);
    let width = lettering.width.max(LEAST_WIDTH).min(MOST_WIDTH);
    let (calendar, outline) = (lettering.calendar, lettering.outline);
    let note = note_width(alloc, net, plan.capacities.as_slice(), deadline, calendar)?;
    let room = width.saturating_sub(note.saturating_add(GAPS));
    let most = label_width(room);
    let labels = labels(alloc, net, names, outline, most)?;
    let label = widest_row(outline, &labels, most);
    let columns = room.saturating_sub(label).max(1).min(MOST_WIDTH) as u32;
    let chart = chart_of(alloc, net, plan, deadline, columns)?;
    let mut text = head(alloc, deadline, plan, width, calendar)?;
    let sides = Sides {
        labels: &labels,
        most,
        width: label.saturating_add(2),
        line: width,
    };
    push_ruler(alloc, &mut text, sides.width, &chart.scale, calendar)?;
    push_rows(alloc, &mut text, &sides, &chart, lettering)?;
    push_resources(
        alloc,
        &mut text,
        outline,
        &sides,
        &chart,
        lettering.is_ascii,
    )?;
    Ok(text)
}

/// The most columns that a label takes, with the blanks before it.
fn widest_row(outline: &Outline, labels: &[String], most: usize) -> usize {
    let mut widest = widest(labels);
    for (place, entry) in outline.rows().iter().enumerate() {
        if let Entry::Bar { depth, .. } = entry {
            widest = widest.max(label_columns(labels, place).saturating_add(indent(*depth, most)));
        }
    }
    widest
}

/// How many columns the label at this place takes.
fn label_columns(labels: &[String], place: usize) -> usize {
    match labels.get(place) {
        Some(label) => columns_of(label.as_str()),
        None => 0,
    }
}

/// The most columns of a label, if there is so much room for labels and columns.
fn label_width(room: usize) -> usize {
    (room / 2)
        .max(room.saturating_sub(8).min(11))
        .min(MOST_LABEL)
}

/// The most columns that a note at the end of a line takes.
fn note_width(
    alloc: Global,
    net: &Network,
    capacities: &[u32],
    deadline: u32,
    calendar: Calendar<'_>,
) -> Result<usize, AllocError>
    requires { length capacities.now ≡ net.now.resources }
{
    let times = format!(in alloc; "{deadline}..{deadline}")?;
    let mut most = if calendar.has_dates() {
        DAYS
    } else {
        times.len()
    };
    for k in 0..net.resource_count() {
        let busy = busy_percent(net, k, capacities[k], deadline);
        most = most.max(units_note(alloc, capacities[k], busy)?.len());
    }
    Ok(most)
}

/// What stands at the end of a resource's line.
pub(crate) fn units_note(alloc: Global, capacity: u32, busy: u64) -> Result<String, AllocError> {
    let word = if capacity == 1 { "unit" } else { "units" };
    format!(in alloc; "{capacity} {word}, {busy}% busy")
}

/// The first lines: the deadline, the critical length and the cost, in one line if they fit the width.
fn head(
    alloc: Global,
    deadline: u32,
    plan: &Plan,
    width: usize,
    calendar: Calendar<'_>,
) -> Result<String, AllocError> {
    let line = head_with(alloc, deadline, plan, ", ", calendar)?;
    // Two bytes of it end this line and the empty one.
    if line.len() <= width.saturating_add(2) {
        Ok(line)
    } else {
        head_with(alloc, deadline, plan, "\n", calendar)
    }
}

/// The deadline, the critical length and the cost, with a text between two of them, and an empty line.
fn head_with(
    alloc: Global,
    deadline: u32,
    plan: &Plan,
    gap: &str,
    calendar: Calendar<'_>,
) -> Result<String, AllocError> {
    let critical = plan.critical;
    let cost = plan.cost;
    let word = if calendar.has_dates() {
        "evening of "
    } else {
        ""
    };
    let mut text = format!(in alloc; "deadline {word}")?;
    push_last(&mut text, calendar, deadline as u128)?;
    write!(text, "{gap}critical length {critical}{gap}cost {cost}\n\n")?;
    Ok(text)
}
