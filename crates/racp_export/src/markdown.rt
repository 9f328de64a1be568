//! A plan as a table in Markdown.

ghost use Rattle.std.specs.Prelude.{◌≡◌, ◌++◌, IfOk, OnOk, flat_map, string_bytes};
ghost use Rattle.racp_export.specs.Letters.{spelled};
ghost use Rattle.racp_export.specs.declared.letters.Letters.TheVariants.{Markdown};
ghost use Rattle.racp_export.specs.Tables.{markdown_days, markdown_head, markdown_needs, markdown_phase, markdown_row, markdown_task, markdown_text};

use crate::days::{first_of, last_of};
use crate::ground::Ground;
use crate::letters::{Letters, spelled};
use crate::words::{spelled_needs, spelled_title, waits_of};
use racp_calendar::Calendar;
use racp_show::{Row, Task};
use std::alloc::{AllocError, Global};

/// The phases and the tasks of a plan as a table in Markdown.
#[tactic(auto, unfolding(crate::specs::Tables::markdown_text))]
pub(crate) fn markdown_text(
    alloc: Global,
    ground: &Ground<'_>,
    rows: &[Row<'_>],
) -> Result<String, AllocError>
    ensures { IfOk result (λ text. string_bytes text ≡ markdown_text ground.now.calendar ground.now.net.now ground.now.names.now rows.now) }
{
    let mut text = String::new(alloc);
    push_head(&mut text)?;
    push_rows(alloc, &mut text, ground, rows)?;
    Ok(text)
}

/// Adds the titles of the columns.
#[tactic(auto, unfolding(crate::specs::Tables::markdown_head))]
fn push_head(text: &mut String) -> Result<(), AllocError>
    ensures { OnOk result (string_bytes text.new ≡ string_bytes text.old ++ markdown_head) }
{
    text.push_str("| No. | Task | First day | Last day | Duration | After | Needs |\n")?;
    text.push_str("| ---: | --- | --- | --- | ---: | --- | --- |\n")?;
    Ok(())
}

/// Adds each row.
fn push_rows(
    alloc: Global,
    text: &mut String,
    ground: &Ground<'_>,
    rows: &[Row<'_>],
) -> Result<(), AllocError>
    ensures { OnOk result (string_bytes text.new ≡ string_bytes text.old
        ++ flat_map (markdown_row ground.now.calendar ground.now.net.now ground.now.names.now) rows.now) }
{
    for row in rows {
        push_row(alloc, text, ground, row)?;
    }
    Ok(())
}

/// Adds a row.
fn push_row(
    alloc: Global,
    text: &mut String,
    ground: &Ground<'_>,
    row: &Row<'_>,
) -> Result<(), AllocError>
    ensures { OnOk result (string_bytes text.new ≡ string_bytes text.old
        ++ markdown_row ground.now.calendar ground.now.net.now ground.now.names.now row.now) }
{
    match row {
        Row::Heading { title, .. } => push_phase(alloc, text, title),
        Row::Bar { task, .. } => push_task(alloc, text, ground, task),
    }
}

/// Adds the row of a phase.
#[tactic(auto, unfolding(crate::specs::Tables::markdown_phase))]
fn push_phase(alloc: Global, text: &mut String, title: &str) -> Result<(), AllocError>
    ensures { OnOk result (string_bytes text.new ≡ string_bytes text.old ++ markdown_phase (spelled Markdown title.now)) }
{
    let title = spelled(alloc, Letters::Markdown, title)?;
    write!(text, "| | **{title}** | | | | | |\n")
}

/// Adds the row of a task.
#[tactic(auto, unfolding(crate::specs::Tables::markdown_task))]
fn push_task(
    alloc: Global,
    text: &mut String,
    ground: &Ground<'_>,
    task: &Task<'_>,
) -> Result<(), AllocError>
    ensures { OnOk result (string_bytes text.new ≡ string_bytes text.old
        ++ markdown_task ground.now.calendar ground.now.net.now ground.now.names.now task.now) }
{
    let place = task.job.saturating_sub(1);
    let needs = spelled_needs(alloc, Letters::Markdown, ground.net, ground.names, place)?;
    push_days(alloc, text, ground.calendar, task)?;
    push_needs(alloc, text, task, needs.as_str())?;
    Ok(())
}

/// Adds the cells of a task up to its last day.
#[tactic(auto, unfolding(crate::specs::Tables::markdown_days))]
fn push_days(
    alloc: Global,
    text: &mut String,
    calendar: Calendar<'_>,
    task: &Task<'_>,
) -> Result<(), AllocError>
    ensures { OnOk result (string_bytes text.new ≡ string_bytes text.old ++ markdown_days calendar.entry task.now) }
{
    let job = task.job;
    let title = spelled_title(alloc, Letters::Markdown, task)?;
    let first = first_of(alloc, calendar, task)?;
    let last = last_of(alloc, calendar, task)?;
    write!(text, "| {job} | {title} | {first} | {last}")
}

/// Adds the cells of a task behind its last day.
#[tactic(auto, unfolding(crate::specs::Tables::markdown_needs))]
fn push_needs(
    alloc: Global,
    text: &mut String,
    task: &Task<'_>,
    needs: &str,
) -> Result<(), AllocError>
    ensures { OnOk result (string_bytes text.new ≡ string_bytes text.old ++ markdown_needs task.now needs.now) }
{
    let duration = task.duration;
    let waits = waits_of(alloc, task)?;
    write!(text, " | {duration} | {waits} | {needs} |\n")
}
