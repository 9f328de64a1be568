//! The phases and the tasks of a project of MS Project.

ghost use Rattle.std.specs.Prelude.{◌≡◌, ◌++◌, [], IfOk, OnOk, string_bytes};
ghost use Rattle.racp_charts.specs.Texts.{escaped};
ghost use Rattle.racp_export.specs.MsProject.{depth_of, phase_lines, row_head, row_lines, row_rest, row_text, rows_from, title_of, uid_of};
ghost use Rattle.racp_export.specs.Told.{told_by};

use crate::ground::Ground;
use crate::ms_tasks::{ROW_END, push_kind, push_task};
use crate::outline::{go_on, outline_of};
use crate::words::{escaped, task_title};
use racp_model::Network;
use racp_show::Row;
use std::alloc::{AllocError, Global};

/// Adds the rows, numbered from one on.
pub(crate) fn push_rows(
    alloc: Global,
    text: &mut String,
    ground: &Ground<'_>,
    rows: &[Row<'_>],
) -> Result<(), AllocError>
    ensures { OnOk result (string_bytes text.new ≡ string_bytes text.old ++ rows_from (told_by ground.now) 1 [] rows.now) }
{
    let mut path = Vec::new(alloc);
    for (place, row) in rows.iter().enumerate() {
        go_on(&mut path, place + 1, depth_of(row))?;
        push_row(alloc, text, ground, path.as_slice(), place + 1, row)?;
    }
    Ok(())
}

/// In how many phases a row stands.
fn depth_of(row: &Row<'_>) -> usize
    ensures { result ≡ depth_of row.now }
{
    match row {
        Row::Heading { depth, .. } => *depth,
        Row::Bar { depth, .. } => *depth,
    }
}

/// Adds the row with a number and a path.
#[tactic(auto, unfolding(crate::specs::MsProject::row_text), using(crate::proofs::Pieces::in_two))]
fn push_row(
    alloc: Global,
    text: &mut String,
    ground: &Ground<'_>,
    path: &[usize],
    id: usize,
    row: &Row<'_>,
) -> Result<(), AllocError>
    ensures { OnOk result (string_bytes text.new ≡ string_bytes text.old ++ row_text (told_by ground.now) id path.now row.now) }
{
    let outline = outline_of(alloc, path)?;
    push_head(alloc, text, ground.net, outline.as_str(), id, row)?;
    push_rest(alloc, text, ground, row)?;
    Ok(())
}

/// Adds the first lines of the row with a number.
fn push_head(
    alloc: Global,
    text: &mut String,
    net: &Network,
    outline: &str,
    id: usize,
    row: &Row<'_>,
) -> Result<(), AllocError>
    ensures { OnOk result (string_bytes text.new ≡ string_bytes text.old ++ row_head net.now id outline.now row.now) }
{
    let title = title_of(alloc, row)?;
    let title = escaped(alloc, title.as_str())?;
    let level = depth_of(row) as u128 + 1;
    push_lines(
        text,
        uid_of(net, id, row),
        id,
        title.as_str(),
        outline,
        level,
    )
}

/// The number by which the row with a number is known: that of its job, or one behind those of all jobs.
fn uid_of(net: &Network, id: usize, row: &Row<'_>) -> u128
    ensures { result ≡ uid_of net.now id row.now }
{
    match row {
        Row::Heading { .. } => net.job_count() as u128 + id as u128,
        Row::Bar { task, .. } => task.job as u128,
    }
}

/// What a row is called.
fn title_of(alloc: Global, row: &Row<'_>) -> Result<String, AllocError>
    ensures { IfOk result (λ title. string_bytes title ≡ title_of row.now) }
{
    match row {
        Row::Heading { title, .. } => String::from_str(alloc, title),
        Row::Bar { task, .. } => task_title(alloc, task),
    }
}

/// Adds the first lines of a row.
#[tactic(auto, unfolding(crate::specs::MsProject::row_lines))]
fn push_lines(
    text: &mut String,
    uid: u128,
    id: usize,
    title: &str,
    outline: &str,
    level: u128,
) -> Result<(), AllocError>
    ensures { OnOk result (string_bytes text.new ≡ string_bytes text.old ++ row_lines uid id title.now outline.now level) }
{
    write!(
        text,
        "  <Task>\n   <UID>{uid}</UID>\n   <ID>{id}</ID>\n   <Name>{title}</Name>\n   <Type>1</Type>\n   <IsNull>0</IsNull>\n   <OutlineNumber>{outline}</OutlineNumber>\n   <OutlineLevel>{level}</OutlineLevel>\n   <Priority>500</Priority>\n"
    )
}

/// Adds the other lines of a row.
fn push_rest(
    alloc: Global,
    text: &mut String,
    ground: &Ground<'_>,
    row: &Row<'_>,
) -> Result<(), AllocError>
    ensures { OnOk result (string_bytes text.new ≡ string_bytes text.old ++ row_rest (told_by ground.now) row.now) }
{
    match row {
        Row::Heading { .. } => push_phase(text),
        Row::Bar { task, .. } => push_task(alloc, text, ground, task),
    }
}

/// Adds the other lines of a phase.
#[tactic(auto, unfolding(crate::specs::MsProject::phase_lines), using(crate::proofs::Pieces::in_two))]
fn push_phase(text: &mut String) -> Result<(), AllocError>
    ensures { OnOk result (string_bytes text.new ≡ string_bytes text.old ++ phase_lines) }
{
    push_kind(text, 0, 1)?;
    text.push_str(ROW_END)?;
    Ok(())
}
