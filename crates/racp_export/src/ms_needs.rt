//! What the tasks of a project of MS Project need.

ghost use Rattle.std.specs.Prelude.{◌≡◌, ◌++◌, ◌<◌, OnOk, flat_map, string_bytes};
ghost use Rattle.racp_export.specs.MsProject.{need_if, need_lines, need_text, needs_before, row_needs, units_lines};
ghost use Rattle.racp_export.specs.Told.{told_by};

use crate::ground::Ground;
use crate::ms_tasks::{end_moment, start_moment};
use crate::words::units_at;
use crate::work::task_hours;
use racp_show::{Row, Task};
use std::alloc::{AllocError, Global};

/// Adds what the task of each row needs.
pub(crate) fn push_all_needs(
    alloc: Global,
    text: &mut String,
    ground: &Ground<'_>,
    rows: &[Row<'_>],
) -> Result<(), AllocError>
    ensures { OnOk result (string_bytes text.new ≡ string_bytes text.old ++ flat_map (row_needs (told_by ground.now)) rows.now) }
{
    for row in rows {
        push_row(alloc, text, ground, row)?;
    }
    Ok(())
}

/// Adds what a row needs, if it is a task.
fn push_row(
    alloc: Global,
    text: &mut String,
    ground: &Ground<'_>,
    row: &Row<'_>,
) -> Result<(), AllocError>
    ensures { OnOk result (string_bytes text.new ≡ string_bytes text.old ++ row_needs (told_by ground.now) row.now) }
{
    match row {
        Row::Heading { .. } => Ok(()),
        Row::Bar { task, .. } => push_needs(alloc, text, ground, task),
    }
}

/// Adds what a task needs of each resource.
fn push_needs(
    alloc: Global,
    text: &mut String,
    ground: &Ground<'_>,
    task: &Task<'_>,
) -> Result<(), AllocError>
    ensures { OnOk result (string_bytes text.new ≡ string_bytes text.old
        ++ needs_before (told_by ground.now) task.now ground.now.net.now.resources) }
{
    for k in 0..ground.net.resource_count() {
        push_need(alloc, text, ground, task, k)?;
    }
    Ok(())
}

/// Adds what a task needs of the resource at place `k`, if it needs some of it.
fn push_need(
    alloc: Global,
    text: &mut String,
    ground: &Ground<'_>,
    task: &Task<'_>,
    k: usize,
) -> Result<(), AllocError>
    requires { k < ground.now.net.now.resources }
    ensures { OnOk result (string_bytes text.new ≡ string_bytes text.old ++ need_if (told_by ground.now) task.now k) }
{
    let units = units_at(ground.net, task.job.saturating_sub(1), k);
    if units == 0 {
        return Ok(());
    }
    push_units(alloc, text, ground, task, k)
}

/// Adds what a task needs of the resource at place `k`.
#[tactic(auto, unfolding(crate::specs::MsProject::need_text), using(crate::proofs::Pieces::in_two))]
fn push_units(
    alloc: Global,
    text: &mut String,
    ground: &Ground<'_>,
    task: &Task<'_>,
    k: usize,
) -> Result<(), AllocError>
    requires { k < ground.now.net.now.resources }
    ensures { OnOk result (string_bytes text.new ≡ string_bytes text.old ++ need_text (told_by ground.now) task.now k) }
{
    let place = task.job.saturating_sub(1);
    let units = units_at(ground.net, place, k);
    let work = task_hours(ground.calendar, task) * units as u128;
    let start = start_moment(alloc, ground.calendar, task)?;
    let finish = end_moment(alloc, ground.calendar, task)?;
    let uid = place as u128 * ground.net.resource_count() as u128 + k as u128 + 1;
    push_need_lines(text, uid, task.job, k + 1)?;
    push_units_lines(text, start.as_str(), finish.as_str(), units, work)
}

/// Adds that a job needs some of a resource.
#[tactic(auto, unfolding(crate::specs::MsProject::need_lines))]
fn push_need_lines(
    text: &mut String,
    uid: u128,
    job: usize,
    resource: usize,
) -> Result<(), AllocError>
    ensures { OnOk result (string_bytes text.new ≡ string_bytes text.old ++ need_lines uid job resource) }
{
    write!(
        text,
        "  <Assignment>\n   <UID>{uid}</UID>\n   <TaskUID>{job}</TaskUID>\n   <ResourceUID>{resource}</ResourceUID>\n"
    )
}

/// Adds when some units work on a task, and how much.
#[tactic(auto, unfolding(crate::specs::MsProject::units_lines))]
fn push_units_lines(
    text: &mut String,
    start: &str,
    finish: &str,
    units: u32,
    work: u128,
) -> Result<(), AllocError>
    ensures { OnOk result (string_bytes text.new ≡ string_bytes text.old ++ units_lines start.now finish.now units work) }
{
    write!(
        text,
        "   <Finish>{finish}</Finish>\n   <Start>{start}</Start>\n   <Units>{units}.0</Units>\n   <Work>PT{work}H0M0S</Work>\n  </Assignment>\n"
    )
}
