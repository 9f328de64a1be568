//! What a table has of its rows that are no phases: tasks, with their names and times.

ghost use Rattle.std.specs.Prelude.{◌≡◌, IfOk};

use crate::columns::{Column, Columns};
use crate::heading::{headings_of, phase_of};
use crate::made::Made;
use crate::outline::{count_leaves, is_phase_at};
use crate::row::Row;
use crate::table::{Notes, Table};
use crate::warning::Warning;
use racp_links::Wait;
use racp_model::limits::LATEST_TIME;
use std::alloc::{AllocError, Global};
use std::cmp::{max, min};

/// What was found of rows.
#[derive(Drop)]
pub(crate) struct Found {
    /// Their jobs and pairs.
    pub(crate) made: Made,
    /// Of each row the number of the one that it is a part of, or 0.
    pub(crate) parents: Vec<u32>,
    /// What looks wrong.
    pub(crate) warnings: Vec<Warning>,
    /// Whether a time unit is half a day.
    pub(crate) is_half_day: bool,
}

/// The table of these rows, and of what was found of them.
pub(crate) fn put_together(
    alloc: Global,
    columns: &Columns,
    roster: &[String],
    rows: &[Row],
    found: Found,
) -> Result<Table, AllocError>
    ensures jobs { IfOk result (λ table. table.jobs.items ≡ found.made.jobs.items) }
    ensures pairs { IfOk result (λ table. table.pairs.items ≡ found.made.pairs.items) }
{
    let Found {
        made,
        parents,
        warnings,
        is_half_day,
    } = found;
    let Made { jobs, pairs, waits } = made;
    let earliest = match columns.earliest {
        Some(_) => Some(earliest_of(alloc, rows, &parents, waits.len())?),
        None => None,
    };
    let due = match columns.due {
        Some(_) => Some(due_of(alloc, rows, &parents, waits.len())?),
        None => None,
    };
    let names = names_of(alloc, rows, &parents, &waits)?;
    let headings = headings_of(alloc, rows, &parents)?;
    let resources = resources_of(alloc, &columns.resources, roster)?;
    let passed_over = copied(alloc, &columns.passed_over)?;
    let tasks = count_leaves(&parents)?;
    Ok(Table {
        names,
        headings,
        resources,
        jobs,
        pairs,
        earliest,
        due,
        notes: Notes {
            tasks,
            phases: rows.len().saturating_sub(tasks),
            is_half_day,
            passed_over,
            warnings,
        },
    })
}

/// A copy of these words.
fn copied(alloc: Global, words: &[String]) -> Result<Vec<String>, AllocError> {
    let mut copies = Vec::new(alloc);
    for word in words {
        copies.push(String::from_str(alloc, word.as_str())?)?;
    }
    Ok(copies)
}

/// The names of the tasks, and of the jobs that wait for them.
fn names_of(
    alloc: Global,
    rows: &[Row],
    parents: &[u32],
    waits: &[Wait],
) -> Result<Vec<String>, AllocError> {
    let mut names = Vec::new(alloc);
    for (place, row) in rows.iter().enumerate() {
        if !is_phase_at(parents, place)? {
            names.push(String::from_str(alloc, row.name.as_str())?)?;
        }
    }
    for wait in waits {
        let name = wait_name(alloc, &names, wait)?;
        names.push(name)?;
    }
    Ok(names)
}

/// The name of a job that waits, by those of the tasks.
fn wait_name(alloc: Global, names: &[String], wait: &Wait) -> Result<String, AllocError> {
    let place = (wait.after as usize).saturating_sub(1);
    match names.get(place) {
        Some(name) => format!(in alloc; "wait for {name}"),
        None => Err(AllocError),
    }
}

/// The names of the resources.
fn resources_of(
    alloc: Global,
    columns: &[Column],
    roster: &[String],
) -> Result<Vec<String>, AllocError> {
    let mut names = Vec::new(alloc);
    for column in columns {
        names.push(String::from_str(alloc, column.name.as_str())?)?;
    }
    for name in roster {
        names.push(String::from_str(alloc, name.as_str())?)?;
    }
    Ok(names)
}

/// The times from which the tasks may start, each the latest of its own and those of the phases that it is in, and 0 for each job
/// that waits.
fn earliest_of(
    alloc: Global,
    rows: &[Row],
    parents: &[u32],
    waits: usize,
) -> Result<Vec<u32>, AllocError> {
    let mut times: Vec<u32> = Vec::new(alloc);
    for (place, row) in rows.iter().enumerate() {
        let phase = of_phase(&times, parents, place).unwrap_or(0);
        times.push(max(row.earliest, phase))?;
    }
    of_jobs(alloc, &times, parents, waits, 0)
}

/// The times by which the tasks have to end, each the earliest of its own and those of the phases that it is in, and the latest
/// there is for each job that waits.
fn due_of(
    alloc: Global,
    rows: &[Row],
    parents: &[u32],
    waits: usize,
) -> Result<Vec<u32>, AllocError> {
    let mut times: Vec<u32> = Vec::new(alloc);
    for (place, row) in rows.iter().enumerate() {
        let phase = of_phase(&times, parents, place).unwrap_or(LATEST_TIME);
        times.push(min(row.due, phase))?;
    }
    of_jobs(alloc, &times, parents, waits, LATEST_TIME)
}

/// The time, of those of rows, of the phase that the row at a place is a part of, if it is a part of one.
fn of_phase(times: &[u32], parents: &[u32], place: usize) -> Option<u32> {
    times.get(phase_of(parents, place)?).copied()
}

/// The times, of those of rows, of the tasks, and then another for each job that waits.
fn of_jobs(
    alloc: Global,
    times: &[u32],
    parents: &[u32],
    waits: usize,
    other: u32,
) -> Result<Vec<u32>, AllocError> {
    let mut kept = Vec::new(alloc);
    for (place, time) in times.iter().enumerate() {
        if !is_phase_at(parents, place)? {
            kept.push(*time)?;
        }
    }
    for _wait in 0..waits {
        kept.push(other)?;
    }
    Ok(kept)
}
