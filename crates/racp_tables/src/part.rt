//! Several tables that are joined to one.

ghost use Rattle.std.specs.Prelude.{◌≡◌, ◌++◌, flat_map, map, string_bytes, IfOk};
ghost use Rattle.racp_tables.specs.Joined.{IsJoined, all_names, all_tasks, pairs_from, tasks_of, waits_of};

use crate::beside::{Time, all_headings, all_times, job_names};
use crate::fault::TableFault;
use crate::moved::all_pairs;
use crate::shared::all_names;
use crate::table::{Notes, Table};
use crate::widened::all_jobs;
use racp_model::Job;
use racp_model::limits::{MOST_JOBS, MOST_RESOURCES};
use std::alloc::{AllocError, Global};

/// A table, and what it is called beside others.
#[derive(Drop)]
pub struct Part {
    /// What it is called.
    pub name: String,
    /// The table.
    pub table: Table,
}

/// What tables are joined of: the names of their resources, their jobs, and their pairs.
#[derive(Drop)]
struct Gathered {
    resources: Vec<String>,
    jobs: Vec<Job>,
    pairs: Vec<(u32, u32)>,
}

/// The table of several tables. Its tasks are those of the first, then those of the second and so on, each with the name of its table
/// before its own; behind all tasks stand the jobs that wait. Resources of one name are one, and each table is a phase.
///
/// # Errors
///
/// There are more resources or jobs than a network may have, or memory was refused.
pub fn joined(alloc: Global, parts: &[Part]) -> Result<Table, TableFault>
    ensures { IfOk result (IsJoined parts.now) }
{
    test_jobs(alloc, parts)?;
    let found = found_of(alloc, parts)?;
    test_resources(alloc, found.resources.len())?;
    Ok(put_together(alloc, parts, found)?)
}

/// What several tables are joined of.
fn found_of(alloc: Global, parts: &[Part]) -> Result<Gathered, AllocError>
    ensures resources { IfOk result (λ found. map string_bytes found.resources.items ≡ all_names parts.now) }
    ensures jobs { IfOk result (λ found. found.jobs.items ≡
        flat_map (tasks_of (all_names parts.now)) parts.now ++ flat_map (waits_of (all_names parts.now)) parts.now) }
    ensures pairs { IfOk result (λ found. found.pairs.items ≡ pairs_from 0 (all_tasks parts.now) parts.now) }
{
    let resources = all_names(alloc, parts)?;
    let jobs = all_jobs(alloc, parts, &resources)?;
    let pairs = all_pairs(alloc, parts)?;
    Ok(Gathered {
        resources,
        jobs,
        pairs,
    })
}

/// Tests that a network may have as many jobs as several tables.
fn test_jobs(alloc: Global, parts: &[Part]) -> Result<(), TableFault> {
    let mut jobs = 0usize;
    for part in parts {
        jobs = jobs.saturating_add(part.table.jobs.len());
    }
    if jobs <= MOST_JOBS {
        return Ok(());
    }
    let words = format!(in alloc;
        "with all tables there are {jobs} jobs; a network has at most {MOST_JOBS}"
    );
    Err(TableFault::at(0, words))
}

/// Tests that a network may have so many resources.
fn test_resources(alloc: Global, resources: usize) -> Result<(), TableFault> {
    if resources <= MOST_RESOURCES {
        return Ok(());
    }
    let words = format!(in alloc;
        "with all tables there are {resources} resources; a network has at most {MOST_RESOURCES}"
    );
    Err(TableFault::at(0, words))
}

/// The table of several tables, and of what they are joined of.
fn put_together(alloc: Global, parts: &[Part], found: Gathered) -> Result<Table, AllocError>
    ensures resources { IfOk result (λ table. table.resources.items ≡ found.resources.items) }
    ensures jobs { IfOk result (λ table. table.jobs.items ≡ found.jobs.items) }
    ensures pairs { IfOk result (λ table. table.pairs.items ≡ found.pairs.items) }
{
    let Gathered {
        resources,
        jobs,
        pairs,
    } = found;
    let names = job_names(alloc, parts)?;
    let headings = all_headings(alloc, parts)?;
    let earliest = all_times(alloc, parts, Time::Earliest)?;
    let due = all_times(alloc, parts, Time::Due)?;
    Ok(Table {
        names,
        headings,
        resources,
        jobs,
        pairs,
        earliest,
        due,
        notes: notes_of(alloc, parts),
    })
}

/// What is told of several tables together.
fn notes_of(alloc: Global, parts: &[Part]) -> Notes {
    let (mut tasks, mut phases) = (0usize, parts.len());
    for part in parts {
        tasks = tasks.saturating_add(part.table.notes.tasks);
        phases = phases.saturating_add(part.table.notes.phases);
    }
    Notes {
        tasks,
        phases,
        is_half_day: false,
        passed_over: Vec::new(alloc),
        warnings: Vec::new(alloc),
    }
}
