//! The names, headings and times of the jobs of several tables.

use crate::heading::{Heading, push_heading};
use crate::part::Part;
use crate::table::Table;
use racp_model::limits::LATEST_TIME;
use std::alloc::{AllocError, Global};
use std::ops::Range;

/// A time that a table may say of its jobs.
#[derive(Clone, Copy)]
pub(crate) enum Time {
    /// From which time on they may start.
    Earliest,
    /// By which time they have to end.
    Due,
}

impl Time {
    /// These times of a table's jobs, if it says them.
    fn of<'a>(self, table: &'a Table) -> Option<&'a [u32]> {
        let times = match self {
            Time::Earliest => &table.earliest,
            Time::Due => &table.due,
        };
        match times {
            Some(times) => Some(times.as_slice()),
            None => None,
        }
    }

    /// The time where none is said.
    fn otherwise(self) -> u32 {
        match self {
            Time::Earliest => 0,
            Time::Due => LATEST_TIME,
        }
    }
}

/// The places of a table's tasks, and of its jobs that wait.
fn places(table: &Table, are_tasks: bool) -> Range<usize> {
    let count = table.names.len();
    let tasks = table.notes.tasks.min(count);
    if are_tasks { 0..tasks } else { tasks..count }
}

/// The names of the tasks of all tables, and then of their jobs that wait, each behind that of its table.
pub(crate) fn job_names(alloc: Global, parts: &[Part]) -> Result<Vec<String>, AllocError> {
    let mut names = Vec::new(alloc);
    for part in parts {
        push_names(alloc, &mut names, part, places(&part.table, true))?;
    }
    for part in parts {
        push_names(alloc, &mut names, part, places(&part.table, false))?;
    }
    Ok(names)
}

/// Adds the names of a table's jobs at these places.
fn push_names(
    alloc: Global,
    names: &mut Vec<String>,
    part: &Part,
    places: Range<usize>,
) -> Result<(), AllocError> {
    for place in places {
        if let Some(name) = part.table.names.get(place) {
            names.push(format!(in alloc; "{}: {name}", part.name)?)?;
        }
    }
    Ok(())
}

/// The times of the tasks of all tables, and then of their jobs that wait, if one says some.
pub(crate) fn all_times(
    alloc: Global,
    parts: &[Part],
    time: Time,
) -> Result<Option<Vec<u32>>, AllocError> {
    if !parts.iter().any(|part| time.of(&part.table).is_some()) {
        return Ok(None);
    }
    let mut times = Vec::new(alloc);
    for part in parts {
        push_times(&mut times, &part.table, time, true)?;
    }
    for part in parts {
        push_times(&mut times, &part.table, time, false)?;
    }
    Ok(Some(times))
}

/// Adds the times of a table's tasks, or of its jobs that wait.
fn push_times(
    times: &mut Vec<u32>,
    table: &Table,
    time: Time,
    are_tasks: bool,
) -> Result<(), AllocError> {
    let own = time.of(table).unwrap_or(&[]);
    for place in places(table, are_tasks) {
        let said = own.get(place).copied();
        times.push(said.unwrap_or(time.otherwise()))?;
    }
    Ok(())
}

/// The headings of all tables: each table is a phase, and its own phases are in it.
pub(crate) fn all_headings(alloc: Global, parts: &[Part]) -> Result<Vec<Heading>, AllocError> {
    let mut headings = Vec::new(alloc);
    let mut before = 0usize;
    for part in parts {
        let title = String::from_str(alloc, part.name.as_str())?;
        push_heading(&mut headings, before, 1, Some(title))?;
        for heading in &part.table.headings {
            push_deeper(alloc, &mut headings, heading, before)?;
        }
        before = before.saturating_add(part.table.notes.tasks);
    }
    Ok(headings)
}

/// Adds a heading one deeper, of a table behind so many tasks.
fn push_deeper(
    alloc: Global,
    headings: &mut Vec<Heading>,
    heading: &Heading,
    before: usize,
) -> Result<(), AllocError> {
    let title = match &heading.title {
        Some(title) => Some(String::from_str(alloc, title.as_str())?),
        None => None,
    };
    let place = heading.place.saturating_add(before);
    push_heading(headings, place, heading.depth.saturating_add(1), title)
}
