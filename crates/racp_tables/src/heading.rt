//! Headings above the names of tasks: which phases begin and end there.

use crate::outline::is_phase_at;
use crate::row::Row;
use std::alloc::{AllocError, Global};

/// A line above the name of a task.
#[derive(Drop)]
pub struct Heading {
    /// The place of the task below it, from 0.
    pub place: usize,
    /// How deep the phase lies that begins there, from 1; or the least depth of the phases that end there.
    pub depth: usize,
    /// The title of the phase that begins; none where phases end.
    pub title: Option<String>,
}

/// The headings above the tasks of rows, which are parts of each other so.
pub(crate) fn headings_of(
    alloc: Global,
    rows: &[Row],
    parents: &[u32],
) -> Result<Vec<Heading>, AllocError> {
    let mut headings = Vec::new(alloc);
    let mut open = Vec::new(alloc);
    let mut task = 0usize;
    for place in 0..rows.len() {
        if !is_phase_at(parents, place)? {
            let phases = phases_of(alloc, parents, place)?;
            push_headings(alloc, &mut headings, rows, (&open, &phases), task)?;
            open = phases;
            task = task.saturating_add(1);
        }
    }
    Ok(headings)
}

/// The places of the phases that the row at a place is in, from the outermost on.
fn phases_of(alloc: Global, parents: &[u32], place: usize) -> Result<Vec<usize>, AllocError> {
    let mut phases = Vec::new(alloc);
    let mut at = place;
    for _step in 0..parents.len() {
        match phase_of(parents, at) {
            Some(phase) => {
                phases.push(phase)?;
                at = phase;
            }
            None => break,
        }
    }
    phases.reverse();
    Ok(phases)
}

/// The place of the phase that the row at a place is a part of, if it is a part of one.
pub(crate) fn phase_of(parents: &[u32], place: usize) -> Option<usize> {
    let parent = parents.get(place).copied()?;
    (parent as usize).checked_sub(1)
}

/// Adds the headings above a task: the phases of the task before it and its own are told, both from the outermost on.
fn push_headings(
    alloc: Global,
    headings: &mut Vec<Heading>,
    rows: &[Row],
    phases: (&[usize], &[usize]),
    task: usize,
) -> Result<(), AllocError> {
    let (before, own) = phases;
    let same = count_same(before, own);
    if own.len() == same && before.len() > same {
        let depth = same.saturating_add(1);
        push_heading(headings, task, depth, None)?;
    }
    for (place, phase) in own.iter().enumerate() {
        if place >= same
            && let Some(row) = rows.get(*phase)
        {
            let title = String::from_str(alloc, title_of(row))?;
            push_heading(headings, task, place.saturating_add(1), Some(title))?;
        }
    }
    Ok(())
}

/// The title of a phase; a question mark if its name has blanks alone, since control characters became such.
fn title_of(row: &Row) -> &str {
    let title = row.name.as_str().trim();
    if title.is_empty() { "?" } else { title }
}

/// With how many of the same numbers two lists begin.
fn count_same(first: &[usize], second: &[usize]) -> usize {
    let mut same = 0usize;
    for (one, other) in first.iter().zip(second) {
        if *one != *other {
            break;
        }
        same = same.saturating_add(1);
    }
    same
}

/// Adds a heading.
pub(crate) fn push_heading(
    headings: &mut Vec<Heading>,
    place: usize,
    depth: usize,
    title: Option<String>,
) -> Result<(), AllocError> {
    headings.push(Heading {
        place,
        depth,
        title,
    })?;
    Ok(())
}
