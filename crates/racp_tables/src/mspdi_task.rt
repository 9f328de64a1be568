//! The tasks of MSPDI.

use crate::cell::plain;
use crate::fault::TableFault;
use crate::mspdi_date::{Tied, bounds_of};
use crate::mspdi_time::{Hours, duration_of};
use crate::row::Row;
use crate::warning::{Warning, warn};
use racp_model::limits::MOST_JOBS;
use racp_text::number;
use racp_xml::{Mark, parts, text_of, unescaped};
use std::alloc::{AllocError, Global};

/// How many tasks and phases there may be.
const MOST_TASKS: usize = 2 * MOST_JOBS;

/// A task or a phase of a file.
#[derive(Clone, Copy)]
pub(crate) struct Task<'b, 'a> {
    /// Its marks.
    pub(crate) marks: &'b [Mark<'a>],
    /// The line at which it begins.
    pub(crate) line: u64,
    /// How deep it lies in the outline.
    pub(crate) level: u64,
    /// Whether the file says that it is a phase.
    pub(crate) is_phase: bool,
}

/// The tasks and phases that are not passed over.
pub(crate) fn tasks_in<'b, 'a>(
    alloc: Global,
    marks: &'b [Mark<'a>],
) -> Result<Vec<Task<'b, 'a>>, TableFault> {
    let mut tasks: Vec<Task<'b, 'a>> = Vec::new(alloc);
    let all = parts(alloc, marks, 3, "Task")?;
    for part in &all {
        if !is_passed_over(part) {
            let task = task_of(alloc, part)?;
            if tasks.len() >= MOST_TASKS {
                let words = format!(in alloc; "there are more than {MOST_JOBS} tasks");
                return Err(TableFault::at(task.line, words));
            }
            keep(&mut tasks, task)?;
        }
    }
    test_phases(alloc, &tasks)?;
    for task in &tasks {
        test_planned(alloc, task)?;
    }
    Ok(tasks)
}

/// Tests that a task has a duration, unless it is a phase.
fn test_planned(alloc: Global, task: &Task<'_, '_>) -> Result<(), TableFault> {
    if task.is_phase || text_of(task.marks, 4, "Duration").is_some() {
        return Ok(());
    }
    let name = name_in(alloc, task.marks, task.line)?;
    let words = format!(in alloc;
        "task '{name}' has no Duration, as those of TaskJuggler: this is the file of a plan, not of a project"
    );
    Err(TableFault::at(task.line, words))
}

/// Adds an item to a list.
pub(crate) fn keep<T: Drop>(list: &mut Vec<T>, item: T) -> Result<(), AllocError> {
    list.push(item)?;
    Ok(())
}

/// Whether a task is no row of the table: that of the project itself, an empty row, or one that is inactive.
fn is_passed_over(marks: &[Mark<'_>]) -> bool {
    text_of(marks, 4, "UID") == Some("0")
        || text_of(marks, 4, "IsNull") == Some("1")
        || text_of(marks, 4, "Active") == Some("0")
}

/// The task of these marks.
fn task_of<'b, 'a>(alloc: Global, marks: &'b [Mark<'a>]) -> Result<Task<'b, 'a>, TableFault> {
    let line = line_of(marks);
    let word = text_of(marks, 4, "OutlineLevel").unwrap_or("1");
    let Some(level) = number(word.as_bytes()) else {
        let words = format!(in alloc; "outline level '{word}' is no whole number");
        return Err(TableFault::at(line, words));
    };
    Ok(Task {
        marks,
        line,
        level,
        is_phase: text_of(marks, 4, "Summary") == Some("1"),
    })
}

/// The line at which marks begin.
pub(crate) fn line_of(marks: &[Mark<'_>]) -> u64 {
    match marks.first() {
        Some(mark) => mark.line,
        None => 0,
    }
}

/// Tests that exactly those are phases behind which a task lies deeper.
fn test_phases(alloc: Global, tasks: &[Task<'_, '_>]) -> Result<(), TableFault> {
    for (place, task) in tasks.iter().enumerate() {
        let has_parts = match tasks.get(place.saturating_add(1)) {
            Some(next) => next.level > task.level,
            None => false,
        };
        if has_parts != task.is_phase {
            let words = if has_parts {
                "the task behind this one is a part of it by its OutlineLevel, and it is no Summary"
            } else {
                "this is a Summary, and no task behind it is a part of it by its OutlineLevel"
            };
            return Err(TableFault::at(task.line, String::from_str(alloc, words)));
        }
    }
    Ok(())
}

/// The rows of tasks and phases, without their needs.
pub(crate) fn rows_of(
    alloc: Global,
    tasks: &[Task<'_, '_>],
    hours: Hours<'_>,
    warnings: &mut Vec<Warning>,
) -> Result<Vec<Row>, TableFault> {
    let mut rows: Vec<Row> = Vec::new(alloc);
    for task in tasks {
        let row = row_of(alloc, task, hours)?;
        if rows
            .iter()
            .any(|other| other.id.as_str() == row.id.as_str())
        {
            let words = format!(in alloc; "two tasks have the UID '{}'", row.id);
            return Err(TableFault::at(row.line, words));
        }
        warn_of(alloc, task, &row, warnings)?;
        keep(&mut rows, row)?;
    }
    Ok(rows)
}

/// The row of a task or a phase.
fn row_of(alloc: Global, task: &Task<'_, '_>, hours: Hours<'_>) -> Result<Row, TableFault> {
    let name = name_in(alloc, task.marks, task.line)?;
    let Some(id) = text_of(task.marks, 4, "UID") else {
        let words = format!(in alloc; "task '{name}' has no UID");
        return Err(TableFault::at(task.line, words));
    };
    let duration = if task.is_phase {
        0
    } else {
        duration_of(alloc, task, name.as_str(), hours)?
    };
    let tied = Tied {
        marks: task.marks,
        name: name.as_str(),
        line: task.line,
        duration,
        is_phase: task.is_phase,
    };
    let (earliest, due) = bounds_of(alloc, tied, hours.dating)?;
    Ok(Row {
        line: task.line,
        id: String::from_str(alloc, id)?,
        name,
        predecessors: String::new(alloc),
        successors: String::new(alloc),
        duration,
        requests: Vec::new(alloc),
        earliest,
        due,
    })
}

/// The name of a task or a resource.
pub(crate) fn name_in(alloc: Global, marks: &[Mark<'_>], line: u64) -> Result<String, TableFault> {
    let Some(word) = text_of(marks, 4, "Name") else {
        let words = String::from_str(alloc, "the task has no name");
        return Err(TableFault::at(line, words));
    };
    match unescaped(alloc, word)? {
        Some(name) => Ok(plain(alloc, name.as_str().trim())?),
        None => {
            let words = format!(in alloc;
                "'{word}' has an & that begins none of the entities of XML"
            );
            Err(TableFault::at(line, words))
        }
    }
}

/// Adds warnings of what is passed over of a task.
fn warn_of(
    alloc: Global,
    task: &Task<'_, '_>,
    row: &Row,
    warnings: &mut Vec<Warning>,
) -> Result<(), AllocError> {
    let name = row.name.as_str();
    if text_of(task.marks, 4, "ConstraintType") == Some("1") && !task.is_phase {
        let words = format!(in alloc;
            "'{name}' is to be as late as possible, which is passed over"
        );
        warn(warnings, task.line, words)?;
    }
    if text_of(task.marks, 4, "Manual") == Some("1") && !task.is_phase {
        let words = format!(in alloc; "'{name}' is scheduled by hand; its start is passed over");
        warn(warnings, task.line, words)?;
    }
    let done = text_of(task.marks, 4, "PercentComplete").unwrap_or("0");
    if done != "0" && !task.is_phase {
        let words = format!(in alloc; "'{name}' is complete to {done}%, which is passed over");
        warn(warnings, task.line, words)?;
    }
    Ok(())
}
