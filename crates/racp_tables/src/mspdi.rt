//! Tables in MSPDI, the XML of MS Project and of other planners.

ghost use Rattle.std.specs.Prelude.{IfOk};
ghost use Rattle.racp_tables.specs.Planned.{IsTableOfSomeTasks};

use crate::fault::TableFault;
use crate::mspdi_link::ties_in;
use crate::mspdi_need::assign;
use crate::mspdi_table::{Planned, table_of_tasks};
use crate::mspdi_task::{Task, keep, rows_of, tasks_in};
use crate::mspdi_time::Hours;
use crate::outline::Outline;
use crate::reading::Reading;
use crate::row::Row;
use crate::table::Table;
use crate::ties::Ties;
use racp_text::number;
use racp_xml::{Kind, Mark, XmlFault, marks, text_of};
use std::alloc::Global;

/// How many minutes a day has, where a file does not say it.
const DAY_MINUTES: u64 = 480;

/// The table of a text in MSPDI.
pub(crate) fn read_mspdi(
    alloc: Global,
    text: &str,
    reading: &Reading<'_>,
) -> Result<Table, TableFault>
    ensures { IfOk result IsTableOfSomeTasks }
{
    let planned = planned_in(alloc, text, reading)?;
    table_of_tasks(alloc, planned, reading.scale)
}

/// What a text says of its tasks.
fn planned_in(alloc: Global, text: &str, reading: &Reading<'_>) -> Result<Planned, TableFault> {
    let marks = match marks(alloc, text) {
        Ok(marks) => marks,
        Err(fault) => return Err(no_marks(alloc, fault)),
    };
    test_root(alloc, &marks)?;
    let hours = Hours {
        minutes: minutes_of(alloc, &marks)?,
        scale: reading.scale,
        dating: reading.dating,
    };
    let mut warnings = Vec::new(alloc);
    let tasks = tasks_in(alloc, &marks)?;
    let mut rows = rows_of(alloc, &tasks, hours, &mut warnings)?;
    let roster = assign(alloc, &marks, &tasks, &mut rows, &mut warnings)?;
    let ties = all_ties(alloc, &tasks, &rows, hours)?;
    let mut levels = Vec::new(alloc);
    for task in &tasks {
        keep(&mut levels, task.level)?;
    }
    Ok(Planned {
        rows,
        ties,
        outline: Outline::ByLevel(levels),
        roster,
        warnings,
    })
}

/// The ties of all tasks.
fn all_ties(
    alloc: Global,
    tasks: &[Task<'_, '_>],
    rows: &[Row],
    hours: Hours<'_>,
) -> Result<Vec<Ties>, TableFault> {
    let mut all = Vec::new(alloc);
    for (place, task) in tasks.iter().enumerate() {
        let ties = ties_in(alloc, rows, (place, task.marks), hours)?;
        keep(&mut all, ties)?;
    }
    Ok(all)
}

/// How many minutes a day has.
fn minutes_of(alloc: Global, marks: &[Mark<'_>]) -> Result<u64, TableFault> {
    let Some(word) = text_of(marks, 2, "MinutesPerDay") else {
        return Ok(DAY_MINUTES);
    };
    match number(word.as_bytes()) {
        Some(minutes) if minutes > 0 && minutes <= 1440 => Ok(minutes),
        _ => {
            let words = format!(in alloc;
                "MinutesPerDay '{word}' is no whole number from 1 to 1440"
            );
            Err(TableFault::at(0, words))
        }
    }
}

/// Tests the name of the first element.
fn test_root(alloc: Global, marks: &[Mark<'_>]) -> Result<(), TableFault> {
    for mark in marks {
        if mark.kind != Kind::Passed {
            if mark.name == "Project" {
                return Ok(());
            }
            let name = mark.name;
            let words = format!(in alloc;
                "the first element is <{name}>, not the <Project> of MS Project's XML"
            );
            return Err(TableFault::at(mark.line, words));
        }
    }
    Ok(())
}

/// What is wrong with a text that is no XML that is read.
fn no_marks(alloc: Global, fault: XmlFault) -> TableFault {
    let (line, words) = match fault {
        XmlFault::Unread(line) => (
            line,
            "a document type or a section of CDATA, which are not read",
        ),
        XmlFault::Mark(line) => (line, "what begins with < is no element"),
        XmlFault::Closed(line) => (line, "this closes another element than the last one opened"),
        XmlFault::Open(line) => (line, "this element is never closed"),
        XmlFault::Comment(line) => (line, "this comment does not end"),
        XmlFault::Outside(line) => (
            line,
            "text or a second element stands outside of the first one",
        ),
        XmlFault::Nothing => (0, "there is no element"),
        XmlFault::Deep(line) => (line, "elements lie too deep in each other"),
        XmlFault::Memory => return TableFault::Memory,
    };
    TableFault::at(line, String::from_str(alloc, words))
}
