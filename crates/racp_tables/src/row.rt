//! The rows of a table, each of a task or of a phase.

ghost use Rattle.std.specs.Prelude.{◌≡◌, ◌++◌, IfOk, map, nat_lt, string_bytes};
ghost use Rattle.std.specs.List.{list_any};
ghost use Rattle.csv.specs.Records.{fields_of};
ghost use Rattle.racp_tables.specs.CellRows.{IsRowOf, IsTimeSaid, duration_said, needs_said, time_or};
ghost use Rattle.racp_calendar.specs.Times.{IsTimeBy, IsTimeFrom};
ghost use Rattle.racp_tables.specs.Cells.{cell_of, id_said, plain};

use crate::assigned::{Assigned, assigned_in, push_named};
use crate::cell::{cell_at, is_empty_from, line_of, optional_cell, plain};
use crate::columns::Columns;
use crate::dated::{due_in, earliest_in, looks_dated, no_date};
use crate::duration::{Said, units_of};
use crate::fault::TableFault;
use crate::needs::requests_of;
use crate::reading::{Dating, Scale};
use csv::StringRecord;
use racp_model::limits::{LATEST_TIME, MOST_DURATION};
use std::alloc::{AllocError, Global};

/// A row, whose links are not looked up yet.
#[derive(Drop)]
pub(crate) struct Row {
    /// The line of the text at which it begins.
    pub(crate) line: u64,
    /// What the task is called in other rows.
    pub(crate) id: String,
    /// The task's name.
    pub(crate) name: String,
    /// The cell with the tasks after which it comes.
    pub(crate) predecessors: String,
    /// The cell with the tasks that come after it.
    pub(crate) successors: String,
    /// How long it takes, in time units.
    pub(crate) duration: u32,
    /// How many units it needs of each resource.
    pub(crate) requests: Vec<u32>,
    /// From which time on it may start.
    pub(crate) earliest: u32,
    /// By which time it has to end.
    pub(crate) due: u32,
}

/// The cells of a row, and how they are read.
#[derive(Clone, Copy)]
pub(crate) struct Cells<'a> {
    pub(crate) columns: &'a Columns,
    /// The resources that rows name.
    pub(crate) roster: &'a [String],
    pub(crate) record: &'a StringRecord,
    pub(crate) scale: Scale,
    pub(crate) dating: Dating<'a>,
    /// Whether other rows are parts of this one, which is no task then.
    pub(crate) is_phase: bool,
}

/// The row of the task with this number.
pub(crate) fn row_of(alloc: Global, cells: Cells<'_>, number: usize) -> Result<Row, TableFault>
    ensures { IfOk result (IsRowOf cells.entry.columns.now (map string_bytes cells.entry.roster.now) cells.entry.is_phase number
        cells.entry.scale cells.entry.dating (fields_of cells.entry.record.now)) }
{
    let Cells {
        columns,
        record,
        ..
    } = cells;
    let line = line_of(record);
    if !is_empty_from(record, columns.count) {
        let words = format!(in alloc; "the row has more cells than the {} columns", columns.count);
        return Err(TableFault::at(line, words));
    }
    let name = name_of(alloc, line, optional_cell(record, columns.name))?;
    let requests = needs_of(alloc, cells)?;
    let duration = duration_of(alloc, cells, &requests)?;
    let earliest = earliest_of(alloc, cells)?;
    let due = due_of(alloc, cells)?;
    Ok(Row {
        line,
        id: id_of(alloc, cells, number)?,
        name,
        predecessors: String::from_str(alloc, optional_cell(record, columns.predecessors))?,
        successors: String::from_str(alloc, optional_cell(record, columns.successors))?,
        duration,
        requests,
        earliest,
        due,
    })
}

/// The name in a cell.
fn name_of(alloc: Global, line: u64, cell: &str) -> Result<String, TableFault>
    ensures { IfOk result (λ name. string_bytes name ≡ plain cell.now) }
{
    if cell.is_empty() {
        let words = String::from_str(alloc, "the task has no name");
        return Err(TableFault::at(line, words));
    }
    Ok(plain(alloc, cell)?)
}

/// What a task is called in other rows: what the row says, or its number if no column says it.
fn id_of(alloc: Global, cells: Cells<'_>, number: usize) -> Result<String, AllocError>
    ensures { IfOk result (λ id. string_bytes id ≡ id_said (fields_of cells.entry.record.now) cells.entry.columns.now.id number) }
{
    match cells.columns.id {
        Some(place) => String::from_str(alloc, cell_at(cells.record, place)),
        None => format!(in alloc; "{number}"),
    }
}

/// What the task of a row needs of each resource: those of columns, and then those that rows name.
fn needs_of(alloc: Global, cells: Cells<'_>) -> Result<Vec<u32>, TableFault>
    ensures { IfOk result (λ requests. needs_said cells.entry.columns.now (map string_bytes cells.entry.roster.now) cells.entry.is_phase
        (fields_of cells.entry.record.now) ≡ map (λ units. Some units) requests.items) }
{
    if cells.is_phase {
        return Ok(Vec::new(alloc));
    }
    let mut requests = requests_of(alloc, &cells.columns.resources, cells.record)?;
    let line = line_of(cells.record);
    let cell = optional_cell(cells.record, cells.columns.assigned);
    let assigned = assigned_in(alloc, line, cell)?;
    push_named(alloc, &mut requests, line, cells.roster, &assigned)?;
    Ok(requests)
}

/// How long the task of a row takes, which needs this. A task without duration and needs is a milestone.
fn duration_of(alloc: Global, cells: Cells<'_>, requests: &[u32]) -> Result<u32, TableFault>
    ensures { IfOk result (λ duration. duration_said cells.entry.columns.now cells.entry.is_phase cells.entry.scale
        (fields_of cells.entry.record.now) requests.now ≡ Some duration) }
{
    if cells.is_phase {
        return Ok(0);
    }
    let cell = optional_cell(cells.record, cells.columns.duration);
    if cell.is_empty() && !has_needs(requests) {
        return Ok(0);
    }
    let said = Said {
        line: line_of(cells.record),
        column: "duration",
        cell,
    };
    units_of(alloc, said, cells.scale, MOST_DURATION)
}

/// Whether some request asks for a unit.
fn has_needs(requests: &[u32]) -> bool
    ensures { result ≡ list_any (λ units. nat_lt 0 units) requests.now }
{
    requests.iter().any(|units| *units > 0)
}

/// The time from which the task of a row may start.
fn earliest_of(alloc: Global, cells: Cells<'_>) -> Result<u32, TableFault>
    ensures { IfOk result (IsTimeSaid IsTimeFrom 0 (cell_of (fields_of cells.entry.record.now) cells.entry.columns.now.earliest)
        cells.entry.scale cells.entry.dating) }
{
    let place = cells.columns.earliest;
    let dated = earliest_in(alloc, cells.dating, optional_cell(cells.record, place))?;
    match dated {
        Some(time) => Ok(time),
        None => time_of(alloc, cells, place, ("earliest", 0)),
    }
}

/// The time by which the task of a row has to end.
fn due_of(alloc: Global, cells: Cells<'_>) -> Result<u32, TableFault>
    ensures { IfOk result (IsTimeSaid IsTimeBy 10000000 (cell_of (fields_of cells.entry.record.now) cells.entry.columns.now.due)
        cells.entry.scale cells.entry.dating) }
{
    let place = cells.columns.due;
    let cell = optional_cell(cells.record, place);
    let dated = due_in(alloc, cells.dating, cell, line_of(cells.record))?;
    match dated {
        Some(time) => Ok(time),
        None => time_of(alloc, cells, place, ("due", LATEST_TIME)),
    }
}

/// The time that the cell of a column says, which is called so; another where there is no such column, or the cell is
/// empty.
fn time_of(
    alloc: Global,
    cells: Cells<'_>,
    place: Option<usize>,
    called: (&str, u32),
) -> Result<u32, TableFault>
    ensures { IfOk result (λ time. time_or called.entry.1 (cell_of (fields_of cells.entry.record.now) place) cells.entry.scale ≡ Some time) }
{
    let (column, other) = called;
    let cell = optional_cell(cells.record, place);
    if cell.is_empty() {
        return Ok(other);
    }
    let said = Said {
        line: line_of(cells.record),
        column,
        cell,
    };
    if looks_dated(cell) {
        return Err(no_date(alloc, said, cells.dating));
    }
    units_of(alloc, said, cells.scale, LATEST_TIME)
}
