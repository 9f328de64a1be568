//! The table of tasks that a planner's file has.

ghost use Rattle.std.specs.Prelude.{IfOk};
ghost use Rattle.racp_tables.specs.Planned.{IsTableOfTasks};

use crate::columns::Columns;
use crate::fault::TableFault;
use crate::leaves::{Found, put_together};
use crate::outline::{Outline, parents_of_rows};
use crate::reading::Scale;
use crate::row::Row;
use crate::rows::{made_tested, test_counts, test_ties};
use crate::table::Table;
use crate::ties::Ties;
use crate::warning::Warning;
use racp_model::limits::LATEST_TIME;
use std::alloc::Global;

/// What a file says of its tasks.
#[derive(Drop)]
pub(crate) struct Planned {
    /// The tasks and phases, in their order.
    pub(crate) rows: Vec<Row>,
    /// How each goes together with others.
    pub(crate) ties: Vec<Ties>,
    /// How they lie in each other.
    pub(crate) outline: Outline,
    /// The names of the resources, in the order of requests.
    pub(crate) roster: Vec<String>,
    /// What looks wrong.
    pub(crate) warnings: Vec<Warning>,
}

/// The table of these tasks.
pub(crate) fn table_of_tasks(
    alloc: Global,
    planned: Planned,
    scale: Scale,
) -> Result<Table, TableFault>
    ensures { IfOk result (IsTableOfTasks planned) }
{
    let Planned {
        rows,
        ties,
        outline,
        roster,
        mut warnings,
    } = planned;
    test_counts(alloc, 0, roster.len(), rows.len())?;
    let parents = parents_of_rows(alloc, &rows, &outline)?;
    test_ties(alloc, &rows, &ties, &parents, &mut warnings)?;
    let made = made_tested(alloc, &rows, &ties, &parents, roster.len())?;
    let found = Found {
        made,
        parents,
        warnings,
        is_half_day: scale.is_half_day,
    };
    let columns = times_alone(alloc, &rows);
    Ok(put_together(alloc, &columns, &roster, &rows, found)?)
}

/// The columns of a table that has none but those of earliest and due times, each if some row has such a time.
fn times_alone(alloc: Global, rows: &[Row]) -> Columns {
    let earliest = if rows.iter().any(starts_late) {
        Some(0)
    } else {
        None
    };
    let due = if rows.iter().any(has_to_end) {
        Some(0)
    } else {
        None
    };
    Columns {
        id: None,
        name: None,
        duration: None,
        predecessors: None,
        successors: None,
        earliest,
        due,
        assigned: None,
        level: None,
        resources: Vec::new(alloc),
        passed_over: Vec::new(alloc),
        count: 0,
        line: 0,
    }
}

/// Whether a task may not start at once.
fn starts_late(row: &Row) -> bool {
    row.earliest > 0
}

/// Whether a task has to end by some time.
fn has_to_end(row: &Row) -> bool {
    row.due < LATEST_TIME
}
