//! Tables of rows and cells.

ghost use Rattle.std.specs.Prelude.{◌≡◌, ◌+◌, ◌++◌, ◌∷◌, [], IfOk, OnOk, false, map, string_bytes, vec_len};
ghost use Rattle.csv.specs.Records.{fields_of};
ghost use Rattle.racp_tables.specs.CellRows.{AreRowsOf, IsRowAdded};
ghost use Rattle.racp_tables.specs.Records.{with_text};
ghost use Rattle.racp_tables.specs.TablesRead.{IsTableBelow, IsTableRead};

use crate::cell::{is_empty_from, line_of};
use crate::columns::columns_of;
use crate::fault::TableFault;
use crate::layout::layout_of;
use crate::levels::{ids_in, outline_of};
use crate::outline::{is_phase_at, parents_of};
use crate::reading::Reading;
use crate::records::records_of;
use crate::roster::roster_of;
use crate::row::{Cells, Row, row_of};
use crate::rows::table_of;
use crate::sheet::{sheet_of, with_line_feeds};
use crate::table::Table;
use crate::taken::Taken;
use crate::words::test_words;
use csv::StringRecord;
use racp_model::limits::MOST_JOBS;
use std::alloc::{AllocError, Global};

/// How many rows there may be, those of phases too.
const MOST_ROWS: usize = 2 * MOST_JOBS;

/// The table of a text of rows and cells.
pub(crate) fn read_rows(
    alloc: Global,
    text: &str,
    reading: &Reading<'_>,
) -> Result<Table, TableFault>
    ensures { IfOk result (IsTableRead reading.now.scale reading.now.dating) }
{
    let lines = with_line_feeds(alloc, text)?;
    let layout = layout_of(alloc, &lines)?;
    let sheet = sheet_of(alloc, &lines, layout)?;
    let records = records_of(alloc, &sheet, layout.separator)?;
    match records.split_first() {
        Some((head, records)) => table_below(alloc, head, records, reading),
        None => Err(no_rows(alloc)),
    }
}

/// What is wrong with a text without rows.
fn no_rows(alloc: Global) -> TableFault {
    TableFault::at(0, String::from_str(alloc, "the table is empty"))
}

/// The table of the records below a row of titles.
fn table_below(
    alloc: Global,
    head: &StringRecord,
    records: &[StringRecord],
    reading: &Reading<'_>,
) -> Result<Table, TableFault>
    ensures { IfOk result (IsTableBelow reading.now.scale reading.now.dating (map fields_of records.now)) }
{
    if is_empty_from(head, 0) {
        return Err(no_rows(alloc));
    }
    let columns = columns_of(alloc, head, reading)?;
    test_rows(alloc, records)?;
    test_words(alloc, &columns, records)?;
    let outline = outline_of(alloc, &columns, records)?;
    let ids = ids_in(alloc, &columns, records)?;
    let parents = parents_of(alloc, &ids, &outline)?;
    test_tasks(alloc, records, &parents)?;
    let roster = roster_of(alloc, columns.assigned, &parents, records)?;
    let taken = Taken {
        columns: &columns,
        roster: &roster,
        parents: &parents,
        scale: reading.scale,
        dating: reading.dating,
    };
    let rows = rows_of(alloc, taken, records)?;
    table_of(alloc, taken, &rows, &outline)
}

/// Tests how many rows have some text.
fn test_rows(alloc: Global, records: &[StringRecord]) -> Result<(), TableFault> {
    let mut count = 0usize;
    for record in records {
        if !is_empty_from(record, 0) {
            count = count.saturating_add(1);
            if count > MOST_ROWS {
                return Err(TableFault::at(line_of(record), too_many_tasks(alloc)));
            }
        }
    }
    Ok(())
}

/// Tests how many of the rows with some text are no phases, which are parts of each other so.
fn test_tasks(alloc: Global, records: &[StringRecord], parents: &[u32]) -> Result<(), TableFault> {
    let (mut place, mut tasks) = (0usize, 0usize);
    for record in records {
        if !is_empty_from(record, 0) {
            tasks = tasks.saturating_add(usize::from(!is_phase_at(parents, place)?));
            place = place.saturating_add(1);
            if tasks > MOST_JOBS {
                return Err(TableFault::at(line_of(record), too_many_tasks(alloc)));
            }
        }
    }
    Ok(())
}

/// What is wrong with a table of too many tasks.
fn too_many_tasks(alloc: Global) -> Result<String, AllocError> {
    format!(in alloc; "there are more than {MOST_JOBS} tasks")
}

/// The rows of tasks and phases; empty rows are passed over.
fn rows_of(
    alloc: Global,
    taken: Taken<'_>,
    records: &[StringRecord],
) -> Result<Vec<Row>, TableFault>
    ensures { IfOk result (λ rows. AreRowsOf taken.entry.columns.now (map string_bytes taken.entry.roster.now) taken.entry.parents.now taken.entry.scale taken.entry.dating 1
        (with_text (map fields_of records.now)) rows.items) }
{
    let mut rows = Vec::new(alloc);
    for record in records {
        if !is_empty_from(record, 0) {
            push_row(alloc, &mut rows, taken, record)?;
        }
    }
    Ok(rows)
}

/// Adds the row of a task or a phase.
fn push_row(
    alloc: Global,
    rows: &mut Vec<Row>,
    taken: Taken<'_>,
    record: &StringRecord,
) -> Result<(), TableFault>
    ensures { OnOk result (IsRowAdded taken.entry.columns.now (map string_bytes taken.entry.roster.now) taken.entry.parents.now taken.entry.scale taken.entry.dating (fields_of «record».now)
        rows.old.items rows.new.items) }
{
    let place = rows.len();
    let number = place.saturating_add(1);
    let cells = Cells {
        columns: taken.columns,
        roster: taken.roster,
        record,
        scale: taken.scale,
        dating: taken.dating,
        is_phase: is_phase_at(taken.parents, place)?,
    };
    let row = row_of(alloc, cells, number)?;
    if number > MOST_ROWS {
        return Err(TableFault::at(row.line, too_many_tasks(alloc)));
    }
    if rows.iter().any(|other| has_id(other, row.id.as_str())) {
        let words = format!(in alloc; "two tasks have the id '{}'", row.id);
        return Err(TableFault::at(row.line, words));
    }
    keep_row(rows, row)?;
    Ok(())
}

/// Whether a row has this id, which is not empty.
fn has_id(row: &Row, id: &str) -> bool {
    !id.is_empty() && row.id.as_str() == id
}

/// Adds a row.
fn keep_row(rows: &mut Vec<Row>, row: Row) -> Result<(), AllocError>
    ensures { OnOk result (rows.new.items ≡ rows.old.items ++ row ∷ []) }
{
    rows.push(row)?;
    Ok(())
}
