//! Where the rows of a table stand in its outline, by their levels and their ids.

use crate::cell::{cell_at, is_empty_from, line_of, optional_cell};
use crate::columns::Columns;
use crate::fault::TableFault;
use crate::outline::Outline;
use csv::StringRecord;
use racp_text::number;
use std::alloc::{AllocError, Global};

/// By what the rows of a table with these columns are parts of others.
pub(crate) fn outline_of(
    alloc: Global,
    columns: &Columns,
    records: &[StringRecord],
) -> Result<Outline, TableFault> {
    match columns.level {
        Some(place) => Ok(Outline::ByLevel(levels_of(alloc, records, place)?)),
        None => Ok(Outline::ById),
    }
}

/// The levels of the rows with some text, which stand in the column at a place.
fn levels_of(
    alloc: Global,
    records: &[StringRecord],
    place: usize,
) -> Result<Vec<u64>, TableFault> {
    let mut levels = Vec::new(alloc);
    for record in records {
        if !is_empty_from(record, 0) {
            let level = level_of(alloc, record, place)?;
            keep_level(&mut levels, level)?;
        }
    }
    Ok(levels)
}

/// Adds a level.
fn keep_level(levels: &mut Vec<u64>, level: u64) -> Result<(), AllocError> {
    levels.push(level)?;
    Ok(())
}

/// The level of a row, which stands in the column at a place.
fn level_of(alloc: Global, record: &StringRecord, place: usize) -> Result<u64, TableFault> {
    let cell = cell_at(record, place);
    match number(cell.as_bytes()) {
        Some(level) => Ok(level),
        None => {
            let words = format!(in alloc; "outline level '{cell}' is no whole number");
            Err(TableFault::at(line_of(record), words))
        }
    }
}

/// The ids of the rows with some text; none where no column says them, since numbers of rows are within none.
pub(crate) fn ids_in(
    alloc: Global,
    columns: &Columns,
    records: &[StringRecord],
) -> Result<Vec<String>, AllocError> {
    let mut ids = Vec::new(alloc);
    for record in records {
        if !is_empty_from(record, 0) {
            ids.push(String::from_str(alloc, optional_cell(record, columns.id))?)?;
        }
    }
    Ok(ids)
}
