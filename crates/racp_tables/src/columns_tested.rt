//! Whether the columns are there that have to be.

use crate::choice::titles_of;
use crate::columns::Columns;
use crate::fault::TableFault;
use csv::StringRecord;
use racp_model::limits::MOST_RESOURCES;
use std::alloc::{AllocError, Global};

/// Tests that the columns are there that have to be.
pub(crate) fn test_titles(
    alloc: Global,
    columns: &Columns,
    head: &StringRecord,
) -> Result<(), TableFault> {
    let resources = columns.resources.len();
    let words = if columns.name.is_none() {
        lacking(alloc, head, "no column is called 'name'")
    } else if columns.duration.is_none() {
        lacking(alloc, head, "no column is called 'duration'")
    } else if resources == 0 && columns.assigned.is_none() {
        lacking(alloc, head, "there is no column of a resource")
    } else if resources > MOST_RESOURCES {
        too_many(alloc, resources)
    } else {
        return Ok(());
    };
    Err(TableFault::at(columns.line, words))
}

/// What is wrong where a column is missing, and which columns there are.
fn lacking(alloc: Global, head: &StringRecord, words: &str) -> Result<String, AllocError> {
    let titles = titles_of(alloc, head)?;
    format!(in alloc; "{words}; the columns are: {titles}")
}

/// What is wrong with so many resources.
pub(crate) fn too_many(alloc: Global, resources: usize) -> Result<String, AllocError> {
    format!(in alloc; "there are {resources} resources; a network has at most {MOST_RESOURCES}")
}
