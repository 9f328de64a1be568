//! How many words the cells of links and of resources have.

use crate::cell::{line_of, optional_cell};
use crate::columns::Columns;
use crate::fault::TableFault;
use csv::StringRecord;
use std::alloc::Global;

/// So many words there may be in all cells of links and of the names of resources: many times what tasks can need, and as many as
/// are read within a second or two.
const MOST_WORDS: usize = 1_000_000;

/// Tests how many words there are in the cells of links and of the names of resources.
pub(crate) fn test_words(
    alloc: Global,
    columns: &Columns,
    records: &[StringRecord],
) -> Result<(), TableFault> {
    let mut words = 0usize;
    for record in records {
        for column in [columns.predecessors, columns.successors, columns.assigned] {
            words = words.saturating_add(count_in(optional_cell(record, column)));
        }
        if words > MOST_WORDS {
            let why = format!(in alloc;
                "up to this row more than {MOST_WORDS} words stand in cells of links and resources"
            );
            return Err(TableFault::at(line_of(record), why));
        }
    }
    Ok(())
}

/// How many words stand in a cell, about: how many letters stand between them.
fn count_in(cell: &str) -> usize {
    let mut count = 0usize;
    for letter in cell.chars() {
        if letter == ',' || letter == ';' || letter.is_whitespace() {
            count = count.saturating_add(1);
        }
    }
    count
}
