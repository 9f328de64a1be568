//! Cells of a table.

ghost use Rattle.std.specs.Prelude.{◌≡◌, IfOk, string_bytes};
ghost use Rattle.csv.specs.Records.{fields_of};
ghost use Rattle.racp_tables.specs.Cells.{cell_at, cell_of, is_blank_from, plain};

use csv::StringRecord;
use std::alloc::{AllocError, Global};

/// The text of a cell, without the blanks around it; none if the row has no such cell.
pub(crate) fn cell_at(record: &StringRecord, place: usize) -> &str
    ensures { result.now ≡ cell_at (fields_of «record».now) place }
{
    match record.get(place) {
        Some(cell) => cell.trim(),
        None => "",
    }
}

/// The text of a cell of a column that may be missing.
pub(crate) fn optional_cell(record: &StringRecord, place: Option<usize>) -> &str
    ensures { result.now ≡ cell_of (fields_of «record».now) place }
{
    match place {
        Some(place) => cell_at(record, place),
        None => "",
    }
}

/// The line of the text at which a row begins.
pub(crate) fn line_of(record: &StringRecord) -> u64 {
    match record.position() {
        Some(position) => position.line(),
        None => 0,
    }
}

/// Whether a row has nothing but blanks from this cell on.
pub(crate) fn is_empty_from(record: &StringRecord, first: usize) -> bool
    ensures { result ≡ is_blank_from first (fields_of «record».now) }
{
    for place in first..record.len() {
        if !cell_at(record, place).is_empty() {
            return false;
        }
    }
    true
}

/// A text without its control characters, in whose place blanks stand.
pub(crate) fn plain(alloc: Global, text: &str) -> Result<String, AllocError>
    ensures { IfOk result (λ plain_text. string_bytes plain_text ≡ plain text.now) }
{
    text.chars()
        .map(|letter| if letter.is_control() { ' ' } else { letter })
        .collect(alloc)
}
