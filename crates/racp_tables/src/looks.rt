//! Rows that look like something else than tasks.

use crate::outline::is_phase_at;
use crate::row::Row;
use crate::titles::key_of;
use crate::warning::{Warning, warn};
use std::alloc::{AllocError, Global};

/// What sums are called, between blanks.
const SUMS: &str = "total totals grandtotal subtotal sum summe gesamt gesamtsumme zwischensumme";

/// Adds a warning for each row of a task that looks like a sum, or like a task that others cannot name.
pub(crate) fn warn_of_rows(
    alloc: Global,
    rows: &[Row],
    parents: &[u32],
    warnings: &mut Vec<Warning>,
) -> Result<(), AllocError> {
    let some_have_ids = rows.iter().any(has_some_id);
    for (place, row) in rows.iter().enumerate() {
        if is_phase_at(parents, place)? {
            continue;
        }
        if is_sum(alloc, row)? {
            warn(warnings, row.line, words_of(alloc, row, "looks like a sum"))?;
        } else if some_have_ids && !has_some_id(row) {
            warn(
                warnings,
                row.line,
                words_of(alloc, row, "has no id, and others have"),
            )?;
        }
    }
    Ok(())
}

/// What is told of a row that looks so, and is taken as a task.
fn words_of(alloc: Global, row: &Row, looks: &str) -> Result<String, AllocError> {
    format!(in alloc; "'{}' {looks}; it is taken as a task", row.name)
}

/// Whether a row has an id.
fn has_some_id(row: &Row) -> bool {
    !row.id.is_empty()
}

/// Whether a row is called as sums are.
fn is_sum(alloc: Global, row: &Row) -> Result<bool, AllocError> {
    let key = key_of(alloc, row.name.as_str())?;
    for known in SUMS.split_whitespace() {
        if known == key.as_str() {
            return Ok(true);
        }
    }
    Ok(false)
}
