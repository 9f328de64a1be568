//! Dates in the cells of a table, by a calendar.

ghost use Rattle.std.specs.Prelude.{IfOk, IfSome};
ghost use Rattle.racp_calendar.specs.Times.{IsTimeBy, IsTimeFrom};
ghost use Rattle.racp_tables.specs.CellRows.{IsTimeOfDate};

use crate::duration::Said;
use crate::fault::TableFault;
use crate::reading::Dating;
use racp_calendar::{Calendar, Workdays, date_in, time_by, time_from};
use std::alloc::{AllocError, Global};

/// The least time that begins no sooner than the date in a cell; `None` if the cell has none that is a time.
pub(crate) fn earliest_in(
    alloc: Global,
    dating: Dating<'_>,
    cell: &str,
) -> Result<Option<u32>, AllocError>
    ensures { IfOk result (λ time. IfSome time (IsTimeOfDate IsTimeFrom cell.now dating.entry)) }
{
    match dating.calendar {
        Calendar::Numbers => Ok(None),
        Calendar::Dates(calendar) => match date_in(alloc, cell, dating.form)? {
            Some(date) => Ok(Some(time_from(calendar, date))),
            None => Ok(None),
        },
    }
}

/// The greatest time that ends no later than the date in a cell of a row that begins at this line; `None` if the cell has none
/// that is a time.
pub(crate) fn due_in(
    alloc: Global,
    dating: Dating<'_>,
    cell: &str,
    line: u64,
) -> Result<Option<u32>, TableFault>
    ensures { IfOk result (λ time. IfSome time (IsTimeOfDate IsTimeBy cell.now dating.entry)) }
{
    match dating.calendar {
        Calendar::Numbers => Ok(None),
        Calendar::Dates(calendar) => match date_in(alloc, cell, dating.form)? {
            Some(date) => match time_by(calendar, date) {
                Some(time) => Ok(Some(time)),
                None => Err(TableFault::at(line, too_early(alloc, cell))),
            },
            None => Ok(None),
        },
    }
}

/// What is wrong with a cell whose date is too early.
fn too_early(alloc: Global, cell: &str) -> Result<String, AllocError> {
    format!(in alloc; "due '{cell}' is before the first day that is worked on")
}

/// Whether a cell looks like a date: three numbers between points, hyphens or slashes, one of them of four digits.
pub(crate) fn looks_dated(cell: &str) -> bool {
    looks_so(cell, ".") || looks_so(cell, "-") || looks_so(cell, "/")
}

/// Whether a cell looks like a date with this between its parts.
fn looks_so(cell: &str, mark: &str) -> bool {
    let (mut parts, mut years) = (0usize, 0usize);
    for part in cell.split(mark) {
        if part.is_empty() || !part.bytes().all(|byte| byte.is_ascii_digit()) {
            return false;
        }
        parts = parts.saturating_add(1);
        if part.len() == 4 {
            years = years.saturating_add(1);
        }
    }
    parts == 3 && years == 1
}

/// What is wrong with a cell that looks like a date and is none that is a time.
pub(crate) fn no_date(alloc: Global, said: Said<'_>, dating: Dating<'_>) -> TableFault {
    let Said { line, column, cell } = said;
    let words = if dating.calendar.has_dates() {
        format!(in alloc;
            "{column} '{cell}' is no date as the table is to write it; --date-format D.M.YYYY says how it does, else 2026-11-27"
        )
    } else {
        format!(in alloc;
            "{column} '{cell}' is a date; --calendar FILE says which days are worked on"
        )
    };
    TableFault::at(line, words)
}
