//! Early starts.

ghost use Rattle.std.specs.Prelude.{◌≡◌, [], IfOk, map, slice_index_or};
ghost use Rattle.racp_json.specs.Curves.{IsEarlyIn};
ghost use Rattle.racp_json.specs.Lines.{number_at};

use crate::line::{number_at, rows_of};
use serde::Serialize;
use std::alloc::{AllocError, Global};

/// The critical length of a network and its early starts, if each job may start at 0.
#[derive(Drop, Serialize)]
pub struct Early {
    /// The critical length, in time units.
    pub critical: u64,
    /// The early start of each job, by place from 0, in time units.
    pub starts: Vec<u64>,
}

/// What a text of lines `critical C` and `start j s` tells, as `cpm` writes it.
///
/// # Errors
///
/// Memory was refused.
pub fn early_of(alloc: Global, text: &str) -> Result<Early, AllocError>
    ensures { IfOk result (IsEarlyIn text.now) }
{
    let critical = first_number(&rows_of(alloc, text, "critical")?);
    let starts = second_numbers(alloc, &rows_of(alloc, text, "start")?)?;
    Ok(Early { critical, starts })
}

/// The first number of the first row; 0 if there is none.
fn first_number(rows: &[Vec<u64>]) -> u64
    ensures { result ≡ number_at 0 (slice_index_or (map (λ row. row.items) rows.now) 0 []) }
{
    match rows.first() {
        Some(row) => number_at(row, 0),
        None => 0,
    }
}

/// The second number of each row.
fn second_numbers(alloc: Global, rows: &[Vec<u64>]) -> Result<Vec<u64>, AllocError>
    ensures { IfOk result (λ numbers. numbers.items ≡ map (λ row. number_at 1 row.items) rows.now) }
{
    let mut numbers = Vec::new(alloc);
    for row in rows {
        numbers.push(number_at(row, 1))?;
    }
    Ok(numbers)
}
