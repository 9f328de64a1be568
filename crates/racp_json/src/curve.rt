//! The steps of a curve.

ghost use Rattle.std.specs.Prelude.{◌≡◌, IfOk, drop, map};
ghost use Rattle.racp_json.specs.Curves.{AreStepsIn, row_of, step_in};

use crate::line::{number_at, rows_of};
use serde::Serialize;
use std::alloc::{AllocError, Global};

/// A step of a curve: from this deadline on, up to that of the next step, the plan has these capacities and this cost.
#[derive(Drop, Serialize)]
pub struct Step {
    /// The deadline, in time units.
    pub deadline: u64,
    /// What the capacities cost.
    pub cost: u64,
    /// How many units there are of each resource, by place from 0.
    pub capacities: Vec<u64>,
}

/// A step for each line of a text that begins with `deadline`, as `curve` writes them.
///
/// # Errors
///
/// Memory was refused.
pub fn steps_of(alloc: Global, text: &str) -> Result<Vec<Step>, AllocError>
    ensures { IfOk result (λ steps. AreStepsIn text.now steps.items) }
{
    let rows = rows_of(alloc, text, "deadline")?;
    steps_in(alloc, &rows)
}

/// The step that each row of numbers tells.
fn steps_in(alloc: Global, rows: &[Vec<u64>]) -> Result<Vec<Step>, AllocError>
    ensures { IfOk result (λ steps. map row_of steps.items ≡ map (λ row. step_in row.items) rows.now) }
{
    let mut steps = Vec::new(alloc);
    for row in rows {
        steps.push(step_of(alloc, row)?)?;
    }
    Ok(steps)
}

/// The step that a row of numbers tells.
fn step_of(alloc: Global, row: &[u64]) -> Result<Step, AllocError>
    ensures { IfOk result (λ step. row_of step ≡ step_in row.now) }
{
    Ok(Step {
        deadline: number_at(row, 0),
        cost: number_at(row, 1),
        capacities: rest_of(row).to_vec(alloc)?,
    })
}

/// The numbers of a row from the third on.
fn rest_of(row: &[u64]) -> &[u64]
    ensures { result.now ≡ drop 2 row.now }
{
    if row.len() < 2 { &[] } else { &row[2..] }
}
