//! The bounds of questions.

ghost use Rattle.std.specs.Prelude.{◌≡◌, ◌≤◌, IfOk, All, length};
ghost use Rattle.racp_clauses.specs.Solutions.{most_value};

use crate::places::variable_count;
use crate::task::Task;
use racp_clauses::Domain;
use std::alloc::{AllocError, Global};

/// What each variable is at most at the root.
pub(crate) fn uppers(task: Task<'_>) -> Result<Vec<u64>, AllocError> {
    let mut row = Vec::new(task.alloc);
    for x in 0..variable_count(task.net) {
        row.push(task.root.upper_at(x))?;
    }
    Ok(row)
}

/// The root bounds, with each upper bound lowered to the number at its place in a row, if that is less.
pub(crate) fn bounds_of(
    alloc: Global,
    root: &Domain,
    places: usize,
    most: &[u64],
) -> Result<Domain, AllocError>
    requires lower { length root.now.lower ≡ places }
    requires upper { length root.now.upper ≡ places }
    ensures lower { IfOk result (λ bounds. length bounds.lower ≡ places) }
    ensures upper { IfOk result (λ bounds. length bounds.upper ≡ places) }
{
    bounds_between(alloc, root, places, &[], most)
}

/// The root bounds, with each lower bound raised to the number at its place in a row, as far as the upper one lets it, and each
/// upper bound lowered to the number at its place in another row, if that is less.
pub(crate) fn bounds_between(
    alloc: Global,
    root: &Domain,
    places: usize,
    least: &[u64],
    most: &[u64],
) -> Result<Domain, AllocError>
    requires lower { length root.now.lower ≡ places }
    requires upper { length root.now.upper ≡ places }
    ensures lower { IfOk result (λ bounds. length bounds.lower ≡ places) }
    ensures upper { IfOk result (λ bounds. length bounds.upper ≡ places) }
{
    let lower = lower_row(alloc, root, places, least)?;
    let upper = upper_row(alloc, root, places, most)?;
    Ok(Domain::new(lower, upper))
}

/// The lower bounds, each at least the number at its place in a row, as far as the upper bound lets it.
fn lower_row(
    alloc: Global,
    root: &Domain,
    places: usize,
    least: &[u64],
) -> Result<Vec<u64>, AllocError>
    requires lower { length root.now.lower ≡ places }
    requires upper { length root.now.upper ≡ places }
    ensures places { IfOk result (λ row. length row.items ≡ places) }
    ensures small { IfOk result (λ row. All (λ x. x ≤ most_value) row.items) }
{
    let mut row = Vec::with_capacity(alloc, places)?;
    for x in 0..places {
        let raised = least.get(x).copied().unwrap_or(0).min(root.upper(x));
        row.push(root.lower(x).max(raised))?;
    }
    Ok(row)
}

/// The upper bounds, each at most the number at its place in a row.
fn upper_row(
    alloc: Global,
    root: &Domain,
    places: usize,
    most: &[u64],
) -> Result<Vec<u64>, AllocError>
    requires { length root.now.upper ≡ places }
    ensures places { IfOk result (λ row. length row.items ≡ places) }
    ensures small { IfOk result (λ row. All (λ x. x ≤ most_value) row.items) }
{
    let mut row = Vec::with_capacity(alloc, places)?;
    for x in 0..places {
        let least = most.get(x).copied().unwrap_or(u64::MAX);
        row.push(root.upper(x).min(least))?;
    }
    Ok(row)
}
