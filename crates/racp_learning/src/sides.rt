//! What the bounds of a question say.

use racp_clauses::Domain;
use racp_model::Network;
use std::alloc::{AllocError, Global};

/// The bounds by sides.
pub(crate) fn sides_of(
    alloc: Global,
    net: &Network,
    bounds: &Domain,
) -> Result<Vec<i64>, AllocError> {
    let mut row = Vec::new(alloc);
    for x in 0..net.job_count() + net.resource_count() + 1 {
        let upper = i64::try_from(bounds.upper_at(x)).unwrap_or(0);
        row.push(i64::try_from(bounds.lower_at(x)).unwrap_or(0))?;
        row.push(upper.wrapping_neg())?;
    }
    Ok(row)
}

/// Which jobs start no later than their upper bounds if those that come behind them do.
pub(crate) fn implied_of(
    alloc: Global,
    net: &Network,
    bounds: &Domain,
) -> Result<Vec<bool>, AllocError> {
    let mut implied = Vec::from_elem(alloc, false, net.job_count())?;
    for &(before, after) in net.arcs() {
        let i = (before as usize).saturating_sub(1);
        let j = (after as usize).saturating_sub(1);
        if i < implied.len() && j < implied.len() {
            let end = bounds.upper_at(i).saturating_add(net.duration(i) as u64);
            if bounds.upper_at(j) <= end {
                implied[i] = true;
            }
        }
    }
    Ok(implied)
}
