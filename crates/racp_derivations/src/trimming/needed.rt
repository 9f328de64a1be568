//! Which derivations are needed.

use racp_learning::{Derivations, Step};
use std::alloc::{AllocError, Global};

/// Whether the derivation at each place is needed to come to some of them: those of the ground before the last of these, and
/// those whose clauses are steps of what is needed.
pub(crate) fn needed_for(
    alloc: Global,
    derivations: &Derivations,
    wanted: &[u32],
) -> Result<Vec<bool>, AllocError> {
    let last = wanted.last().copied().unwrap_or(0) as usize;
    let count = derivations.count().min(last.saturating_add(1));
    let mut needed = Vec::from_elem(alloc, false, count)?;
    for &at in wanted {
        mark(&mut needed, at as usize);
    }
    for back in 0..count {
        let at = count.wrapping_sub(1).wrapping_sub(back);
        let is_needed = needed.get(at).copied().unwrap_or(false);
        if is_needed || derivations.is_ground(at) {
            mark(&mut needed, at);
            for step in derivations.steps(at) {
                if let Step::Clause(of) = *step {
                    mark(&mut needed, of as usize);
                }
            }
        }
    }
    Ok(needed)
}

/// The derivation at a place is needed.
fn mark(needed: &mut [bool], at: usize) {
    if let Some(is_needed) = needed.get_mut(at) {
        *is_needed = true;
    }
}
