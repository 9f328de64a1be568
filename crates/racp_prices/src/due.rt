//! Due times, cut to the deadline.

ghost use Rattle.std.specs.Prelude.{◌≡◌, IfOk, map, min};

use crate::order::Order;
use std::alloc::{AllocError, Global};
use std::cmp::min;

/// The time by which each job has to end, by place from 0, in time units: its due time, or the deadline if that is
/// earlier.
///
/// # Errors
///
/// Memory was refused.
pub fn due_times(alloc: Global, order: &Order) -> Result<Vec<u32>, AllocError>
    ensures { IfOk result (λ due. due.items ≡ map (λ time. min time order.now.deadline) order.now.due) }
{
    order
        .due
        .iter()
        .map(|due| min(*due, order.deadline))
        .collect(alloc)
}
