//! Why an order has no plan.

ghost use Rattle.racp_model.specs.Terms.{AreTermsOf};

use crate::faults::THERE;
use crate::faults::numbered::{at, due_of, end_of};
use racp_cpm::early;
use racp_model::Network;
use racp_prices::Order;
use std::alloc::{AllocError, Global};

/// Adds the shortest deadline, and the order's.
///
/// # Errors
///
/// Memory was refused.
pub(crate) fn push_too_long(
    text: &mut String,
    order: &Order,
    critical: u64,
) -> Result<(), AllocError> {
    let deadline = order.deadline;
    write!(
        text,
        "a deadline of {critical} or later, the length of the longest chain of jobs{THERE}deadline = {deadline}"
    )
}

/// Adds the earliest end of a job, and when it has to end.
///
/// # Errors
///
/// Memory was refused.
pub(crate) fn push_too_late(
    alloc: Global,
    text: &mut String,
    net: &Network,
    order: &Order,
    job: u32,
) -> Result<(), AllocError>
    requires { AreTermsOf net.now order.now }
{
    let end = earliest_end(alloc, net, order, job)?;
    let due = due_of(order, job);
    write!(
        text,
        "a due time of job {job} of {end} or later, when it can end at the earliest{THERE}due time {due}"
    )
}

/// When a job can end at the earliest.
fn earliest_end(alloc: Global, net: &Network, order: &Order, job: u32) -> Result<u64, AllocError>
    requires { AreTermsOf net.now order.now }
{
    let starts = early(alloc, net, order.release.as_slice())?;
    Ok(end_of(net, job, at(starts.as_slice(), job)))
}

/// Adds that the ceilings of an order leave no room, and the ceilings.
///
/// # Errors
///
/// Memory was refused.
pub(crate) fn push_no_room(
    text: &mut String,
    order: &Order,
    ceilings: &[u32],
) -> Result<(), AllocError> {
    let deadline = order.deadline;
    write!(
        text,
        "more units than the ceilings allow, or a later deadline than {deadline}{THERE}the ceilings"
    )?;
    push_units(text, ceilings)
}

/// Adds numbers of units.
fn push_units(text: &mut String, numbers: &[u32]) -> Result<(), AllocError> {
    for units in numbers {
        write!(text, " {units}")?;
    }
    Ok(())
}
