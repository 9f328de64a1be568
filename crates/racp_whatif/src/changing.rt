//! Orders with one term changed.

ghost use Rattle.std.specs.Prelude.{◌≡◌, ◌<◌, IfOk, IfSome, length, map, option_map, replicate, unwrap_or};
ghost use Rattle.racp_model.specs.Limits.{most_units};
ghost use Rattle.racp_model.specs.Project.{Project};
ghost use Rattle.racp_model.specs.Terms.{AreTermsOf};
ghost use Rattle.racp_whatif.specs.Changes.{IsChangeFor, changed, moved, with_ceiling, with_deadline, with_owned};

use crate::change::Change;
use racp_model::limits::MOST_UNITS;
use racp_prices::Order;
use std::alloc::{AllocError, Global};

/// The order with one term changed. If it has no ceilings, those of the other resources are 10,000,000 then, the most that
/// an order may say; a job that is due at the deadline is due at the new one.
///
/// # Errors
///
/// Memory was refused.
pub(crate) fn changed(alloc: Global, order: &Order, change: Change) -> Result<Order, AllocError>
    requires { IsChangeFor order.now change }
    ensures changed { IfOk result (λ other. other ≡ changed change order.now) }
    ensures terms { IfOk result (λ other. (p : Project) → AreTermsOf p order.now → AreTermsOf p other) }
{
    match change {
        Change::Ceiling { place, units } => with_ceiling(alloc, order, place, units),
        Change::Owned { place, units } => with_owned(alloc, order, place, units),
        Change::Deadline { deadline } => with_deadline(alloc, order, deadline),
    }
}

/// The same order.
fn copied(alloc: Global, order: &Order) -> Result<Order, AllocError>
    ensures { IfOk result (λ copy. copy ≡ order.now) }
{
    let prices = order.prices.to_vec(alloc)?;
    let owned = order.owned.to_vec(alloc)?;
    let ceilings = copied_list(alloc, &order.ceilings)?;
    let release = order.release.to_vec(alloc)?;
    let due = order.due.to_vec(alloc)?;
    Ok(Order {
        deadline: order.deadline,
        prices,
        owned,
        ceilings,
        release,
        due,
    })
}

/// The same numbers, if there are any.
fn copied_list(alloc: Global, numbers: &Option<Vec<u32>>) -> Result<Option<Vec<u32>>, AllocError>
    ensures { IfOk result (λ copy. option_map (λ c. c.items) copy ≡ option_map (λ c. c.items) numbers.now) }
{
    match numbers {
        Some(numbers) => Ok(Some(numbers.to_vec(alloc)?)),
        None => Ok(None),
    }
}

/// The order with this ceiling.
fn with_ceiling(alloc: Global, order: &Order, place: u32, units: u32) -> Result<Order, AllocError>
    requires place { place < length order.now.prices }
    requires ceilings { IfSome order.now.ceilings (λ ceilings. place < length ceilings) }
    ensures { IfOk result (λ other. other ≡ with_ceiling place units order.now) }
{
    let mut ceilings = ceilings_of(alloc, order)?;
    ceilings[place as usize] = units;
    let mut other = copied(alloc, order)?;
    other.ceilings = Some(ceilings);
    Ok(other)
}

/// The ceilings; without ceilings, the most units that an order may say for each resource.
fn ceilings_of(alloc: Global, order: &Order) -> Result<Vec<u32>, AllocError>
    ensures { IfOk result (λ ceilings. ceilings.items ≡
        unwrap_or order.now.ceilings (replicate (length order.now.prices) most_units)) }
{
    match &order.ceilings {
        Some(ceilings) => ceilings.to_vec(alloc),
        None => vec![in alloc; MOST_UNITS; order.prices.len()],
    }
}

/// The order with so many owned units.
fn with_owned(alloc: Global, order: &Order, place: u32, units: u32) -> Result<Order, AllocError>
    requires { place < length order.now.owned }
    ensures { IfOk result (λ other. other ≡ with_owned place units order.now) }
{
    let mut other = copied(alloc, order)?;
    other.owned[place as usize] = units;
    Ok(other)
}

/// The order with another deadline.
fn with_deadline(alloc: Global, order: &Order, deadline: u32) -> Result<Order, AllocError>
    ensures { IfOk result (λ other. other ≡ with_deadline deadline order.now) }
{
    let due = moved_times(alloc, &order.due, order.deadline, deadline)?;
    let mut other = copied(alloc, order)?;
    other.deadline = deadline;
    other.due = due;
    Ok(other)
}

/// Due times if the deadline is moved.
fn moved_times(alloc: Global, due: &[u32], old: u32, new: u32) -> Result<Vec<u32>, AllocError>
    ensures { IfOk result (λ times. times.items ≡ map (moved old new) due.now) }
{
    due.iter().map(|time| moved(old, new, *time)).collect(alloc)
}

/// A due time if the deadline is moved: one that is the deadline is moved with it.
fn moved(old: u32, new: u32, due: u32) -> u32
    ensures { result ≡ moved old new due }
{
    if due == old { new } else { due }
}
