//! The order that a case asks for.

ghost use Rattle.std.specs.Prelude.{◌≡◌, ◌≤◌, All, IfOk, IfSome, length, replicate};
ghost use Rattle.racp_model.specs.Limits.{latest_time, most_bound};
ghost use Rattle.racp_batch.specs.Orders.{IsDeadlineBy, terms_by};

use racp_cpm::longest;
use racp_model::Network;
use racp_prices::{Factor, Order};
use std::alloc::{AllocError, Global};

/// The critical length of a network times a factor, rounded down; `None` if that is later than a deadline may be, 10,000,000.
///
/// # Errors
///
/// Memory was refused.
pub fn deadline_of(alloc: Global, net: &Network, factor: Factor) -> Result<Option<u32>, AllocError>
    ensures deadline { IfOk result (IsDeadlineBy net.now factor) }
    ensures early { IfOk result (λ found. IfSome found (λ deadline. deadline ≤ latest_time)) }
{
    let release = zeros(alloc, net)?;
    let critical = longest(alloc, net, &release)?;
    Ok(factor.deadline(critical))
}

/// The time 0 for each job.
fn zeros(alloc: Global, net: &Network) -> Result<Vec<u32>, AllocError>
    ensures zeros { IfOk result (λ times. times.items ≡ replicate (length net.now.jobs) 0) }
    ensures places { IfOk result (λ times. length times.items ≡ length net.now.jobs) }
    ensures small { IfOk result (λ times. All (λ time. time ≤ most_bound) times.items) }
{
    vec![in alloc; 0; net.job_count()]
}

/// The order with this deadline and one price for all resources: nothing is owned, there are no ceilings, each job may start at
/// 0, and has to end by the deadline.
///
/// # Errors
///
/// Memory was refused.
pub fn order_by(
    alloc: Global,
    net: &Network,
    price: u32,
    deadline: u32,
) -> Result<Order, AllocError>
    ensures { IfOk result (λ order. order ≡ terms_by net.now price deadline) }
{
    let prices = vec![in alloc; price; net.resource_count()]?;
    let owned = vec![in alloc; 0; net.resource_count()]?;
    let release = vec![in alloc; 0; net.job_count()]?;
    let due = vec![in alloc; deadline; net.job_count()]?;
    Ok(Order {
        deadline,
        prices,
        owned,
        ceilings: None,
        release,
        due,
    })
}
