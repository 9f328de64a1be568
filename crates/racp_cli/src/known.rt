//! The text of a plan that is known while planning goes on.

ghost use Rattle.std.specs.Prelude.{Ok, IfOk, IfSome};
ghost use Rattle.racp_cli.specs.Checks.{IsCheck};

use crate::check::check;
use crate::check_fault::CheckFault;
use racp_cpm::longest;
use racp_plan::lines::push_starts;
use racp_prices::{Order, cost_of, read_order};
use racp_sm::read_sm;
use std::alloc::{AllocError, Global};

/// The text of the plan with these capacities and starts, by place from 0, for the texts of a network and an order; `None`
/// if `check_over` would not say `ok` to it.
///
/// # Errors
///
/// Memory was refused.
pub fn known_text(
    alloc: Global,
    net: &[u8],
    order: &[u8],
    capacities: &[u32],
    starts: &[u32],
) -> Result<Option<Vec<u8>>, AllocError>
    ensures { IfOk result (λ text. IfSome text (λ text. IsCheck net.now order.now text.items (Ok tt))) }
{
    let Some(text) = text_of(alloc, net, order, capacities, starts)? else {
        return Ok(None);
    };
    match check(alloc, net, order, &text) {
        Ok(()) => Ok(Some(text)),
        Err(CheckFault::OutOfMemory) => Err(AllocError),
        Err(_) => Ok(None),
    }
}

/// The lines of the plan with these capacities and starts; `None` if a text is refused, or there are more or fewer
/// capacities than resources.
fn text_of(
    alloc: Global,
    net: &[u8],
    order: &[u8],
    capacities: &[u32],
    starts: &[u32],
) -> Result<Option<Vec<u8>>, AllocError> {
    let Ok(network) = read_sm(alloc, net) else {
        return Ok(None);
    };
    let Ok(terms) = read_order(alloc, order, network.resource_count(), network.job_count()) else {
        return Ok(None);
    };
    if capacities.len() != network.resource_count() {
        return Ok(None);
    }
    let critical = longest(alloc, &network, &terms.release)?;
    let cost = cost_of(&network, &terms, capacities);
    Ok(Some(lines(alloc, &terms, critical, cost, capacities, starts)?))
}

/// The lines of the plan with this critical length, cost, capacities and starts.
fn lines(
    alloc: Global,
    order: &Order,
    critical: u64,
    cost: u64,
    capacities: &[u32],
    starts: &[u32],
) -> Result<Vec<u8>, AllocError> {
    let deadline = order.deadline;
    let head = format!(in alloc; "deadline {deadline}\ncritical {critical}\ncost {cost}\n")?;
    let mut text = head.into_bytes();
    let mut resource = 1u32;
    for units in capacities {
        let line = format!(in alloc; "capacity {resource} {units}\n")?;
        text.extend_from_slice(line.as_bytes())?;
        resource = resource.saturating_add(1);
    }
    push_starts(alloc, &mut text, starts)?;
    text.extend_from_slice(b"end\n")?;
    Ok(text)
}
