//! What capacities cost.

ghost use Rattle.std.specs.Prelude.{◌≡◌, IfOk, IfSome, length};
ghost use Rattle.racp_json.specs.Plans.{IsBoundIn};

use racp_prices::{cost_of, read_order};
use racp_sm::read_sm;
use std::alloc::{AllocError, Global};

/// What these capacities cost, by place from 0, on the terms of an order for a network, given by their texts; `None` if a
/// text is refused, there are more or fewer capacities than resources, one does not fit 32 bits, or memory ran out while
/// the texts were read.
///
/// # Errors
///
/// Memory was refused.
pub fn bound_of(
    alloc: Global,
    net: &[u8],
    order: &[u8],
    capacities: &[u64],
) -> Result<Option<u64>, AllocError>
    ensures { IfOk result (λ bound. IfSome bound (IsBoundIn net.now order.now capacities.now)) }
{
    let Some(units) = narrowed(alloc, capacities)? else {
        return Ok(None);
    };
    let Ok(net) = read_sm(alloc, net) else {
        return Ok(None);
    };
    let Ok(order) = read_order(alloc, order, net.resource_count(), net.job_count()) else {
        return Ok(None);
    };
    if units.len() != net.resource_count() {
        return Ok(None);
    }
    Ok(Some(cost_of(&net, &order, &units)))
}

/// The same numbers in 32 bits; `None` if one does not fit.
fn narrowed(alloc: Global, numbers: &[u64]) -> Result<Option<Vec<u32>>, AllocError>
    ensures { IfOk result (λ units. IfSome units (λ units. units.items ≡ numbers.now)) }
{
    let mut units = Vec::new(alloc);
    for number in numbers {
        if *number > u32::MAX as u64 {
            return Ok(None);
        }
        units.push(*number as u32)?;
    }
    Ok(Some(units))
}
