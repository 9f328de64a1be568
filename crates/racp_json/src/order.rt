//! The terms of an order.

ghost use Rattle.std.specs.Prelude.{IfOk, IfSome};
ghost use Rattle.racp_json.specs.Plans.{AreTermsTold, SaysTerms};

use racp_prices::{Order, read_order};
use racp_sm::read_sm;
use serde::Serialize;
use std::alloc::{AllocError, Global};

/// What an order says. Lists have an entry for each resource, by place from 0.
#[derive(Drop, Serialize)]
pub struct Terms {
    /// The deadline, in time units.
    pub deadline: u32,
    /// What a unit of each resource costs.
    pub prices: Vec<u32>,
    /// How many units of each resource are owned already.
    pub owned: Vec<u32>,
    /// How many units of each resource there may be; `None` if there may be any number.
    pub ceiling: Option<Vec<u32>>,
}

/// What the text of an order for a network says; `None` if a text is refused, or memory ran out while they were read.
///
/// # Errors
///
/// Memory was refused.
pub fn terms_of(alloc: Global, net: &[u8], order: &[u8]) -> Result<Option<Terms>, AllocError>
    ensures { IfOk result (λ told. IfSome told (AreTermsTold net.now order.now)) }
{
    let Ok(net) = read_sm(alloc, net) else {
        return Ok(None);
    };
    match read_order(alloc, order, net.resource_count(), net.job_count()) {
        Ok(terms) => Ok(Some(told_of(terms))),
        Err(_) => Ok(None),
    }
}

/// The terms of an order as they are told.
fn told_of(order: Order) -> Terms
    ensures { SaysTerms order result }
{
    let Order {
        deadline,
        prices,
        owned,
        ceilings,
        ..
    } = order;
    Terms {
        deadline,
        prices,
        owned,
        ceiling: ceilings,
    }
}
