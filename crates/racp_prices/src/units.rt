//! The most units of each resource that a plan can have.

ghost use Rattle.std.specs.Prelude.{◌≡◌, ℕ, ◌<◌, IfOk};
ghost use Rattle.racp_model.specs.Terms.{AreTermsOf};
ghost use Rattle.racp_prices.specs.Units.{AreMostUnits};

use crate::order::Order;
use racp_model::{Capacities, Network, roof_of};
use std::alloc::{AllocError, Global};
use std::cmp::min;

/// The most units of each resource, by place from 0, that a plan can have: the roof, the sum of all requests, or the
/// ceiling if that is less.
///
/// # Errors
///
/// Memory was refused.
pub fn most_units(alloc: Global, net: &Network, order: &Order) -> Result<Capacities, AllocError>
    requires { AreTermsOf net.now order.now }
    ensures { IfOk result (AreMostUnits net.now order.now) }
{
    let mut units = Vec::with_capacity(alloc, net.resource_count())?;
    for k in 0..net.resource_count() {
        let roof = roof_of(net, k);
        units.push(match &order.ceilings {
            Some(ceilings) => min(roof, ceilings[k]),
            None => roof,
        })?;
    }
    Ok(Capacities::new(units))
}
