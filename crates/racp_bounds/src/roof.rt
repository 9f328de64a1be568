//! Roofs: the sums of all requests, which no schedule exceeds.

ghost use Rattle.std.specs.Prelude.{◌≡◌, IfOk};
ghost use Rattle.racp_bounds.specs.Floors.{AreRoofs};

use racp_model::{Capacities, Network, roof_of};
use std::alloc::{AllocError, Global};

/// The roof of each resource, by place from 0: the sum of all requests of it, in units. No schedule ever uses more.
///
/// # Errors
///
/// Memory was refused.
pub fn roofs(alloc: Global, net: &Network) -> Result<Capacities, AllocError>
    ensures { IfOk result (AreRoofs net.now) }
{
    let mut units = Vec::with_capacity(alloc, net.resource_count())?;
    for k in 0..net.resource_count() {
        units.push(roof_of(net, k))?;
    }
    Ok(Capacities::new(units))
}
