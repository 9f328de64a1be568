//! The cost of capacities.

ghost use Rattle.std.specs.Prelude.{◌≡◌, length};
ghost use Rattle.racp_model.specs.Terms.{AreTermsOf, cost};

use crate::order::Order;
use racp_model::Network;

/// What capacities cost on the terms of an order for a network: each unit that is not owned already costs its price.
/// There is a capacity for each resource, by place from 0. Takes no memory.
#[tactic(auto, using(racp_model::proofs::lemmas::Sums::sums))]
pub fn cost_of(net: &Network, order: &Order, capacities: &[u32]) -> u64
    requires terms { AreTermsOf net.now order.now }
    requires capacities { length capacities.now ≡ net.now.resources }
    ensures { result ≡ cost order.now capacities.now }
{
    let mut sum = 0;
    for k in 0..net.resource_count() {
        sum += order.prices[k] as u64 * capacities[k].saturating_sub(order.owned[k]) as u64;
    }
    sum
}
