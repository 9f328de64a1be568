//! Bounds on the cost from those on the units, and back.

ghost use Rattle.std.specs.Prelude.{◌≡◌, ◌<◌, ◌-◌, ◌^◌, ◌≤◌, min, length, slice_index};
ghost use Rattle.racp_model.specs.Limits.{most_units};
ghost use Rattle.racp_model.specs.Schedule.{sum_below};
ghost use Rattle.racp_model.specs.Terms.{AreTermsOf};
ghost use Rattle.racp_clauses.specs.Solutions.{HasPlaces};
ghost use Rattle.racp_clauses.specs.Inferences.{Follows};
ghost use Rattle.racp_clauses.specs.Rules.{by_cost, by_units, least_price, price_beside};

use crate::domain::Domain;
use crate::inference::Inference;
use crate::literal::Literal;
use racp_model::Network;
use racp_prices::Order;

/// The cost is at least that of the least units.
pub(crate) fn least_cost(net: &Network, bounds: &Domain, order: &Order) -> Inference
    requires places { HasPlaces net.now bounds.now }
    requires terms { AreTermsOf net.now order.now }
    ensures exact { result ≡ by_units net.now order.now bounds.now }
    ensures follows { Follows net.now order.now bounds.now result }
{
    let place = net.job_count() + net.resource_count();
    let least = least_sum(net, bounds, order);
    if bounds.upper(place) < least {
        return Inference::Close;
    }
    Inference::Narrow(Literal::AtLeast(place as u32, least))
}

/// The units of a resource are at most what is left of the greatest cost pays for, and the owned ones.
pub(crate) fn most_units(net: &Network, bounds: &Domain, order: &Order, k: usize) -> Inference
    requires places { HasPlaces net.now bounds.now }
    requires terms { AreTermsOf net.now order.now }
    requires resource { k < net.now.resources }
    ensures exact { result ≡ by_cost net.now order.now bounds.now k }
    ensures follows { Follows net.now order.now bounds.now result }
{
    let price = price_of(net, order, k);
    if price == 0 {
        return Inference::Nothing;
    }
    let others = others_sum(net, bounds, order, k);
    let most = bounds.upper(net.job_count() + net.resource_count());
    if most < others {
        return Inference::Close;
    }
    let place = net.job_count() + k;
    let units = owned_of(net, order, k) + (most - others) / price;
    Inference::Narrow(Literal::AtMost(place as u32, units))
}

/// What the least units cost, or the greatest number if it is less.
#[tactic(auto, using(crate::proofs::Prices::least_prices))]
fn least_sum(net: &Network, bounds: &Domain, order: &Order) -> u64
    requires places { HasPlaces net.now bounds.now }
    requires terms { AreTermsOf net.now order.now }
    ensures { result ≡ min (sum_below net.now.resources (least_price net.now order.now bounds.now)) (2 ^ 64 - 1) }
{
    let mut sum = 0u64;
    for k in 0..net.resource_count() {
        sum = sum.saturating_add(least_at(net, bounds, order, k));
    }
    sum
}

/// What the least units of all resources but one cost, or the greatest number if it is less.
#[tactic(auto, using(crate::proofs::Prices::least_prices))]
fn others_sum(net: &Network, bounds: &Domain, order: &Order, k: usize) -> u64
    requires places { HasPlaces net.now bounds.now }
    requires terms { AreTermsOf net.now order.now }
    ensures { result ≡ min (sum_below net.now.resources (price_beside net.now order.now bounds.now k)) (2 ^ 64 - 1) }
{
    let mut sum = 0u64;
    for q in 0..net.resource_count() {
        sum = sum.saturating_add(beside_at(net, bounds, order, k, q));
    }
    sum
}

/// What the least units of a resource cost, if it is another one than this.
#[tactic(auto, unfolding(crate::specs::Rules::price_beside))]
fn beside_at(net: &Network, bounds: &Domain, order: &Order, k: usize, q: usize) -> u64
    requires places { HasPlaces net.now bounds.now }
    requires terms { AreTermsOf net.now order.now }
    requires resource { q < net.now.resources }
    ensures { result ≡ min (price_beside net.now order.now bounds.now k q) (2 ^ 64 - 1) }
{
    if q == k {
        return 0;
    }
    least_at(net, bounds, order, q)
}

/// What the least units of a resource cost, or the greatest number if it is less.
fn least_at(net: &Network, bounds: &Domain, order: &Order, k: usize) -> u64
    requires places { HasPlaces net.now bounds.now }
    requires terms { AreTermsOf net.now order.now }
    requires resource { k < net.now.resources }
    ensures { result ≡ min (least_price net.now order.now bounds.now k) (2 ^ 64 - 1) }
{
    let units = bounds.lower(net.job_count() + k);
    price_of(net, order, k).saturating_mul(units.saturating_sub(owned_of(net, order, k)))
}

/// The price of a unit.
fn price_of(net: &Network, order: &Order, k: usize) -> u64
    requires terms { AreTermsOf net.now order.now }
    requires resource { k < net.now.resources }
    ensures { result ≡ slice_index order.now.prices k }
{
    order.prices[k] as u64
}

/// How many units are owned.
fn owned_of(net: &Network, order: &Order, k: usize) -> u64
    requires terms { AreTermsOf net.now order.now }
    requires resource { k < net.now.resources }
    ensures owned { result ≡ slice_index order.now.owned k }
    ensures small { result ≤ most_units }
{
    order.owned[k] as u64
}
