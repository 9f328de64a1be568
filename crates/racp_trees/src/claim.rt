//! What blocks are to prove.

use racp_model::Network;
use racp_prices::Order;

/// What blocks are to prove: that no capacity vector up to the roofs that stands before the capacities is enough, on
/// the terms of an order.
#[derive(Clone, Copy)]
pub struct Claim<'a> {
    /// The network.
    pub net: &'a Network,
    /// The order.
    pub order: &'a Order,
    /// The most units of each resource that are of use, by place from 0, cut to the order's ceilings.
    pub roofs: &'a [u32],
    /// The capacities before which none are enough, by place from 0.
    pub capacities: &'a [u32],
}
