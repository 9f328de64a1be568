//! What a plan is made for.

ghost use Rattle.std.proofs.Props.{props};
ghost use Rattle.racp_model.specs.Terms.{AreTermsOf};

use racp_model::Network;
use racp_prices::Order;
use std::alloc::Global;

/// What a plan is made for: an order, which has an entry for each resource and each job of the network.
#[derive(Clone, Copy)]
pub struct Task<'a> {
    /// What answers are allocated by.
    pub alloc: Global,
    /// The network.
    pub net: &'a Network,
    /// The order.
    pub order: &'a Order,
    pub ghost terms: { AreTermsOf net.now order.now } by { Prim.hlevel props },
}
