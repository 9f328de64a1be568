//! What a curve is of.

ghost use Rattle.racp_model.specs.Terms.{AreTermsOf};
ghost use Rattle.std.proofs.Props.{props};

use racp_model::Network;
use racp_prices::Order;
use std::alloc::Global;

/// What a curve is of: a network, and an order for it; and where its memory comes from.
#[derive(Clone, Copy)]
pub(crate) struct Ground<'a> {
    pub(crate) alloc: Global,
    pub(crate) net: &'a Network,
    pub(crate) order: &'a Order,
    pub(crate) ghost terms: { AreTermsOf net.now order.now } by { Prim.hlevel props },
}
