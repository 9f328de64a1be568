//! What a plan is looked for.

ghost use Rattle.std.proofs.Props.{props};
ghost use Rattle.racp_model.specs.Terms.{AreTermsOf, release_of, due_of};
ghost use Rattle.racp_model.specs.Window.{IsRootWindow};

use racp_model::{Network, Window};
use racp_prices::Order;
use std::alloc::Global;

/// What a plan is looked for: an order, which has an entry for each resource and each job of the network, and its root window.
#[derive(Clone, Copy)]
pub struct Task<'a> {
    /// What answers are allocated by.
    pub alloc: Global,
    /// The network.
    pub net: &'a Network,
    /// The order.
    pub order: &'a Order,
    /// The window in which the starts of the plan lie.
    pub root: &'a Window,
    pub ghost terms: { AreTermsOf net.now order.now } by { Prim.hlevel props },
    pub ghost root_is: { IsRootWindow net.now (release_of order.now) (due_of order.now) root.now } by { Prim.hlevel props },
}
