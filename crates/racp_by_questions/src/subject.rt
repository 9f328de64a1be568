//! What the search of a box is about.

use racp_model::{Capacities, Network, Window};
use racp_prices::Order;
use std::alloc::Global;

/// What the search of a box is about: the vectors within the roofs with which some starts in the window fit, by cost on
/// the terms of the order and then lexicographically.
#[derive(Clone, Copy)]
pub(crate) struct Subject<'a> {
    pub(crate) alloc: Global,
    pub(crate) net: &'a Network,
    pub(crate) order: &'a Order,
    pub(crate) root: &'a Window,
    pub(crate) roofs: &'a Capacities,
}
