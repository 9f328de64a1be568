//! What an optimum is looked for of.

use racp_clauses::Domain;
use racp_model::{Network, Window};
use racp_prices::Order;
use std::alloc::Global;

/// An order of a network, with its root window and root bounds.
#[derive(Clone, Copy)]
pub struct Task<'a> {
    /// Where memory comes from.
    pub alloc: Global,
    /// The network.
    pub net: &'a Network,
    /// The order, which has an entry for each resource and each job of the network.
    pub order: &'a Order,
    /// The root window.
    pub window: &'a Window,
    /// The root bounds.
    pub root: &'a Domain,
}

/// An order, and one that is part of it, as with a shorter deadline or lower ceilings.
#[derive(Clone, Copy)]
pub(crate) struct Tasks<'a> {
    pub(crate) whole: Task<'a>,
    pub(crate) part: Task<'a>,
}
