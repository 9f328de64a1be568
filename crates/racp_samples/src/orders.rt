//! Orders that a test fills.

use racp_prices::Order;
use std::alloc::Global;

/// An order of a deadline without entries.
pub fn empty_order(alloc: Global, deadline: u32) -> Order {
    Order {
        deadline,
        prices: Vec::new(alloc),
        owned: Vec::new(alloc),
        ceilings: None,
        release: Vec::new(alloc),
        due: Vec::new(alloc),
    }
}
