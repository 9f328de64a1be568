//! What of an order is shown.

ghost use Rattle.std.specs.Prelude.{◌≡◌, ◌<◌, length, slice_index};

use racp_prices::Order;

/// The deadline of an order.
pub(crate) fn deadline_of(order: &Order) -> u32
    ensures { result ≡ order.now.deadline }
{
    order.deadline
}

/// What a unit of the resource at place `k` costs.
pub(crate) fn price_of(order: &Order, k: usize) -> u32
    requires { k < length order.now.prices }
    ensures { result ≡ slice_index order.now.prices k }
{
    order.prices[k]
}

/// How many units of the resource at place `k` are owned already.
pub(crate) fn owned_of(order: &Order, k: usize) -> u32
    requires { k < length order.now.owned }
    ensures { result ≡ slice_index order.now.owned k }
{
    order.owned[k]
}
