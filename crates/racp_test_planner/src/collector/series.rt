//! Series of the capacity vectors of a box, each with the root window.

ghost use Rattle.std.specs.Prelude.{◌≡◌, length, IfOk, IfSome};
ghost use Rattle.racp_candidates.specs.Box.{ArePrices, AreBounds};
ghost use Rattle.racp_model.specs.Formed.{AreFormed, HasBounds};

use crate::series::boxes::Boxed;
use crate::series::parts::{Parts, is_box, parts_of};
use racp_candidates::Vectors;
use racp_model::{Capacities, Network, Window};
use racp_prices::Order;
use racp_samples::root_window;
use std::alloc::{AllocError, Global};

/// The vectors of a box that no pair excludes, asked for the deadline 3; or `None` if it is none of the network, or
/// memory is refused.
pub(crate) fn vectors(alloc: Global, net: &Network, row: &Boxed) -> Option<Vectors>
    ensures { IfSome result (λ series. AreFormed net.now series) }
{
    let Some(parts) = parts_of(alloc, row) else {
        return None;
    };
    match root_window(alloc, net, 3) {
        Ok(window) => of_parts(alloc, net, parts, &window),
        Err(_) => None,
    }
}

/// The vectors of a box that no pair excludes, from the parts of the box and a window.
fn of_parts(alloc: Global, net: &Network, parts: Parts, window: &Window) -> Option<Vectors>
    requires { HasBounds net.now window.now }
    ensures { IfSome result (λ series. AreFormed net.now series) }
{
    if net.resource_count() != parts.floors.as_slice().len() || !is_box(&parts) {
        return None;
    }
    let Parts {
        order,
        floors,
        roofs,
        pairs: _,
    } = parts;
    match boxed(alloc, net, &order, floors, roofs, window) {
        Ok(series) => Some(series),
        Err(_) => None,
    }
}

/// The vectors of a box that no pair excludes.
fn boxed(
    alloc: Global,
    net: &Network,
    order: &Order,
    floors: Capacities,
    roofs: Capacities,
    window: &Window,
) -> Result<Vectors, AllocError>
    requires prices { ArePrices order.now.prices order.now.owned }
    requires priced { length order.now.prices ≡ length floors }
    requires roofs { length roofs ≡ length floors }
    requires bounds { AreBounds floors roofs }
    requires places { length floors ≡ net.now.resources }
    requires window { HasBounds net.now window.now }
    ensures { IfOk result (λ series. AreFormed net.now series) }
{
    let _ = net;
    let series = Vectors::new(alloc, order, floors, roofs, Vec::new(alloc), window)?;
    Ok(series)
}
