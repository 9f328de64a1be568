//! What boxes are made of.

ghost use Rattle.std.specs.Prelude.{◌≡◌, IsTrue, length};
ghost use Rattle.racp_model.specs.Project.{AreNumbers};
ghost use Rattle.racp_candidates.specs.Box.{ArePrices, AreBounds};

use crate::series::boxes::Boxed;
use racp_model::Capacities;
use racp_prices::Order;
use std::alloc::{AllocError, Global};

/// Whether the pairs name resources by their numbers.
fn are_numbers(count: usize, pairs: &[(u32, u32)]) -> bool
    ensures { IsTrue result → AreNumbers count pairs.now }
{
    pairs.iter().all(|&(k, l)| 1 <= k && k as usize <= count && 1 <= l && l as usize <= count)
}

fn are_prices(prices: &[u32], owned: &[u32]) -> bool
    ensures { IsTrue result → ArePrices prices.now owned.now }
{
    prices.len() <= 16
        && owned.len() == prices.len()
        && prices.iter().all(|price| *price <= 1_000_000)
}

fn are_bounds(floors: &[u32], roofs: &[u32]) -> bool
    ensures bounds { IsTrue result → AreBounds floors.now roofs.now }
    ensures roofs { IsTrue result → length roofs.now ≡ length floors.now }
{
    roofs.len() == floors.len() && floors.iter().zip(roofs).all(|(low, high)| *low <= *high)
}

/// What a box is made of.
#[derive(Drop)]
pub(crate) struct Parts {
    pub(crate) order: Order,
    pub(crate) floors: Capacities,
    pub(crate) roofs: Capacities,
    pub(crate) pairs: Vec<(u32, u32)>,
}

/// Puts what a row says into the parts of a box.
fn fill(alloc: Global, row: &Boxed, parts: &mut Parts) -> Result<(), AllocError> {
    parts.order.prices = row.prices.to_vec(alloc)?;
    parts.order.owned = row.owned.to_vec(alloc)?;
    parts.floors = Capacities::new(row.floors.to_vec(alloc)?);
    parts.roofs = Capacities::new(row.roofs.to_vec(alloc)?);
    parts.pairs = row.pairs.to_vec(alloc)?;
    Ok(())
}

/// The parts of a box; or `None` if memory is refused.
pub(crate) fn parts_of(alloc: Global, row: &Boxed) -> Option<Parts> {
    let order = Order {
        deadline: 0,
        prices: Vec::new(alloc),
        owned: Vec::new(alloc),
        ceilings: None,
        release: Vec::new(alloc),
        due: Vec::new(alloc),
    };
    let mut parts = Parts {
        order,
        floors: Capacities::new(Vec::new(alloc)),
        roofs: Capacities::new(Vec::new(alloc)),
        pairs: Vec::new(alloc),
    };
    match fill(alloc, row, &mut parts) {
        Ok(()) => Some(parts),
        Err(_) => {
            drop(parts);
            None
        }
    }
}

/// Whether the prices and the bounds of a box are in their ranges, and its pairs name its resources.
pub(crate) fn is_box(parts: &Parts) -> bool
    ensures prices { IsTrue result → ArePrices parts.now.order.prices parts.now.order.owned }
    ensures floors { IsTrue result → length parts.now.order.prices ≡ length parts.now.floors }
    ensures roofs { IsTrue result → length parts.now.roofs ≡ length parts.now.floors }
    ensures bounds { IsTrue result → AreBounds parts.now.floors parts.now.roofs }
    ensures pairs { IsTrue result → AreNumbers (length parts.now.floors) parts.now.pairs.items }
{
    let (floors, roofs) = (parts.floors.as_slice(), parts.roofs.as_slice());
    are_prices(&parts.order.prices, &parts.order.owned)
        && parts.order.prices.len() == floors.len()
        && are_bounds(floors, roofs)
        && are_numbers(floors.len(), &parts.pairs)
}
