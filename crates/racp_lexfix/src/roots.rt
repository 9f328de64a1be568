//! The root bounds of an order, from its floors up to its roofs.

ghost use Rattle.std.specs.Prelude.{IfOk, MatchOption};
ghost use Rattle.racp_model.specs.Terms.{AreTermsOf, release_of, due_of};
ghost use Rattle.racp_model.specs.Window.{IsRootWindow};
ghost use Rattle.racp_model.specs.Plan.{NoneIsEnough};
ghost use Rattle.racp_lexfix.specs.Stages.{AreRootBounds};

use racp_by_questions::first_ends;
use racp_clauses::{Domain, root_of};
use racp_model::{Capacities, Network, Window};
use racp_prices::Order;
use std::alloc::{AllocError, Global};

/// Bounds on the starts, the units and the cost of an order.
#[derive(Drop)]
pub struct RootBounds {
    /// The bounds, which leave nothing out.
    pub bounds: Domain,
    /// Their least units of each resource, from place 0. All capacities that are enough are at or above these.
    pub floors: Capacities,
    /// Whether at most 64 vectors lie within them. So few are asked one by one.
    pub is_small: bool,
}

/// The root bounds of an order with this root window; or none where a floor is above its roof, so that no capacities are
/// enough.
///
/// # Errors
///
/// Memory was refused.
pub fn root_bounds(
    alloc: Global,
    net: &Network,
    order: &Order,
    window: &Window,
) -> Result<Option<RootBounds>, AllocError>
    requires terms { AreTermsOf net.now order.now }
    requires root { IsRootWindow net.now (release_of order.now) (due_of order.now) window.now }
    ensures { IfOk result (λ found. MatchOption found (NoneIsEnough net.now order.now) (AreRootBounds net.now order.now)) }
{
    let task = racp_by_questions::Task {
        alloc,
        net,
        order,
        root: window,
    };
    let Some(ends) = first_ends(&task)? else {
        return Ok(None);
    };
    let is_small = ends.is_small();
    let bounds = root_of(alloc, net, order, window, ends.floors.as_slice())?;
    Ok(Some(RootBounds {
        bounds,
        floors: ends.floors,
        is_small,
    }))
}
