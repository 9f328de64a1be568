//! The order of a team.

ghost use Rattle.std.specs.Prelude.{◌≡◌, IfOk, option_map};
ghost use Rattle.racp_model.specs.Project.{Project};
ghost use Rattle.racp_model.specs.Terms.{AreTermsOf};
ghost use Rattle.racp_soonest.specs.Teams.{order_of_team, owns_some, team_of};

use crate::variants::with_terms;
use racp_prices::Order;
use std::alloc::{AllocError, Global};

/// The order of a team: where there are no ceilings, and a unit of some resource is owned, the owned units are the ceilings.
/// Nothing else changes.
///
/// # Errors
///
/// Memory was refused.
pub fn team_order(alloc: Global, order: &Order) -> Result<Order, AllocError>
    ensures team { IfOk result (λ other. other ≡ order_of_team order.now) }
    ensures terms { IfOk result (λ other. (p : Project) → AreTermsOf p order.now → AreTermsOf p other) }
{
    let team = team_of(alloc, order)?;
    with_terms(alloc, order, order.deadline, team)
}

/// The most units that a team has of each resource, if there is a bound.
fn team_of(alloc: Global, order: &Order) -> Result<Option<Vec<u32>>, AllocError>
    ensures { IfOk result (λ team. option_map (λ c. c.items) team ≡ team_of order.now) }
{
    match &order.ceilings {
        Some(ceilings) => Ok(Some(ceilings.to_vec(alloc)?)),
        None => {
            if owns_some(&order.owned) {
                Ok(Some(order.owned.to_vec(alloc)?))
            } else {
                Ok(None)
            }
        }
    }
}

/// Whether a unit of some resource is owned.
fn owns_some(owned: &[u32]) -> bool
    ensures { result ≡ owns_some owned.now }
{
    owned.iter().any(|units| 0 < *units)
}
