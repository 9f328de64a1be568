//! The plan of an order by its definition.

ghost use Rattle.std.specs.Prelude.{◌≡◌, IfOk, length};
ghost use Rattle.racp_model.specs.Terms.{AreTermsOf};
ghost use Rattle.racp_reference.specs.Outcomes.{IsOutcome};

use crate::choice::cheapest;
use racp_model::Network;
use racp_plan::Plan;
use racp_prices::{Order, most_units};
use racp_root::{Opening, opening_of};
use std::alloc::{AllocError, Global};

/// The plan of an order, or why there is none: the first of the reasons that holds, in this order.
#[derive(Drop)]
pub enum Outcome {
    /// The plan: the cheapest capacities under which the project ends in time, of those that cost the same the
    /// lexicographically least, and under them the lexicographically least start vector.
    Plan(Plan),
    /// The critical length, in time units, exceeds the deadline.
    TooLong {
        /// The critical length.
        critical: u64,
    },
    /// The early finish of a job exceeds its due time.
    TooLate {
        /// The number of the first such job, from 1.
        job: u32,
    },
    /// No capacities within the ceilings are enough.
    OverCeilings,
}

/// The plan of an order by its definition. All capacity vectors are looked at, and for each the start vectors in the
/// root window.
///
/// # Errors
///
/// Memory was refused.
pub fn plan_by_definition(
    alloc: Global,
    net: &Network,
    order: &Order,
) -> Result<Outcome, AllocError>
    requires { AreTermsOf net.now order.now }
    ensures { IfOk result (IsOutcome net.now order.now) }
{
    let (critical, window) = match opening_of(alloc, net, order)? {
        Opening::Root { critical, window } => (critical, window),
        Opening::TooLong { critical } => return Ok(Outcome::TooLong { critical }),
        Opening::TooLate { job } => return Ok(Outcome::TooLate { job }),
    };
    let most = most_units(alloc, net, order)?;
    let Some(choice) = cheapest(alloc, net, order, most.as_slice(), &window)? else {
        return Ok(Outcome::OverCeilings);
    };
    Ok(Outcome::Plan(Plan {
        deadline: order.deadline,
        critical,
        cost: choice.cost,
        capacities: choice.capacities,
        starts: choice.starts,
    }))
}
