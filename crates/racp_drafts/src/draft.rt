//! Drafts, and the test that each has to pass.

ghost use Rattle.std.specs.Prelude.{IfOk, IfSome};
ghost use Rattle.racp_model.specs.Terms.{AreTermsOf};
ghost use Rattle.racp_drafts.specs.Drafts.{IsDraft};

use racp_model::{Capacities, Network, Starts, peaks};
use racp_plan::are_fitting;
use racp_prices::{Order, cost_of};
use std::alloc::{AllocError, Global};

/// A draft of a plan: a schedule on the terms of an order, and the capacities that it needs. They are enough, but
/// others may cost less. Contracts see the starts and the capacities as lists.
#[derive(Drop)]
pub struct Draft {
    /// When each job starts, by place from 0, in time units.
    pub starts: Starts,
    /// How many units of each resource, by place from 0, the jobs use together at the most.
    pub capacities: Capacities,
    /// What the capacities cost.
    pub cost: u64,
}

impl Draft {
    /// The draft of these starts, or `None` if they do not fit their peaks on the terms of the order, within its
    /// ceilings.
    ///
    /// # Errors
    ///
    /// Memory was refused.
    pub fn of_starts(
        alloc: Global,
        net: &Network,
        order: &Order,
        starts: Starts,
    ) -> Result<Option<Draft>, AllocError>
        requires { AreTermsOf net.now order.now }
        ensures { IfOk result (λ found. IfSome found (IsDraft net.now order.now)) }
    {
        if starts.as_slice().len() != net.job_count() {
            return Ok(None);
        }
        let capacities = peaks(alloc, net, &starts)?;
        if !are_fitting(net, order, &capacities, &starts) {
            return Ok(None);
        }
        let cost = cost_of(net, order, capacities.as_slice());
        Ok(Some(Draft {
            starts,
            capacities,
            cost,
        }))
    }
}
