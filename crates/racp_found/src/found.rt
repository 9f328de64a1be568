//! What is found of a plan.

use racp_model::{Capacities, Starts};

/// What is found of the plan of an order.
#[derive(Drop)]
pub enum Found {
    /// The plan: its capacities, by resource, and its starts, by job, in time units.
    Plan(Capacities, Starts),
    /// No capacities are enough.
    NoneEnough,
    /// Neither is known.
    Open,
}
