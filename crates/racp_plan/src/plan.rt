//! What a plan says.

use racp_model::{Capacities, Starts};

/// A plan: how many units there are of each resource, when each job starts, and what a planner says of them. Contracts
/// see the capacities and the starts as lists.
#[derive(Drop)]
pub struct Plan {
    /// The deadline of the order, in time units.
    pub deadline: u32,
    /// The critical length of the project, in time units.
    pub critical: u64,
    /// What the capacities cost.
    pub cost: u64,
    /// How many units there are of each resource, by place from 0.
    pub capacities: Capacities,
    /// When each job starts, by place from 0, in time units.
    pub starts: Starts,
}
