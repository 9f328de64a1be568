//! Whether an order has a plan at all.

use racp_drafts::Draft;

/// What is found of an order where any plan will do.
#[derive(Drop)]
pub enum Feasible {
    /// Some starts fit, with their peaks.
    Fits(Draft),
    /// No capacities are enough.
    NoneFits,
    /// Neither is known.
    Unknown,
}
