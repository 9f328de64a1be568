//! What came of all orders of a test.

/// How often each thing came.
#[derive(Clone, Copy)]
pub struct Sums {
    /// Orders for which no starts are in time, or that have too few or too many vectors and starts.
    pub unfit: u64,
    /// Questions that were answered by starts.
    pub yes: u64,
    /// Questions that were refuted.
    pub no: u64,
    /// Questions that were left open.
    pub open: u64,
    /// Conflicts.
    pub conflicts: u64,
    /// How often a search began anew.
    pub restarts: u64,
    /// Clauses that were forgotten.
    pub forgotten: u64,
    /// Orders of which the least cost, or the plan, is known.
    pub plans: u64,
    /// Orders for which no capacities are enough.
    pub none: u64,
}

impl Sums {
    /// Nothing came.
    pub fn new() -> Sums {
        Sums {
            unfit: 0,
            yes: 0,
            no: 0,
            open: 0,
            conflicts: 0,
            restarts: 0,
            forgotten: 0,
            plans: 0,
            none: 0,
        }
    }
}
