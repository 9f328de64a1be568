//! What a schedule that is made cheaper in rounds has come to.

use crate::polish::Polish;

impl Polish {
    /// What the best schedule costs; the greatest number if there is none within the ceilings.
    pub(crate) fn best_cost(&self) -> u64 {
        self.best_cost
    }

    /// The starts of the best schedule; none if there is none.
    pub(crate) fn best(&self) -> &[u32] {
        &self.best
    }

    /// The starts of the schedule as it is, which may be above its aims.
    pub(crate) fn starts(&self) -> &[u32] {
        &self.starts
    }

    /// The starts of the schedule of least excess since the aims were set.
    pub(crate) fn least(&self) -> &[u32] {
        self.least.starts()
    }

    /// How many units of each resource of the problem are aimed at.
    pub(crate) fn aims(&self) -> &[u32] {
        self.aiming.aims()
    }
}
