//! What helps a search beside its question: a guide, work in windows, and decisions about any job.

use crate::search::Search;
use racp_clauses::OfProblem;
use std::alloc::AllocError;

impl<N: OfProblem> Search<N> {
    /// From now on a decision that puts off a job keeps to these starts, one for each job by places: where the job starts
    /// before the time in question, it is to start before it. No starts end that.
    ///
    /// # Errors
    ///
    /// Memory was refused. Then there is no guide.
    pub fn guide(&mut self, starts: &[u32]) -> Result<(), AllocError> {
        self.engine.guide.clear();
        self.engine.guide.extend_from_slice(starts)
    }

    /// From now on it also looks at the work that jobs have to do in windows of time, and raises the least units of resources
    /// by it (energetic reasoning; Erschler, Lopez and Thuriot 1991). That takes longer at each bound, and finds more where
    /// questions ask for little cost.
    pub fn look_at_energies(&mut self) {
        self.engine.energies.turn_on();
    }

    /// From now on it decides about any job, and not only where the early starts exceed some units, in every second stretch from
    /// one new beginning to the next. That refutes some questions about little cost sooner.
    pub fn roam(&mut self) {
        self.engine.roaming.turn_on();
    }
}
