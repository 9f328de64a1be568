//! What searches side by side tell each other of the least cost.
//!
//! One of them asks from below. It shows the others the clauses that tell what everything costs at least, and each tells its
//! observer.

ghost use Rattle.racp_found.specs.Told.{MayBeTold};
ghost use Rattle.racp_by_clauses.specs.Optima.{AreTasksOf};

use crate::common::Common;
use crate::task::Tasks;
use crate::worker::Worker;
use racp_clauses::OfProblem;
use racp_found::Observer;
use std::alloc::AllocError;
use std::sync::Wait;

/// The search in this seat, the third one, asks for the cost from the least one on, as long as that is not known.
pub(crate) const FROM_BELOW: usize = 2;

impl<N: OfProblem> Worker<N> {
    /// Goes on from the best draft down, or from below, for so many conflicts.
    pub(crate) fn go_on<O: Observer>(
        &mut self,
        tasks: Tasks<'_>,
        observer: &O,
        conflicts: u64,
    ) -> Result<(), AllocError>
        requires are_of { AreTasksOf N.problem N.problem tasks }
        requires may { MayBeTold N.problem.network N.problem.terms O.may_hear }
    {
        if self.seat == FROM_BELOW && self.descent.is_cost_open(tasks.part) {
            let (search, descent) = (&mut self.search, &mut self.descent);
            descent.raise_from_below(search, tasks, observer, conflicts)?;
            return descent.raise_floors(search, tasks, observer, conflicts);
        }
        self.descent.left = conflicts;
        self.descent.go_down(&mut self.search, tasks, observer)
    }

    /// Shows the others what everything costs at least, if it is the one that asks for that and knows more.
    pub(crate) fn show_cost<R: Wait>(
        &mut self,
        rt: &R,
        common: &Common<'_, N>,
    ) -> Result<(), AllocError> {
        if self.seat != FROM_BELOW || self.descent.least_cost <= self.shown {
            return Ok(());
        }
        self.shown = self.descent.least_cost;
        match self.descent.clauses.last() {
            Some(clause) => common.show_copy(rt, self.seat, clause),
            None => Ok(()),
        }
    }

    /// Learns from the board, from a place on, what everything costs at least.
    pub(crate) fn learn_costs<O: Observer>(
        &mut self,
        common: &Common<'_, N>,
        observer: &O,
        from: usize,
    ) -> Result<(), AllocError>
        requires may { MayBeTold N.problem.network N.problem.terms O.may_hear }
    {
        for place in from..self.read {
            if let Some(clause) = common.clause_at(place) {
                self.descent.learn_cost(common.task, observer, clause)?;
            }
        }
        Ok(())
    }
}
