//! Whether there is any solution.

ghost use Rattle.std.specs.Prelude.{IfOk};
ghost use Rattle.racp_clauses.specs.Roots.{IsOpen};
ghost use Rattle.racp_found.specs.Told.{MayBeTold};
ghost use Rattle.racp_by_clauses.specs.Optima.{AreTasksOf, IsFeasible, IsTaskOf};

use crate::asking::Heard;
use crate::descent::Descent;
use crate::feasible::Feasible;
use crate::task::{Task, Tasks};
use racp_clauses::{Clause, OfProblem, leaves_none};
use racp_drafts::Draft;
use racp_found::Observer;
use racp_learning::Search;
use std::alloc::AllocError;

impl<P: OfProblem> Descent<P> {
    /// Looks for any solution.
    pub(crate) fn find_any<N: OfProblem, O: Observer>(
        &mut self,
        search: &mut Search<N>,
        tasks: Tasks<'_>,
        observer: &O,
    ) -> Result<(), AllocError>
        requires are_of { AreTasksOf N.problem P.problem tasks }
        requires may { MayBeTold P.problem.network P.problem.terms O.may_hear }
    {
        let task = tasks.part;
        let x = task.net.job_count() + task.net.resource_count();
        let most = task.root.upper_at(x);
        if let Heard::None = self.ask(search, tasks, observer, x, most)? {
            self.close_last(task, observer)?;
        }
        Ok(())
    }

    /// The draft that was found, or that there is none.
    pub(crate) fn into_feasible(self, task: Task<'_>) -> Result<Feasible, AllocError>
        requires { IsTaskOf P.problem task }
        ensures { IfOk result (IsFeasible P.problem.network P.problem.terms) }
    {
        let Descent { best, clauses, .. } = self;
        match best {
            Some(draft) => fits::<P>(task, draft),
            None => Ok(none_fits(&clauses)),
        }
    }
}

/// That the starts of a draft fit, if they do.
fn fits<P: OfProblem>(task: Task<'_>, draft: Draft) -> Result<Feasible, AllocError>
    requires { IsTaskOf P.problem task }
    ensures { IfOk result (IsFeasible P.problem.network P.problem.terms) }
{
    match Draft::of_starts(task.alloc, task.net, task.order, draft.starts)? {
        Some(draft) => Ok(Feasible::Fits(draft)),
        None => Ok(Feasible::Unknown),
    }
}

/// That no capacities are enough, if the last clause shows it.
fn none_fits<P: OfProblem>(clauses: &[Clause<P>]) -> Feasible
    requires { IsOpen P.problem }
    ensures { IsFeasible P.problem.network P.problem.terms result }
{
    match clauses.last() {
        Some(clause) if leaves_none(clause) => Feasible::NoneFits,
        _ => Feasible::Unknown,
    }
}
