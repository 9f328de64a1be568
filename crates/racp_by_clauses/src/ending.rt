//! What the clauses of a descent show in the end.

ghost use Rattle.std.specs.Prelude.{IfOk};
ghost use Rattle.racp_clauses.specs.Roots.{IsOpen};
ghost use Rattle.racp_found.specs.Finds.{IsFound};
ghost use Rattle.racp_by_clauses.specs.Optima.{IsOptimum, IsTaskOf};

use crate::descent::Descent;
use crate::optimum::Optimum;
use crate::task::Task;
use racp_clauses::{Clause, OfProblem, PlanValues, establishes, leaves_none};
use racp_drafts::Draft;
use racp_found::Found;
use std::alloc::AllocError;

impl<P: OfProblem> Descent<P> {
    /// The plan, if the clauses show it; or that no capacities are enough, if they show that; and the floors.
    pub(crate) fn into_optimum(self, task: Task<'_>) -> Result<Optimum, AllocError>
        requires { IsTaskOf P.problem task }
        ensures { IfOk result (IsOptimum P.problem.network P.problem.terms) }
    {
        let Descent {
            best,
            clauses,
            floors,
            ..
        } = self;
        let found = match best {
            Some(draft) => with_draft(task, draft, &clauses)?,
            None => without_draft(&clauses),
        };
        Ok(Optimum {
            found,
            floors: floors.into_capacities(),
        })
    }
}

/// That a draft is the plan, if the clauses show it.
fn with_draft<P: OfProblem>(
    task: Task<'_>,
    draft: Draft,
    clauses: &[Clause<P>],
) -> Result<Found, AllocError>
    requires { IsTaskOf P.problem task }
    ensures { IfOk result (IsFound P.problem.network P.problem.terms) }
{
    let Draft {
        capacities,
        starts,
        ..
    } = draft;
    let plan = PlanValues {
        capacities: &capacities,
        starts: &starts,
    };
    let is_shown = establishes(task.alloc, task.net, task.order, task.root, &plan, clauses)?;
    if is_shown {
        return Ok(Found::Plan(capacities, starts));
    }
    Ok(Found::Open)
}

/// That no capacities are enough, if the last clause shows it.
fn without_draft<P: OfProblem>(clauses: &[Clause<P>]) -> Found
    requires { IsOpen P.problem }
    ensures { IsFound P.problem.network P.problem.terms result }
{
    match clauses.last() {
        Some(clause) if leaves_none(clause) => Found::NoneEnough,
        _ => Found::Open,
    }
}
