//! The optimum of an order.

ghost use Rattle.std.specs.Prelude.{IfOk};
ghost use Rattle.racp_found.specs.Told.{MayBeTold};
ghost use Rattle.racp_by_clauses.specs.Optima.{IsOptimum, IsTaskOf};

use crate::limits::Limits;
use crate::optimizer::{Optimizer, first_draft};
use crate::task::{Task, Tasks};
use racp_clauses::OfProblem;
use racp_found::{Found, Observer};
use racp_model::Capacities;
use std::alloc::AllocError;

/// What is found of the plan of an order, and what capacities that are enough have at least.
#[derive(Drop)]
pub struct Optimum {
    /// What is found.
    pub found: Found,
    /// So many units of each resource, from place 0, all capacities have that are enough.
    pub floors: Capacities,
}

/// The plan of an order, or that no capacities are enough; or neither, where the search gave up, or the observer stopped it.
/// The task is that of the problem that `N` names. The observer is told lower bounds on the cost, and each draft that is
/// cheaper than those before it, or as cheap with a vector that comes before.
///
/// # Errors
///
/// Memory was refused.
pub fn optimum_of<N: OfProblem, O: Observer>(
    task: Task<'_>,
    limits: Limits,
    observer: &O,
) -> Result<Optimum, AllocError>
    requires is_of { IsTaskOf N.problem task }
    requires may { MayBeTold N.problem.network N.problem.terms O.may_hear }
    ensures { IfOk result (IsOptimum N.problem.network N.problem.terms) }
{
    let draft = first_draft::<N, O>(task, limits, observer)?;
    let mut optimizer: Optimizer<N> = Optimizer::new(task, limits)?;
    let tasks = Tasks {
        whole: task,
        part: task,
    };
    let optimum = optimizer.below::<N, O>(tasks, draft, observer);
    // By a call: else each part is dropped here.
    drop(optimizer);
    optimum
}
