//! The optimum of an order, with what its clauses were derived from.

ghost use Rattle.std.specs.Prelude.{IfOk};
ghost use Rattle.racp_found.specs.Finds.{IsFound};
ghost use Rattle.racp_found.specs.Told.{MayBeTold};
ghost use Rattle.racp_by_clauses.specs.Optima.{IsTaskOf};

use crate::limits::Limits;
use crate::optimizer::Optimizer;
use crate::task::{Task, Tasks};
use racp_clauses::OfProblem;
use racp_found::{Found, Observer};
use racp_learning::Derivations;
use std::alloc::AllocError;

/// What is found of the plan of an order, and what the clauses that show it were derived from. No contract speaks of the
/// derivations: who reads them has to check them.
#[derive(Drop)]
pub struct Recorded {
    /// What is found.
    pub found: Found,
    /// The derivations of the search for the plan.
    pub derivations: Option<Derivations>,
    /// Those of the search for what everything costs at least, if it has begun.
    pub below: Option<Derivations>,
}

/// What `optimum_of` tells, with the derivations of all clauses that were learned on the way. Those of the search for the plan
/// take at most so many bytes, about; where they are spent, neither the plan nor that there is none is known. Those of the
/// search for what everything costs at least take a quarter as many beside.
///
/// # Errors
///
/// Memory was refused.
pub fn optimum_recorded<N: OfProblem, O: Observer>(
    task: Task<'_>,
    limits: Limits,
    most_bytes: usize,
    observer: &O,
) -> Result<Recorded, AllocError>
    requires is_of { IsTaskOf N.problem task }
    requires may { MayBeTold N.problem.network N.problem.terms O.may_hear }
    ensures { IfOk result (λ recorded. IsFound N.problem.network N.problem.terms recorded.found) }
{
    let mut optimizer: Optimizer<N> = Optimizer::recording(task, limits, most_bytes)?;
    let tasks = Tasks {
        whole: task,
        part: task,
    };
    let found = optimizer.from_first_stint::<O>(tasks, observer);
    let (derivations, below) = optimizer.into_derivations();
    let found = found?;
    Ok(Recorded {
        found,
        derivations,
        below,
    })
}
