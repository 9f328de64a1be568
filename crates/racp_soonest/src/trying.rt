//! Whether there is a plan for a deadline.

ghost use Rattle.std.specs.Prelude.{◌≤◌, IfErr, IfOk};
ghost use Rattle.racp_found.specs.Told.{HearsAll};
ghost use Rattle.racp_by_questions.specs.Crowds.{MayStop};
ghost use Rattle.racp_soonest.specs.Soonest.{IsStopOf};
ghost use Rattle.racp_soonest.specs.Steps.{IsFoundOf, IsLearnedOf, IsTried};

use crate::learning::feasible;
use crate::variants::{end_of, plan_in, with_deadline};
use racp_by_clauses::Feasible;
use racp_clauses::OfProblem;
use racp_desk::Gate;
use racp_found::Observer;
use racp_lexfix::{Crew, Learned, PlanStop, plan_by_crew};
use racp_model::Stop;
use racp_root::Task;
use std::sync::Wait;
use std::thread::Threads;

/// What is found of a deadline.
#[derive(Clone, Copy)]
pub(crate) enum Trial {
    /// Some starts fit it, and all of their jobs end by this time.
    Fits(u32),
    /// There is no plan for it.
    NoneFits,
}

/// What is found of a deadline, at most that of the order: by what is learned of the order, if anything is, or by such workers.
pub(crate) fn tried<
    N: OfProblem,
    G: Gate + Sync,
    P: Stop + Sync,
    O: Observer,
    R: Threads + Wait + Sync,
>(
    rt: &R,
    task: &Task<'_>,
    deadline: u32,
    learned: &mut Option<Learned<'_, N>>,
    crew: &Crew<'_, G, P, O>,
) -> Result<Trial, PlanStop>
    requires of { IsLearnedOf N.problem task.now.net.now task.now.order.now }
    requires deadline { deadline ≤ task.now.order.now.deadline }
    requires heard { HearsAll O.may_hear }
    ensures tried { IfOk result (IsTried task.now.net.now task.now.order.now deadline) }
    ensures stop { IfErr result (IsStopOf (MayStop task.now.net.now (P.is_quiet crew.now.stop.now) crew.now.turns)) }
{
    let other = with_deadline(task.alloc, task.order, deadline)?;
    let part = Task {
        alloc: task.alloc,
        net: task.net,
        order: &other,
    };
    let found = found_by(rt, &part, learned, crew);
    // Dropped here once, not at each way out.
    drop(other);
    found
}

/// What is found of an order, which may be that of the problem with another deadline.
fn found_by<N: OfProblem, G: Gate + Sync, P: Stop + Sync, O: Observer, R: Threads + Wait + Sync>(
    rt: &R,
    part: &Task<'_>,
    learned: &mut Option<Learned<'_, N>>,
    crew: &Crew<'_, G, P, O>,
) -> Result<Trial, PlanStop>
    requires of { IsLearnedOf N.problem part.now.net.now part.now.order.now }
    requires heard { HearsAll O.may_hear }
    ensures tried { IfOk result (IsFoundOf part.now.net.now part.now.order.now) }
    ensures stop { IfErr result (IsStopOf (MayStop part.now.net.now (P.is_quiet crew.now.stop.now) crew.now.turns)) }
{
    let order = part.order;
    match feasible(learned, part, crew.stop)? {
        Feasible::Fits(draft) => {
            let end = end_of(part.net, &draft.starts, order.deadline);
            Ok(Trial::Fits(end))
        }
        Feasible::NoneFits => Ok(Trial::NoneFits),
        Feasible::Unknown => found_by_crew(rt, part, crew),
    }
}

/// What such workers find of an order.
fn found_by_crew<G: Gate + Sync, P: Stop + Sync, O: Observer, R: Threads + Wait + Sync>(
    rt: &R,
    part: &Task<'_>,
    crew: &Crew<'_, G, P, O>,
) -> Result<Trial, PlanStop>
    requires heard { HearsAll O.may_hear }
    ensures tried { IfOk result (IsFoundOf part.now.net.now part.now.order.now) }
    ensures stop { IfErr result (IsStopOf (MayStop part.now.net.now (P.is_quiet crew.now.stop.now) crew.now.turns)) }
{
    prove!(1 <= part.net.job_count());
    match plan_in(plan_by_crew(rt, part, crew)?) {
        Some(plan) => {
            let order = part.order;
            let end = end_of(part.net, &plan.starts, order.deadline);
            Ok(Trial::Fits(end))
        }
        None => Ok(Trial::NoneFits),
    }
}
