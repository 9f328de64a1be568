//! Optima of small random orders, beside their plans by definition: without limits, with few conflicts, and stopped early.

ghost use Rattle.racp_by_clauses.specs.Optima.{IsTaskOf};

use crate::listener::Listener;
use crate::sums::Sums;
use crate::tasks::{Trial, try_next};
use racp_by_clauses::{Limits, Optimum, Task, optimum_of};
use racp_clauses::OfProblem;
use racp_found::Found;
use racp_model::Capacities;
use racp_plan::Plan;
use racp_reference::{Outcome, plan_by_definition};
use racp_samples::Random;
use std::alloc::AllocError;

/// The most pairs of a capacity vector and a start vector that are looked at.
const MOST: u64 = 100_000;

/// How long a search looks: its conflicts, how often it may ask whether it is to stop, its rounds, and its seed.
#[derive(Clone, Copy)]
struct Effort {
    conflicts: u64,
    asks: u32,
    rounds: u32,
    seed: u64,
}

/// Nothing limits it.
const WHOLE: Effort = Effort {
    conflicts: u64::MAX,
    asks: u32::MAX,
    rounds: 0,
    seed: 1,
};

const EFFORTS: &[Effort] = &[
    WHOLE,
    Effort {
        rounds: 4,
        seed: 2,
        ..WHOLE
    },
    Effort {
        conflicts: 0,
        ..WHOLE
    },
    Effort {
        conflicts: 1,
        ..WHOLE
    },
    Effort {
        conflicts: 10,
        ..WHOLE
    },
    Effort {
        asks: 0,
        rounds: 4,
        ..WHOLE
    },
    Effort { asks: 2, ..WHOLE },
];

impl Effort {
    /// Whether a search may end before anything is known.
    fn is_limited(&self) -> bool {
        self.conflicts < u64::MAX || self.asks < u32::MAX
    }
}

/// Whether what is found is this plan, or that there is none, or nothing if that may be.
fn is_found(found: &Found, plan: Option<&Plan>, may_be_open: bool) -> bool {
    match (found, plan) {
        (Found::Plan(capacities, starts), Some(plan)) => {
            capacities.as_slice() == plan.capacities.as_slice()
                && starts.as_slice() == plan.starts.as_slice()
        }
        (Found::NoneEnough, None) => true,
        (Found::Open, _) => may_be_open,
        _ => false,
    }
}

/// Whether floors are at or below the plan's capacities, if there is a plan.
fn are_below(floors: &Capacities, plan: Option<&Plan>) -> bool {
    let Some(plan) = plan else {
        return true;
    };
    let (floors, units) = (floors.as_slice(), plan.capacities.as_slice());
    floors.len() == units.len() && floors.iter().zip(units).all(|(low, high)| *low <= *high)
}

/// Whether a search finds the plan, where there is one, and tells the listener what is true of it.
fn finds<N: OfProblem>(
    task: Task<'_>,
    effort: Effort,
    plan: Option<&Plan>,
) -> Result<bool, AllocError>
    requires { IsTaskOf N.problem task }
{
    let listener = Listener::new(effort.asks);
    let limits = Limits {
        conflicts: effort.conflicts,
        bytes: 1_000_000,
        rounds: effort.rounds,
        seed: effort.seed,
    };
    let Optimum { found, floors } = optimum_of::<N, Listener>(task, limits, &listener)?;
    let cost = match plan {
        Some(plan) => Some(plan.cost),
        None => None,
    };
    Ok(
        is_found(&found, plan, effort.is_limited())
            && are_below(&floors, plan)
            && listener.is_told_well(cost),
    )
}

/// Whether each search finds the plan, where there is one.
fn find<N: OfProblem>(task: Task<'_>, plan: Option<&Plan>) -> Result<bool, AllocError>
    requires { IsTaskOf N.problem task }
{
    for effort in EFFORTS {
        if !finds::<N>(task, *effort, plan)? {
            return Ok(false);
        }
    }
    Ok(true)
}

/// Whether the root bounds leave more than 64 vectors, and not too many pairs of a vector and a start vector.
fn has_size(task: Task<'_>) -> bool {
    let (jobs, resources) = (task.net.job_count(), task.net.resource_count());
    let (mut vectors, mut starts) = (1u64, 1u64);
    for x in 0..jobs.saturating_add(resources) {
        let (low, high) = (task.root.lower_at(x), task.root.upper_at(x));
        let width = high.saturating_sub(low).saturating_add(1);
        if x < jobs {
            starts = starts.saturating_mul(width);
        } else {
            vectors = vectors.saturating_mul(width);
        }
    }
    64 < vectors && vectors.saturating_mul(starts) <= MOST
}

/// Whether the optimum of a task is found, if it has some size, and can be done by definition.
pub fn is_optimum<N: OfProblem>(task: Task<'_>, sums: &mut Sums) -> Result<bool, AllocError>
    requires { IsTaskOf N.problem task }
{
    if !has_size(task) {
        sums.unfit = sums.unfit.saturating_add(1);
        return Ok(true);
    }
    match plan_by_definition(task.alloc, task.net, task.order)? {
        Outcome::Plan(plan) => {
            sums.plans = sums.plans.saturating_add(1);
            find::<N>(task, Some(&plan))
        }
        Outcome::OverCeilings => {
            sums.none = sums.none.saturating_add(1);
            find::<N>(task, None)
        }
        _ => Ok(false),
    }
}

#[test]
fn optima_are_plans(rt: HostRuntime) {
    let (mut random, mut sums) = (Random::new(13), Sums::new());
    for round in 0..5_000 {
        let is_right = try_next(rt.alloc(), Trial::Optima, &mut random, &mut sums);
        assert!(rt; is_right, "round {round}");
    }
    let (plans, none) = (sums.plans, sums.none);
    assert!(rt; 300 <= plans && 30 <= none, "{plans} plans, {none} without");
}
