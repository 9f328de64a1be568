//! Floors of an order whose search is cut off, worked out by hand and beside all start vectors.

ghost use Rattle.racp_by_clauses.specs.Optima.{IsTaskOf};

use crate::listener::Listener;
use crate::sums::Sums;
use crate::tasks::{Trial, try_order};
use racp_by_clauses::{Limits, Optimum, Task, optimum_of};
use racp_clauses::OfProblem;
use racp_found::Found;
use racp_model::{NetFault, Network};
use racp_prices::read_order;
use racp_reference::decide_by_definition;
use racp_samples::{Random, SampleFault, network, question};
use std::alloc::{AllocError, Global};

/// The search is cut off while it goes down from its first draft.
const LIMITS: Limits = Limits {
    conflicts: 1_000,
    bytes: 10_000_000,
    rounds: 0,
    seed: 1,
};

/// By time 3, at a price of 1 for each unit.
const ORDER: &str = "deadline = 3\nprices = [1, 1]\n";

/// What a job requests that needs the first resource alone, and one that needs both.
const ONE: &[u32] = &[4, 0];

const BOTH: &[u32] = &[4, 2];

/// All that the thirteen jobs request.
const ROOFS: [u32; 2] = [52, 8];

/// What they need at least in three time units. At some time five of them run together, which request 20 units. So do two of those
/// four that request 2 units of the second resource, whose work, 8, could be done by 3 units.
const LEAST: [u32; 2] = [20, 4];

/// Thirteen jobs of one time unit.
fn thirteen_jobs(alloc: Global) -> Result<Network, NetFault> {
    let jobs = [
        (1, BOTH),
        (1, BOTH),
        (1, BOTH),
        (1, BOTH),
        (1, ONE),
        (1, ONE),
        (1, ONE),
        (1, ONE),
        (1, ONE),
        (1, ONE),
        (1, ONE),
        (1, ONE),
        (1, ONE),
    ];
    network(alloc, 2, &jobs, &[])
}

/// Whether some starts in the root window fit these capacities, as all start vectors show.
fn fits(task: Task<'_>, units: [u32; 2]) -> Result<bool, SampleFault> {
    let (lower, upper) = (task.window.lower(), task.window.upper());
    let asked = question(task.alloc, task.net, &units, lower, upper)?;
    let starts = decide_by_definition(task.alloc, task.net, &asked)?;
    Ok(starts.is_some())
}

/// Whether nothing fits one unit less of a resource, whatever there is of the other.
fn is_needed(task: Task<'_>, k: usize, units: u32) -> Result<bool, SampleFault> {
    let mut fewer = ROOFS;
    if let Some(place) = fewer.get_mut(k) {
        *place = units.saturating_sub(1);
    }
    Ok(!fits(task, fewer)?)
}

/// Whether the least units that were worked out are so by all start vectors.
fn are_least(task: Task<'_>) -> Result<bool, SampleFault> {
    let are_needed = is_needed(task, 0, LEAST[0])? && is_needed(task, 1, LEAST[1])?;
    Ok(are_needed && fits(task, LEAST)?)
}

/// Whether the least units that were worked out are so by all start vectors; and, where the search is cut off, the floor of the
/// second resource is its least units, and that of the first one is needed.
pub fn are_shown<N: OfProblem>(task: Task<'_>) -> Result<bool, AllocError>
    requires { IsTaskOf N.problem task }
{
    let listener = Listener::new(u32::MAX);
    let Optimum { found, floors } = optimum_of::<N, Listener>(task, LIMITS, &listener)?;
    let &[first, second] = floors.as_slice() else {
        return Ok(false);
    };
    let are_right = matches!(are_least(task), Ok(true)) && second == LEAST[1];
    let is_needed = matches!(is_needed(task, 0, first), Ok(true));
    Ok(are_right && is_needed && matches!(found, Found::Open))
}

/// Whether they are so of the thirteen jobs.
fn are_of_thirteen_jobs(alloc: Global) -> bool {
    let Ok(net) = thirteen_jobs(alloc) else {
        return false;
    };
    let (resources, jobs) = (net.resource_count(), net.job_count());
    let Ok(order) = read_order(alloc, ORDER.as_bytes(), resources, jobs) else {
        return false;
    };
    let (mut random, mut sums) = (Random::new(1), Sums::new());
    let tried = try_order(alloc, &net, &order, Trial::Floors, &mut random, &mut sums);
    matches!(tried, Ok(true)) && sums.unfit == 0
}

#[test]
fn floors_are_shown_of_what_is_cut_off(rt: HostRuntime) {
    assert!(rt; are_of_thirteen_jobs(rt.alloc()));
}
