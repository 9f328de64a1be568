//! The places of the variables.

ghost use Rattle.std.specs.Prelude.{◌≡◌, ◌+◌};
ghost use Rattle.racp_clauses.specs.Solutions.{cost_place};

use racp_drafts::Draft;
use racp_model::Network;

/// How many variables there are. The last one is the cost.
pub(crate) fn variable_count(net: &Network) -> usize
    ensures { result ≡ cost_place net.now + 1 }
{
    net.job_count() + net.resource_count() + 1
}

/// The value of the variable at a place.
pub(crate) fn value_of(net: &Network, draft: &Draft, x: usize) -> u64 {
    let jobs = net.job_count();
    let (starts, units) = (draft.starts.as_slice(), draft.capacities.as_slice());
    if let Some(start) = starts.get(x) {
        return *start as u64;
    }
    match units.get(x.wrapping_sub(jobs)) {
        Some(units) => *units as u64,
        None => draft.cost,
    }
}

/// The place of the variable whose turn it is, from 0: the cost, then the units, then the starts.
pub(crate) fn place_in_turn(net: &Network, turn: usize) -> usize {
    let (jobs, resources) = (net.job_count(), net.resource_count());
    if turn == 0 {
        jobs + resources
    } else if turn <= resources {
        jobs.saturating_add(turn - 1)
    } else {
        turn.saturating_sub(resources + 1)
    }
}
