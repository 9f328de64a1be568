//! What some jobs request together of each resource.

ghost use Rattle.std.specs.Prelude.{◌≡◌, ◌↔◌, ℕ, ◌+◌, ◌<◌, ◌≤◌, All, IfOk, IsTrue, length, slice_index};
ghost use Rattle.racp_model.specs.Project.{place, request, IsNumber, IsSound};
ghost use Rattle.racp_delay.specs.Found.{AreWithin, IsSplitByFree};
ghost use Rattle.racp_model.specs.JobSets.{AreJobs};
ghost use Rattle.racp_model.specs.Limits.{most_load};

use racp_model::limits::MOST_RESOURCES;
use racp_model::{JobSet, Network};
use std::alloc::AllocError;

/// What some jobs request together of each resource, by place from 0.
pub(crate) type Loads = [u32; MOST_RESOURCES];

/// The loads with one job more.
pub(crate) fn with(net: &Network, loads: &Loads, job: u32) -> Loads
    requires job { IsNumber (length net.now.jobs) job }
    requires small { (k : ℕ) → k < net.now.resources → slice_index loads.now k ≤ most_load }
    ensures sums { (k : ℕ) → k < net.now.resources →
        slice_index result k ≡ slice_index loads.now k + request net.now (place job) k }
    ensures sound { IsSound net.now }
{
    let mut sums = *loads;
    let requests = net.requests(job as usize - 1);
    for k in 0..requests.len() {
        sums[k] += requests[k];
    }
    sums
}

/// The loads with one job less.
pub(crate) fn without(net: &Network, loads: &Loads, job: u32) -> Loads
    requires job { IsNumber (length net.now.jobs) job }
    requires within { (k : ℕ) → k < net.now.resources → request net.now (place job) k ≤ slice_index loads.now k }
    ensures { (k : ℕ) → k < net.now.resources →
        slice_index result k + request net.now (place job) k ≡ slice_index loads.now k }
{
    let mut sums = *loads;
    let requests = net.requests(job as usize - 1);
    for k in 0..requests.len() {
        sums[k] -= requests[k];
    }
    sums
}

/// Whether the loads fit the capacities.
pub(crate) fn are_within(net: &Network, capacities: &[u32], loads: &Loads) -> bool
    requires capacities { length capacities.now ≡ net.now.resources }
    ensures { IsTrue result ↔ AreWithin net.now capacities.now (slice_index loads.now) }
{
    (0..net.resource_count()).all(|k| loads[k] <= capacities[k])
}

/// Puts the free jobs of a set into a list, in place of what was there, and sums up what the others request of each
/// resource, and what all do.
pub(crate) fn split_free(
    net: &Network,
    active: &JobSet,
    free: &JobSet,
    list: &mut Vec<u32>,
) -> Result<(Loads, Loads), AllocError>
    requires { All (IsNumber (length net.now.jobs)) active.now }
    ensures free { IfOk result (λ loads. IsSplitByFree net.now active.now free.now list.new.items loads.0 loads.1) }
    ensures jobs { AreJobs active.now }
{
    list.clear();
    let mut kept = [0; MOST_RESOURCES];
    let mut left = [0; MOST_RESOURCES];
    for job in active.iter() {
        left = with(net, &left, job);
        if !free.contains(job) {
            kept = with(net, &kept, job);
            continue;
        }
        list.push(job)?;
    }
    Ok((kept, left))
}
