//! Floors: units of each resource below which no capacities admit a schedule.

ghost use Rattle.std.specs.Prelude.{◌≡◌, ◌<◌, ◌≤◌, IfOk, length};
ghost use Rattle.racp_model.specs.Schedule.{EndsBy};
ghost use Rattle.racp_model.specs.Plan.{IsLeast};
ghost use Rattle.racp_model.specs.CoreTimes.{core_use, core_usage};
ghost use Rattle.racp_bounds.specs.Floors.{IsAtRequests, IsAtEnergy, IsAtCore, IsFloor, AreFloors};

use racp_model::{Capacities, Network, Window, energy_of};
use std::alloc::{AllocError, Global};
use std::cmp::max;

/// The floor of each resource, by place from 0: the greatest of three lower bounds on its units. They are the largest
/// request of a job that runs for some time; the energy, the sum over the jobs of duration times request, over the
/// deadline, rounded up; and the greatest core usage, what the jobs use at a time wherever they start in the root
/// window. `root` is the root window of the project, with bounds for each job, and each early finish is at most the
/// deadline, in time units.
///
/// # Errors
///
/// Memory was refused.
pub fn floors(
    alloc: Global,
    net: &Network,
    root: &Window,
    deadline: u32,
) -> Result<Capacities, AllocError>
    requires lower { length root.now.lower ≡ length net.now.jobs }
    requires upper { length root.now.upper ≡ length net.now.jobs }
    requires ends { EndsBy net.now (λ _. deadline) root.now.lower }
    ensures { IfOk result (AreFloors net.now root.now deadline) }
{
    let mut units = Vec::with_capacity(alloc, net.resource_count())?;
    for k in 0..net.resource_count() {
        units.push(floor(net, root, deadline, k))?;
    }
    Ok(Capacities::new(units))
}

/// The floor of one resource.
fn floor(net: &Network, root: &Window, deadline: u32, k: usize) -> u32
    requires resource { k < net.now.resources }
    requires lower { length root.now.lower ≡ length net.now.jobs }
    requires upper { length root.now.upper ≡ length net.now.jobs }
    requires ends { EndsBy net.now (λ _. deadline) root.now.lower }
    ensures { IsFloor net.now root.now deadline k result }
{
    max(
        largest_request(net, k),
        max(
            energy_over(net, root, deadline, k),
            greatest_core_usage(net, root, k),
        ),
    )
}

/// The largest request of a job that runs for some time.
fn largest_request(net: &Network, k: usize) -> u32
    requires { k < net.now.resources }
    ensures { IsLeast ◌<◌ (IsAtRequests net.now k) result }
{
    let mut most = 0;
    for i in 0..net.job_count() {
        if 0 < net.duration(i) {
            most = max(most, net.request(i, k));
        }
    }
    most
}

/// The energy over the deadline, rounded up. It is at most the roof, since each job is long enough for the deadline.
fn energy_over(net: &Network, root: &Window, deadline: u32, k: usize) -> u32
    requires resource { k < net.now.resources }
    requires ends { EndsBy net.now (λ _. deadline) root.now.lower }
    ensures { IsLeast ◌<◌ (IsAtEnergy net.now deadline k) result }
{
    if deadline == 0 {
        return 0;
    }
    energy_of(net, k).div_ceil(deadline as u64) as u32
}

/// The greatest core usage. A core usage is greatest where the core time of some job begins, at its late start, so only
/// these times are looked at.
fn greatest_core_usage(net: &Network, root: &Window, k: usize) -> u32
    requires resource { k < net.now.resources }
    requires lower { length root.now.lower ≡ length net.now.jobs }
    requires upper { length root.now.upper ≡ length net.now.jobs }
    ensures { IsLeast ◌<◌ (IsAtCore net.now root.now k) result }
{
    let mut most = 0;
    for &time in root.upper() {
        most = max(most, core_usage_at(net, root, k, time));
    }
    most
}

/// What the jobs use of a resource at a time wherever they start in their windows.
#[tactic(auto, using(racp_model::proofs::lemmas::CoreTimes::core_uses))]
fn core_usage_at(net: &Network, root: &Window, k: usize, time: u32) -> u32
    requires resource { k < net.now.resources }
    requires lower { length root.now.lower ≡ length net.now.jobs }
    requires upper { length root.now.upper ≡ length net.now.jobs }
    ensures { result ≡ core_usage net.now root.now k time }
{
    let mut sum = 0;
    for i in 0..net.job_count() {
        sum += core_use_at(net, root, k, time, i);
    }
    sum
}

/// What one job uses of a resource at a time wherever it starts in its window.
#[tactic(auto, unfolding(racp_model::specs::CoreTimes::core_use))]
fn core_use_at(net: &Network, root: &Window, k: usize, time: u32, i: usize) -> u32
    requires resource { k < net.now.resources }
    requires job { i < length net.now.jobs }
    requires lower { length root.now.lower ≡ length net.now.jobs }
    requires upper { length root.now.upper ≡ length net.now.jobs }
    ensures { result ≡ core_use net.now root.now k time i }
{
    if root.upper()[i] <= time && (time as u64) < root.lower()[i] as u64 + net.duration(i) as u64 {
        net.request(i, k)
    } else {
        0
    }
}
