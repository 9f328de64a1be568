//! What the jobs of a plan use of a resource over time.

ghost use Rattle.std.specs.Prelude.{◌≡◌, ℕ, ◌+◌, ◌*◌, ◌<◌, ◌≤◌, IfOk, length, slice_index};
ghost use Rattle.racp_model.specs.Project.{duration};
ghost use Rattle.racp_model.specs.Schedule.{EndsBy, energy, usage};
ghost use Rattle.racp_show.specs.Uses.{AreSteps, IsGreatestUsage, percent};
ghost use Rattle.racp_show.specs.Changes.{IsNextChange};

use racp_model::{Network, energy_of, usage_at};
use serde::Serialize;
use std::alloc::{AllocError, Global};
use std::cmp::{max, min};

/// From a time on, this many units of a resource are used, until the next step.
#[derive(Clone, Copy, Serialize)]
pub struct Step {
    /// The time, in time units.
    pub from: u32,
    /// How many units the jobs use together from then on.
    pub units: u32,
}

/// The greatest usage of the resource at place `k`, from 0, at the times from `from` to before `to`, in time units.
/// There is a start for each job, by place. Takes no memory.
pub fn greatest_usage(net: &Network, starts: &[u32], k: usize, from: u32, to: u32) -> u32
    requires starts { length starts.now ≡ length net.now.jobs }
    requires resource { k < net.now.resources }
    requires some_time { from < to }
    ensures { IsGreatestUsage net.now starts.now k from to result }
{
    let mut most = used_at(net, starts, k, from);
    for i in 0..net.job_count() {
        let start = starts[i];
        if from < start && start < to {
            most = max(most, used_at(net, starts, k, start));
        }
    }
    most
}

/// The usage of a resource at a time.
fn used_at(net: &Network, starts: &[u32], k: usize, time: u32) -> u32
    requires starts { length starts.now ≡ length net.now.jobs }
    requires resource { k < net.now.resources }
    ensures { result ≡ usage net.now starts.now k time }
{
    prove!(k < net.resource_count());
    usage_at(net, starts, k, time) as u32
}

/// The usage of the resource at place `k`, from 0, in steps: from 0 on, and at each time at which it changes. Each job
/// ends by the deadline; there is a start for each, by place, in time units.
///
/// # Errors
///
/// Memory was refused.
pub fn usage_steps(
    alloc: Global,
    net: &Network,
    starts: &[u32],
    k: usize,
    deadline: u32,
) -> Result<Vec<Step>, AllocError>
    requires starts { length starts.now ≡ length net.now.jobs }
    requires resource { k < net.now.resources }
    requires ends { EndsBy net.now (λ _. deadline) starts.now }
    ensures { IfOk result (λ steps. AreSteps net.now starts.now k steps.items) }
{
    let mut time = 0;
    let mut units = used_at(net, starts, k, time);
    let mut steps = Vec::new(alloc);
    steps.push(Step { from: time, units })?;
    while time < deadline {
        time = next_change(net, starts, deadline, time);
        let now = used_at(net, starts, k, time);
        if now != units {
            steps.push(Step {
                from: time,
                units: now,
            })?;
            units = now;
        }
    }
    Ok(steps)
}

/// The next time after this one at which a job starts or ends, or the deadline if that is sooner.
fn next_change(net: &Network, starts: &[u32], deadline: u32, time: u32) -> u32
    requires starts { length starts.now ≡ length net.now.jobs }
    requires ends { EndsBy net.now (λ _. deadline) starts.now }
    requires before { time < deadline }
    ensures change { IsNextChange net.now starts.now time result }
    ensures within { result ≤ deadline }
{
    let mut next = deadline;
    for i in 0..net.job_count() {
        let start = starts[i];
        next = sooner(next, time, start);
        next = sooner(next, time, start + net.duration(i));
    }
    next
}

/// The sooner of two times, of which the second counts only if it is after `time`.
fn sooner(next: u32, time: u32, other: u32) -> u32
    ensures least { result ≤ next }
    ensures counts { time < other → result ≤ other }
    ensures after { time < next → time < result }
{
    if time < other { min(next, other) } else { next }
}

/// How busy a resource is: the sum, over the jobs, of duration times request of the resource at place `k`, from 0, in
/// percent of the capacity times the deadline, rounded down; 0 if that is 0. Takes no memory.
pub fn busy_percent(net: &Network, k: usize, capacity: u32, deadline: u32) -> u64
    requires { k < net.now.resources }
    ensures { result ≡ percent (energy net.now k) (capacity * deadline) }
{
    let whole = capacity as u64 * deadline as u64;
    let part = energy_of(net, k);
    if whole == 0 { 0 } else { 100 * part / whole }
}
