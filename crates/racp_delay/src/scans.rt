//! Looking for conflicts from start to start. It goes over the jobs once for each start up to the conflict, and sorts
//! nothing.

ghost use Rattle.std.specs.Prelude.{◌≡◌, ◌↔◌, ℕ, ◌<◌, ◌≤◌, IsTrue, length, slice_index};
ghost use Rattle.racp_model.specs.Schedule.{usage};
ghost use Rattle.racp_delay.specs.Branching.{IsActiveSet, IsConflictAnswer};
ghost use Rattle.racp_delay.specs.Scans.{AreTooMuch, IsNextStart};

use crate::conflicts::Clash;
use crate::loads::{Loads, with};
use racp_model::limits::MOST_RESOURCES;
use racp_model::{JobSet, Network};

/// The first conflict of the starts with the capacities, if no usage exceeds its capacity before a time.
pub(crate) fn first_over_from(
    net: &Network,
    capacities: &[u32],
    starts: &[u32],
    from: u32,
) -> Option<Clash>
    requires capacities { length capacities.now ≡ net.now.resources }
    requires starts { length starts.now ≡ length net.now.jobs }
    requires before { (k s : ℕ) → k < net.now.resources → s < from →
        usage net.now starts.now k s ≤ slice_index capacities.now k }
    ensures { IsConflictAnswer net.now capacities.now starts.now result }
{
    let mut time = from;
    loop {
        let running = running_at(net, starts, time);
        if are_too_much(net, capacities, &running.loads) {
            return Some(Clash {
                time,
                active: running.active,
            });
        }
        if time == u32::MAX {
            return None;
        }
        time = running.next;
    }
}

/// The jobs that are active at a time, what they request together of each resource, and the next start after it, or
/// the greatest number if there is none.
#[derive(Drop)]
struct Running {
    active: JobSet,
    loads: Loads,
    next: u32,
}

/// What runs at a time.
fn running_at(net: &Network, starts: &[u32], time: u32) -> Running
    requires { length starts.now ≡ length net.now.jobs }
    ensures set { IsActiveSet net.now starts.now time result.active }
    ensures sums { (k : ℕ) → k < net.now.resources → slice_index result.loads k ≡ usage net.now starts.now k time }
    ensures next { IsNextStart starts.now time result.next }
{
    let mut active = JobSet::new();
    let mut loads = [0; MOST_RESOURCES];
    let mut next = u32::MAX;
    for i in 0..net.job_count() {
        let start = starts[i];
        if time < start {
            if start < next {
                next = start;
            }
        } else if time - start < net.duration(i) {
            let job = i as u32 + 1;
            active.insert(job);
            loads = with(net, &loads, job);
        }
    }
    Running {
        active,
        loads,
        next,
    }
}

/// Whether the load of some resource is more than its capacity.
fn are_too_much(net: &Network, capacities: &[u32], loads: &Loads) -> bool
    requires { length capacities.now ≡ net.now.resources }
    ensures { IsTrue result ↔ AreTooMuch net.now capacities.now loads.now }
{
    (0..net.resource_count()).any(|k| capacities[k] < loads[k])
}
