//! When tasks begin and end, how much work they are, and what they wait for, as planners have it.

ghost use Rattle.std.specs.Prelude.{◌≡◌, ◌≤◌, ◌^◌, max, slice_index};
ghost use Rattle.racp_model.specs.Project.{duration};
ghost use Rattle.racp_export.specs.Work.{begins_early, is_first, is_followed, is_tied, link_end, link_start, ready_at, task_hours, units_before};

use crate::words::units_at;
use racp_calendar::{Calendar, work_between};
use racp_model::Network;
use racp_show::{Predecessor, Task};

/// How many hours the work of one unit on a task is: eight a day.
pub(crate) fn task_hours(calendar: Calendar<'_>, task: &Task<'_>) -> u128
    ensures value { result ≡ task_hours calendar.entry task.now }
    ensures few { result ≤ 2 ^ 67 }
{
    let start = task.start as u64;
    work_between(calendar, start, start + task.duration as u64) * 8
}

/// Whether a task begins in the morning.
pub(crate) fn begins_early(task: &Task<'_>) -> bool
    ensures { result ≡ begins_early task.now.start task.now.duration }
{
    task.duration != 0 || task.start == 0
}

/// Whether the links of a task alone would let it begin earlier.
pub(crate) fn is_tied(net: &Network, starts: &[u32], task: &Task<'_>) -> bool
    ensures { result ≡ is_tied net.now starts.now task.now }
{
    ready_at(net, starts, task.predecessors.as_slice()) < task.start as u64
}

/// When links alone let a task begin.
fn ready_at(net: &Network, starts: &[u32], before: &[Predecessor]) -> u64
    ensures { result ≡ ready_at net.now starts.now before.now }
{
    let mut ready = 0;
    for link in before {
        ready = later(ready, link_end(net, starts, *link));
    }
    ready
}

/// The greater of two numbers.
fn later(number: u64, other: u64) -> u64
    ensures { result ≡ max number other }
{
    if number < other { other } else { number }
}

/// When what a task waits for has ended, and its lag is over.
pub(crate) fn link_end(net: &Network, starts: &[u32], link: Predecessor) -> u64
    ensures { result ≡ link_end net.now starts.now link }
{
    link_start(net, starts, link) + link.lag as u64
}

/// When what a task waits for has ended.
pub(crate) fn link_start(net: &Network, starts: &[u32], link: Predecessor) -> u64
    ensures value { result ≡ link_start net.now starts.now link }
    ensures few { result ≤ 2 ^ 33 }
{
    let place = link.job.saturating_sub(1) as usize;
    number_at(starts, place) as u64 + duration_at(net, place) as u64
}

/// The number at a place; 0 if there is none.
pub(crate) fn number_at(numbers: &[u32], place: usize) -> u32
    ensures { result ≡ slice_index numbers.now place }
{
    if place < numbers.len() {
        numbers[place]
    } else {
        0
    }
}

/// How long the job at a place runs; 0 if there is none.
#[tactic(auto, unfolding(racp_model::specs::Project::duration))]
pub(crate) fn duration_at(net: &Network, place: usize) -> u32
    ensures { result ≡ duration net.now place }
{
    if place < net.job_count() {
        net.duration(place)
    } else {
        0
    }
}

/// Whether some job comes right after the one with a number.
pub(crate) fn is_followed(net: &Network, job: usize) -> bool
    ensures { result ≡ is_followed net.now job }
{
    is_first(net.arcs(), job)
}

/// Whether a number is the first of some pair.
fn is_first(arcs: &[(u32, u32)], job: usize) -> bool
    ensures { result ≡ is_first arcs.now job }
{
    for arc in arcs {
        if arc.0 as usize == job {
            return true;
        }
    }
    false
}

/// How many units the job at place `i` needs of all resources.
pub(crate) fn units_of(net: &Network, i: usize) -> u64
    ensures value { result ≡ units_before net.now i net.now.resources }
    ensures few { result ≤ 2 ^ 36 }
{
    let mut units = 0;
    let count = net.resource_count();
    for k in 0..count {
        units += units_at(net, i, k) as u64;
    }
    units
}
