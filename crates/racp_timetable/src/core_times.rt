//! What runs at a time in all starts of a window, and the bounds that follow.

ghost use Rattle.std.specs.Prelude.{◌≡◌, ◌↔◌, ℕ, ◌+◌, ◌<◌, ◌≤◌, IsTrue, length, slice_index};
ghost use Rattle.racp_model.specs.Formed.{HasBounds};
ghost use Rattle.racp_model.specs.Limits.{most_load};
ghost use Rattle.racp_model.specs.Project.{request};
ghost use Rattle.racp_timetable.specs.Cores.{IsCore, IsCoreAround, HasRoom, AreWithin};
ghost use Rattle.racp_timetable.specs.Narrowing.{IsNarrowedOrNo};

use crate::narrowing::{Narrowing, end_of};
use racp_model::Network;
use racp_model::limits::MOST_RESOURCES;
use std::cmp::min;

/// What some jobs request together of each resource, by place from 0.
pub(crate) type Loads = [u32; MOST_RESOURCES];

/// The core usage of each resource at a time, and a later time until which the jobs that use it run on.
#[derive(Drop)]
pub(crate) struct Core {
    time: u32,
    until: u32,
    loads: Loads,
}

/// Narrows a window by its core usage at a time, for as long as the jobs run on, but no longer than until the next
/// time. `largest` are the largest requests of a job. Says whether something may still lie in it.
pub(crate) fn narrow_at(
    net: &Network,
    capacities: &[u32],
    largest: &Loads,
    window: &mut Narrowing,
    time: u32,
    next: u32,
) -> bool
    requires capacities { length capacities.now ≡ net.now.resources }
    requires bounds { HasBounds net.now window.old }
    requires later { time < next }
    ensures { (from : ℕ) → from ≤ time →
        IsNarrowedOrNo net.now capacities.now from window.old window.new result }
{
    let core = core_at(net, window, time, next);
    if !are_within(net, capacities, &core.loads) {
        return false;
    }
    if have_room(net, capacities, &core.loads, largest) {
        return true;
    }
    for i in 0..net.job_count() {
        if !narrow_job(net, capacities, window, &core, i) {
            return false;
        }
    }
    true
}

/// The core usage of a window at a time, until the next time at most.
fn core_at(net: &Network, window: &Narrowing, time: u32, next: u32) -> Core
    requires bounds { HasBounds net.now window.now }
    requires later { time < next }
    ensures time { result.time ≡ time }
    ensures core { IsCore net.now window.now result }
{
    let mut loads = [0; MOST_RESOURCES];
    let mut until = next;
    for i in 0..net.job_count() {
        let end = end_of(net, i, window.lower(i));
        if window.upper(i) <= time && time < end {
            until = min(until, end);
            add_to(net, &mut loads, i);
        }
    }
    Core { time, until, loads }
}

/// Adds to loads what the job at a place requests.
fn add_to(net: &Network, loads: &mut Loads, i: usize)
    requires job { i < length net.now.jobs }
    requires small { (k : ℕ) → k < net.now.resources → slice_index loads.old k ≤ most_load }
    ensures { (k : ℕ) → k < net.now.resources →
        slice_index loads.new k ≡ slice_index loads.old k + request net.now i k }
{
    let requests = net.requests(i);
    for k in 0..requests.len() {
        loads[k] += requests[k];
    }
}

/// Whether the loads are within the capacities.
fn are_within(net: &Network, capacities: &[u32], loads: &Loads) -> bool
    requires { length capacities.now ≡ net.now.resources }
    ensures { IsTrue result ↔ AreWithin net.now capacities.now loads.now }
{
    (0..net.resource_count()).all(|k| loads[k] <= capacities[k])
}

/// Whether the loads leave room for the largest requests, and so for each job.
fn have_room(net: &Network, capacities: &[u32], loads: &Loads, largest: &Loads) -> bool
    requires { length capacities.now ≡ net.now.resources }
{
    (0..net.resource_count()).all(|k| loads[k].saturating_add(largest[k]) <= capacities[k])
}

/// Whether the loads leave room for the job at a place.
fn has_room(net: &Network, capacities: &[u32], loads: &Loads, i: usize) -> bool
    requires capacities { length capacities.now ≡ net.now.resources }
    requires job { i < length net.now.jobs }
    ensures { IsTrue result ↔ HasRoom net.now capacities.now loads.now i }
{
    let requests = net.requests(i);
    (0..requests.len()).all(|k| loads[k] as u64 + requests[k] as u64 <= capacities[k] as u64)
}

/// Moves the bounds of a job for which the core usage leaves no room, and which is not part of it. If it would run
/// at that time from its lower bound on, it starts when the core is over; if it would run from its upper bound on,
/// it ends by that time. Says whether something may still lie in the window.
fn narrow_job(
    net: &Network,
    capacities: &[u32],
    window: &mut Narrowing,
    core: &Core,
    i: usize,
) -> bool
    requires capacities { length capacities.now ≡ net.now.resources }
    requires bounds { HasBounds net.now window.old }
    requires job { i < length net.now.jobs }
    requires core { IsCoreAround net.now window.old core.now }
    ensures { (from : ℕ) → from ≤ core.now.time →
        IsNarrowedOrNo net.now capacities.now from window.old window.new result }
{
    let (first, last) = (window.lower(i), window.upper(i));
    let duration = net.duration(i);
    if duration == 0 || core.until <= first || end_of(net, i, last) <= core.time {
        return true;
    }
    if core.time < end_of(net, i, first) {
        if last <= core.time || has_room(net, capacities, &core.loads, i) {
            return true;
        }
        return window.raise(i, core.until);
    }
    if core.until <= last || has_room(net, capacities, &core.loads, i) {
        return true;
    }
    window.reduce(i, core.time - duration)
}
