//! How many units of a resource the jobs use together: at a time, at the most, and at the very most.

ghost use Rattle.std.specs.Prelude.{◌≡◌, ℕ, ◌+◌, ◌<◌, ◌≤◌, IfOk, length, slice_index};
ghost use Rattle.racp_model.specs.Project.{IsSound};
ghost use Rattle.racp_model.specs.Schedule.{use_of, usage, roof, energy, IsPeak, ArePeaks};

use crate::capacities::Capacities;
use crate::network::Network;
use crate::starts::Starts;
use std::alloc::{AllocError, Global};
use std::cmp::max;

/// The peak of each resource, by place from 0: the most units of it that all jobs together use at a time. So the starts
/// keep these capacities, and none that are less for some resource. There is a start for each job, by place.
///
/// # Errors
///
/// Memory was refused.
pub fn peaks(alloc: Global, net: &Network, starts: &Starts) -> Result<Capacities, AllocError>
    requires { length starts.now ≡ length net.now.jobs }
    ensures { IfOk result (ArePeaks net.now starts.now) }
{
    let mut units = Vec::with_capacity(alloc, net.resource_count())?;
    for k in 0..net.resource_count() {
        units.push(peak(net, starts.as_slice(), k))?;
    }
    Ok(Capacities::new(units))
}

/// The peak of one resource. A usage is greatest where some job starts, so only these times are looked at.
fn peak(net: &Network, starts: &[u32], k: usize) -> u32
    requires starts { length starts.now ≡ length net.now.jobs }
    requires resource { k < net.now.resources }
    ensures { IsPeak net.now starts.now k result }
{
    let mut most = usage_at(net, starts, k, 0);
    for i in 0..net.job_count() {
        most = max(most, usage_at(net, starts, k, starts[i]));
    }
    most as u32
}

/// How many units of the resource at place `k`, from 0, all jobs together use at a time. There is a start for each job,
/// by place; times are in time units. Takes no memory.
#[tactic(auto, using(crate::proofs::lemmas::Sums::sums))]
pub fn usage_at(net: &Network, starts: &[u32], k: usize, time: u32) -> u64
    requires starts { length starts.now ≡ length net.now.jobs }
    requires resource { k < net.now.resources }
    ensures { result ≡ usage net.now starts.now k time }
{
    let mut sum = 0;
    for i in 0..net.job_count() {
        sum += use_at(net, starts, k, time, i) as u64;
    }
    sum
}

/// What one job uses of a resource at a time.
#[tactic(auto, unfolding(crate::specs::Schedule::use_of))]
fn use_at(net: &Network, starts: &[u32], k: usize, time: u32, i: usize) -> u32
    requires starts { length starts.now ≡ length net.now.jobs }
    requires job { i < length net.now.jobs }
    requires resource { k < net.now.resources }
    ensures { result ≡ use_of net.now starts.now k time i }
{
    if starts[i] <= time && (time as u64) < starts[i] as u64 + net.duration(i) as u64 {
        net.request(i, k)
    } else {
        0
    }
}

/// The roof of the resource at place `k`, from 0: the sum of all requests of it, in units. No schedule ever uses more.
/// Takes no memory.
#[tactic(auto, using(crate::proofs::lemmas::Sums::requests))]
pub fn roof_of(net: &Network, k: usize) -> u32
    requires { k < net.now.resources }
    ensures { result ≡ roof net.now k }
{
    let mut sum = 0;
    for i in 0..net.job_count() {
        sum += net.request(i, k);
    }
    sum
}

/// The energy of the resource at place `k`, from 0: the sum, over all jobs, of duration times request, in units times
/// time units. Takes no memory.
#[tactic(auto, using(crate::proofs::lemmas::Sums::energies))]
pub fn energy_of(net: &Network, k: usize) -> u64
    requires { k < net.now.resources }
    ensures energy { result ≡ energy net.now k }
    ensures small { result ≤ 51200000000 }
    ensures sound { IsSound net.now }
{
    let mut sum = 0;
    for i in 0..net.job_count() {
        sum += net.duration(i) as u64 * net.request(i, k) as u64;
    }
    sum
}
