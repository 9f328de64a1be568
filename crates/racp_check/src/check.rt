//! The check of a plan: six tests, one after another.

ghost use Rattle.std.specs.Prelude.{◌≡◌, ◌<◌, ◌↔◌, length, IsTrue, MatchOption};
ghost use Rattle.racp_model.specs.Terms.{AreTermsOf, release_of, due_of};
ghost use Rattle.racp_cpm.specs.Ends.{IsFirstLateAnswer};
ghost use Rattle.racp_check.specs.PlanFaults.{IsChecked};
ghost use Rattle.racp_check.specs.PlanTests.{IsBrokenAnswer, IsOverAtAnswer, IsOverAnswer, IsAboveAnswer, IsFirstEarlyAnswer};

use crate::plan_fault::PlanFault;
use racp_model::{Network, usage_at};
use racp_plan::Plan;
use racp_prices::{Order, cost_of};
use std::cmp::min;

/// Whether a plan has the right cost, and its starts fit its capacities on the terms of the order: its deadline, owned
/// units, ceilings, release and due times. The deadline and the critical length that the plan itself names are not
/// looked at. Takes no memory.
///
/// # Errors
///
/// The first fault in the order of `PlanFault`, with its least names.
pub fn check_plan(net: &Network, order: &Order, plan: &Plan) -> Result<(), PlanFault>
    requires terms { AreTermsOf net.now order.now }
    requires capacities { length plan.now.capacities ≡ net.now.resources }
    requires starts { length plan.now.starts ≡ length net.now.jobs }
    ensures { IsChecked net.now order.now plan.now result }
{
    let capacities = plan.capacities.as_slice();
    let starts = plan.starts.as_slice();
    if plan.cost != cost_of(net, order, capacities) {
        return Err(PlanFault::Cost);
    }
    if let Some(job) = first_late(net, order, starts) {
        return Err(PlanFault::Late(job));
    }
    if let Some((before, after)) = first_broken(net, starts) {
        return Err(PlanFault::Order(before, after));
    }
    if let Some((resource, time)) = first_over(net, capacities, starts) {
        return Err(PlanFault::Over(resource, time));
    }
    if let Some(resource) = first_above_ceiling(net, order, capacities) {
        return Err(PlanFault::Ceiling(resource));
    }
    if let Some(job) = first_early(net, order, starts) {
        return Err(PlanFault::Early(job));
    }
    Ok(())
}

/// The number of the first job that ends after its due time or the deadline.
fn first_late(net: &Network, order: &Order, starts: &[u32]) -> Option<u32>
    requires terms { AreTermsOf net.now order.now }
    requires starts { length starts.now ≡ length net.now.jobs }
    ensures { IsFirstLateAnswer net.now (due_of order.now) starts.now result }
{
    for i in 0..net.job_count() {
        let due = min(order.due[i], order.deadline);
        if (due as u64) < starts[i] as u64 + net.duration(i) as u64 {
            return Some(i as u32 + 1);
        }
    }
    None
}

/// The numbers of the first two jobs of which the second starts before the first has ended, although it is to come
/// after it.
fn first_broken(net: &Network, starts: &[u32]) -> Option<(u32, u32)>
    requires { length starts.now ≡ length net.now.jobs }
    ensures { IsBrokenAnswer net.now starts.now result }
{
    for &(before, after) in net.arcs() {
        let (i, j) = (before as usize - 1, after as usize - 1);
        if (starts[j] as u64) < starts[i] as u64 + net.duration(i) as u64 {
            return Some((before, after));
        }
    }
    None
}

/// The number of the first resource that is used above its capacity at the first time at which one is, and that time. A
/// usage is greatest where some job starts, so only these times are looked at.
fn first_over(net: &Network, capacities: &[u32], starts: &[u32]) -> Option<(u32, u32)>
    requires capacities { length capacities.now ≡ net.now.resources }
    requires starts { length starts.now ≡ length net.now.jobs }
    ensures { IsOverAnswer net.now capacities.now starts.now result }
{
    let mut first = None;
    for &time in starts {
        if is_before(time, first) {
            if let Some(resource) = first_over_at(net, capacities, starts, time) {
                first = Some((resource, time));
            }
        }
    }
    first
}

/// Whether the time is before that of the excess so far, if there is one.
fn is_before(time: u32, first: Option<(u32, u32)>) -> bool
    ensures { MatchOption first (IsTrue result) (λ over. IsTrue result ↔ (time < over.1)) }
{
    match first {
        Some((_, least)) => time < least,
        None => true,
    }
}

/// The number of the first resource that is used above its capacity at this time.
fn first_over_at(net: &Network, capacities: &[u32], starts: &[u32], time: u32) -> Option<u32>
    requires capacities { length capacities.now ≡ net.now.resources }
    requires starts { length starts.now ≡ length net.now.jobs }
    ensures { IsOverAtAnswer net.now capacities.now starts.now time result }
{
    for k in 0..net.resource_count() {
        if (capacities[k] as u64) < usage_at(net, starts, k, time) {
            return Some(k as u32 + 1);
        }
    }
    None
}

/// The number of the first resource of which the capacity is above its ceiling.
fn first_above_ceiling(net: &Network, order: &Order, capacities: &[u32]) -> Option<u32>
    requires terms { AreTermsOf net.now order.now }
    requires capacities { length capacities.now ≡ net.now.resources }
    ensures { IsAboveAnswer net.now order.now capacities.now result }
{
    let ceilings = order.ceilings.as_ref()?;
    for k in 0..net.resource_count() {
        if ceilings[k] < capacities[k] {
            return Some(k as u32 + 1);
        }
    }
    None
}

/// The number of the first job that starts before its release time.
fn first_early(net: &Network, order: &Order, starts: &[u32]) -> Option<u32>
    requires terms { AreTermsOf net.now order.now }
    requires starts { length starts.now ≡ length net.now.jobs }
    ensures { IsFirstEarlyAnswer net.now (release_of order.now) starts.now result }
{
    for i in 0..net.job_count() {
        if starts[i] < order.release[i] {
            return Some(i as u32 + 1);
        }
    }
    None
}
