//! Whether starts fit capacities on the terms of an order.

ghost use Rattle.std.specs.Prelude.{◌≡◌, ◌↔◌, ◌+◌, ◌<◌, ◌≤◌, IsTrue, ℕ, length, slice_index};
ghost use Rattle.racp_model.specs.Project.{duration};
ghost use Rattle.racp_model.specs.Schedule.{EndsBy};
ghost use Rattle.racp_model.specs.Terms.{AreTermsOf, IsWithinCeilings, release_of, due_of};
ghost use Rattle.racp_plan.specs.Fitting.{AreFitting};

use racp_model::{Capacities, Network, Starts, fits};
use racp_prices::Order;
use std::cmp::min;

/// Whether starts fit capacities on the terms of an order, within its ceilings. Takes no memory.
pub fn are_fitting(net: &Network, order: &Order, capacities: &Capacities, starts: &Starts) -> bool
    requires { AreTermsOf net.now order.now }
    ensures { IsTrue result ↔ AreFitting net.now order.now capacities.now starts.now }
{
    capacities.as_slice().len() == net.resource_count()
        && starts.as_slice().len() == net.job_count()
        && fits(net, capacities, starts, order.deadline as u64)
        && are_released(net, &order.release, starts.as_slice())
        && end_by_due(net, order, starts.as_slice())
        && are_within_ceilings(net, order, capacities.as_slice())
}

/// Whether each job starts at or after its release time.
fn are_released(net: &Network, release: &[u32], starts: &[u32]) -> bool
    requires release { length release.now ≡ length net.now.jobs }
    requires starts { length starts.now ≡ length net.now.jobs }
    ensures { IsTrue result ↔ ((i : ℕ) → i < length net.now.jobs → slice_index release.now i ≤ slice_index starts.now i) }
{
    (0..net.job_count()).all(|i| release[i] <= starts[i])
}

/// Whether each job ends by its due time and the deadline.
fn end_by_due(net: &Network, order: &Order, starts: &[u32]) -> bool
    requires terms { AreTermsOf net.now order.now }
    requires starts { length starts.now ≡ length net.now.jobs }
    ensures { IsTrue result ↔ EndsBy net.now (due_of order.now) starts.now }
{
    for i in 0..net.job_count() {
        let due = min(order.due[i], order.deadline);
        if (due as u64) < starts[i] as u64 + net.duration(i) as u64 {
            return false;
        }
    }
    true
}

/// Whether no capacity is above its ceiling.
fn are_within_ceilings(net: &Network, order: &Order, capacities: &[u32]) -> bool
    requires terms { AreTermsOf net.now order.now }
    requires capacities { length capacities.now ≡ net.now.resources }
    ensures { IsTrue result ↔ IsWithinCeilings order.now capacities.now }
{
    match &order.ceilings {
        Some(ceilings) => are_at_most(capacities, ceilings),
        None => true,
    }
}

/// Whether each number is at most the one at its place in another row.
fn are_at_most(row: &[u32], most: &[u32]) -> bool
    requires { length most.now ≡ length row.now }
    ensures { IsTrue result ↔ ((k : ℕ) → k < length row.now → slice_index row.now k ≤ slice_index most.now k) }
{
    for k in 0..row.len() {
        if most[k] < row[k] {
            return false;
        }
    }
    true
}
