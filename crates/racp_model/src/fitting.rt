//! Whether starts are a schedule that ends in time and keeps the capacities.

ghost use Rattle.std.specs.Prelude.{◌≡◌, ℕ, ◌+◌, ◌<◌, ◌≤◌, ◌↔◌, IsTrue, length, slice_index};
ghost use Rattle.racp_model.specs.Schedule.{KeepsPrecedence, EndsBy, IsWithinCapacities, FitsInTime, usage};

use crate::capacities::Capacities;
use crate::network::Network;
use crate::starts::Starts;
use crate::usage::usage_at;

/// Whether the starts are a schedule that ends by the deadline and never uses more than the capacities (Möhring 1984).
/// There is a capacity for each resource and a start for each job, by place; the deadline is in time units, and any may
/// be asked. Takes no memory.
pub fn fits(net: &Network, capacities: &Capacities, starts: &Starts, deadline: u64) -> bool
    requires capacities { length capacities.now ≡ net.now.resources }
    requires starts { length starts.now ≡ length net.now.jobs }
    ensures { IsTrue result ↔ FitsInTime net.now (λ _. 0) (λ _. deadline) capacities.now starts.now }
{
    let starts = starts.as_slice();
    keeps_precedence(net, starts)
        && ends_by(net, starts, deadline)
        && keeps_capacities(net, capacities.as_slice(), starts)
}

/// Whether no job starts before each that precedes it has ended.
fn keeps_precedence(net: &Network, starts: &[u32]) -> bool
    requires { length starts.now ≡ length net.now.jobs }
    ensures { IsTrue result ↔ KeepsPrecedence net.now starts.now }
{
    for &(i, j) in net.topological_arcs() {
        let end = starts[i as usize] as u64 + net.duration(i as usize) as u64;
        if (starts[j as usize] as u64) < end {
            return false;
        }
    }
    true
}

/// Whether each job ends by the deadline.
fn ends_by(net: &Network, starts: &[u32], deadline: u64) -> bool
    requires { length starts.now ≡ length net.now.jobs }
    ensures { IsTrue result ↔ EndsBy net.now (λ _. deadline) starts.now }
{
    (0..net.job_count()).all(|i| starts[i] as u64 + net.duration(i) as u64 <= deadline)
}

/// Whether the jobs never use more than the capacities.
fn keeps_capacities(net: &Network, capacities: &[u32], starts: &[u32]) -> bool
    requires capacities { length capacities.now ≡ net.now.resources }
    requires starts { length starts.now ≡ length net.now.jobs }
    ensures { IsTrue result ↔ IsWithinCapacities net.now capacities.now starts.now }
{
    (0..net.resource_count()).all(|k| keeps_capacity(net, starts, k, capacities[k]))
}

/// Whether the jobs never use more than the capacity of one resource. A usage is greatest where some job starts, so
/// only these times are looked at.
fn keeps_capacity(net: &Network, starts: &[u32], k: usize, capacity: u32) -> bool
    requires starts { length starts.now ≡ length net.now.jobs }
    requires resource { k < net.now.resources }
    ensures { IsTrue result ↔ ((t : ℕ) → usage net.now starts.now k t ≤ capacity) }
{
    for start in starts {
        if (capacity as u64) < usage_at(net, starts, k, *start) {
            return false;
        }
    }
    true
}
