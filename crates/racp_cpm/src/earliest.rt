//! Early starts and the critical length: a sweep forward over the pairs of the network.

ghost use Rattle.std.specs.Prelude.{◌≡◌, ℕ, ◌+◌, ◌<◌, ◌≤◌, All, IfOk, length, slice_index};
ghost use Rattle.racp_model.specs.Limits.{most_bound};
ghost use Rattle.racp_model.specs.Path.{IsEarly, IsCriticalLength};
ghost use Rattle.racp_cpm.specs.Ends.{IsLastEnd};

use racp_model::{Network, Starts};
use std::alloc::{AllocError, Global};
use std::cmp::max;

/// The early starts, in time units: the least starts at or above the lower bounds that keep precedence. `lower` has a
/// bound for each job, by place from 0, of at most 20,000,000.
///
/// # Errors
///
/// Memory was refused.
pub fn early(alloc: Global, net: &Network, lower: &[u32]) -> Result<Starts, AllocError>
    requires places { length lower.now ≡ length net.now.jobs }
    requires small { All (λ x. x ≤ most_bound) lower.now }
    ensures { IfOk result (IsEarly net.now (slice_index lower.now)) }
{
    let mut starts = Vec::from_slice(alloc, lower)?;
    settle_early(net, &mut starts);
    Ok(Starts::new(starts))
}

/// Turns lower bounds into the early starts above them, in place: raises each start to the end of the jobs before it,
/// in one sweep. There is a bound for each job, by place from 0, of at most 20,000,000 time units. Takes no memory.
pub fn settle_early(net: &Network, starts: &mut [u32])
    requires places { length starts.old ≡ length net.now.jobs }
    requires small { All (λ x. x ≤ most_bound) starts.old }
    ensures { IsEarly net.now (slice_index starts.old) starts.new }
{
    for &(i, j) in net.topological_arcs() {
        let end = starts[i as usize] + net.duration(i as usize);
        if starts[j as usize] < end {
            starts[j as usize] = end;
        }
    }
}

/// The critical length, in time units: the greatest sum, over the chains of the precedence relation, of the release
/// time of the first job and the durations of all. `release` has a time for each job, by place from 0, of at most
/// 20,000,000.
///
/// # Errors
///
/// Memory was refused.
pub fn longest(alloc: Global, net: &Network, release: &[u32]) -> Result<u64, AllocError>
    requires places { length release.now ≡ length net.now.jobs }
    requires small { All (λ x. x ≤ most_bound) release.now }
    ensures { IfOk result (IsCriticalLength net.now (slice_index release.now)) }
{
    let starts = early(alloc, net, release)?;
    Ok(last_end(net, &starts))
}

/// The greatest finish of a job, in time units. Of early starts it is the critical length. There is a start for each
/// job, by place from 0. Takes no memory.
pub fn last_end(net: &Network, starts: &Starts) -> u64
    requires { length starts.now ≡ length net.now.jobs }
    ensures last { IsLastEnd net.now starts.now result }
    ensures critical { (release : ℕ → ℕ) → IsEarly net.now release starts.now →
        IsCriticalLength net.now release result }
{
    let count = net.job_count();
    let starts = starts.as_slice();
    let mut last = starts[0] as u64 + net.duration(0) as u64;
    for i in 1..count {
        last = max(last, starts[i] as u64 + net.duration(i) as u64);
    }
    last
}
