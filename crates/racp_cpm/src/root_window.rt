//! The root window: from the early to the late starts.

ghost use Rattle.std.specs.Prelude.{◌≡◌, ◌≤◌, All, IfOk, length, slice_index};
ghost use Rattle.racp_model.specs.Limits.{latest_time};
ghost use Rattle.racp_model.specs.Schedule.{KeepsPrecedence, EndsBy};
ghost use Rattle.racp_model.specs.Path.{IsLate};
ghost use Rattle.racp_cpm.specs.Ends.{IsRootAnswer, IsFirstLateAnswer};

use crate::earliest::early;
use crate::latest::late;
use racp_model::{Network, Starts, Window};
use std::alloc::{AllocError, Global};

/// The root window, in time units: from the early starts at or above the release times to the late starts by the due
/// times. `None` if the early finish of some job exceeds its due time. Both lists have a time for each job, by place
/// from 0, of at most 10,000,000.
///
/// # Errors
///
/// Memory was refused.
pub fn root(
    alloc: Global,
    net: &Network,
    release: &[u32],
    due: &[u32],
) -> Result<Option<Window>, AllocError>
    requires release_places { length release.now ≡ length net.now.jobs }
    requires release_small { All (λ x. x ≤ latest_time) release.now }
    requires due_places { length due.now ≡ length net.now.jobs }
    requires due_small { All (λ x. x ≤ latest_time) due.now }
    ensures { IfOk result (IsRootAnswer net.now (slice_index release.now) (slice_index due.now)) }
{
    let lower = early(alloc, net, release)?;
    if first_late(net, &lower, due).is_some() {
        return Ok(None);
    }
    Ok(Some(window_above(alloc, net, lower, due)?))
}

/// The window from starts that keep precedence and end by the due times, in time units, to the late starts by these.
/// There is a due time for each job, by place from 0, of at most 10,000,000.
///
/// # Errors
///
/// Memory was refused.
pub fn window_above(
    alloc: Global,
    net: &Network,
    lower: Starts,
    due: &[u32],
) -> Result<Window, AllocError>
    requires lower_places { length lower ≡ length net.now.jobs }
    requires precedence { KeepsPrecedence net.now lower }
    requires ends { EndsBy net.now (slice_index due.now) lower }
    requires due_places { length due.now ≡ length net.now.jobs }
    requires due_small { All (λ x. x ≤ latest_time) due.now }
    ensures { IfOk result (λ window. (window.lower ≡ lower) × IsLate net.now (slice_index due.now) window.upper) }
{
    match late(alloc, net, due)? {
        Some(upper) => Ok(Window::new(lower, upper)),
        None => unreachable!(),
    }
}

/// The number, from 1, of the first job that ends after its due time, or `None` if each ends by it. `due` has a time
/// for each job, by place from 0. Takes no memory.
pub fn first_late(net: &Network, starts: &Starts, due: &[u32]) -> Option<u32>
    requires starts { length starts.now ≡ length net.now.jobs }
    requires due { length due.now ≡ length net.now.jobs }
    ensures { IsFirstLateAnswer net.now (slice_index due.now) starts.now result }
{
    let starts = starts.as_slice();
    for i in 0..net.job_count() {
        if (due[i] as u64) < starts[i] as u64 + net.duration(i) as u64 {
            return Some(i as u32 + 1);
        }
    }
    None
}
