//! Late starts: a sweep backward over the pairs of the network.

ghost use Rattle.std.specs.Prelude.{◌≡◌, MatchBool, IfOk, length, slice_index};
ghost use Rattle.racp_model.specs.Path.{IsLate, IsTooTight};
ghost use Rattle.racp_cpm.specs.Ends.{IsLateAnswer};
ghost use Rattle.racp_cpm.specs.Lowered.{TakesDurations, IsLowered};

use racp_model::{Network, Starts};
use std::alloc::{AllocError, Global};

/// The late starts, in time units: the greatest starts that keep precedence and end by the due times, or `None` if
/// nothing does both. `due` has a time for each job, by place from 0.
///
/// # Errors
///
/// Memory was refused.
pub fn late(alloc: Global, net: &Network, due: &[u32]) -> Result<Option<Starts>, AllocError>
    requires { length due.now ≡ length net.now.jobs }
    ensures { IfOk result (IsLateAnswer net.now (slice_index due.now)) }
{
    let mut starts = Vec::from_slice(alloc, due)?;
    if !settle_late(net, &mut starts) {
        return Ok(None);
    }
    Ok(Some(Starts::new(starts)))
}

/// Turns due times into late starts, and says whether there are any.
fn settle_late(net: &Network, starts: &mut [u32]) -> bool
    requires { length starts.old ≡ length net.now.jobs }
    ensures { MatchBool result (IsLate net.now (slice_index starts.old) starts.new)
        (IsTooTight net.now (slice_index starts.old)) }
{
    take_durations(net, starts) && lower(net, starts)
}

/// Lowers each due time by the job's duration, and says whether there is room for it.
fn take_durations(net: &Network, starts: &mut [u32]) -> bool
    requires { length starts.old ≡ length net.now.jobs }
    ensures { TakesDurations net.now starts.old starts.new result }
{
    for i in 0..net.job_count() {
        let duration = net.duration(i);
        if starts[i] < duration {
            return false;
        }
        starts[i] -= duration;
    }
    true
}

/// Lowers each start to leave room before the jobs after it, in one sweep from the end, and says whether that can be
/// done.
fn lower(net: &Network, starts: &mut [u32]) -> bool
    requires { length starts.old ≡ length net.now.jobs }
    ensures { IsLowered net.now starts.old starts.new result }
{
    let arcs = net.topological_arcs();
    for k in (0..arcs.len()).rev() {
        let (i, j) = arcs[k];
        let duration = net.duration(i as usize);
        if starts[j as usize] < duration {
            return false;
        }
        let start = starts[j as usize] - duration;
        if start < starts[i as usize] {
            starts[i as usize] = start;
        }
    }
    true
}
