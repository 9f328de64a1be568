//! Jobs that need more together than a ceiling.

ghost use Rattle.std.specs.Prelude.{◌≡◌, ℕ, ◌<◌, List, IfOk, IfSome, None, length, slice_index};
ghost use Rattle.racp_whatif.specs.Fitting.{AllWorkFits};
ghost use Rattle.racp_whatif.specs.Within.{AreWorkers, IsAbove, IsOver};

use crate::need::{Need, push_job};
use crate::overload::{overload, widened};
use crate::work::{Work, part_of};
use racp_clauses::Times;
use racp_clauses::laws::least_work_is_done;
use racp_model::limits::{MOST_JOBS, MOST_RESOURCES};
use racp_model::{Network, Window};
use std::alloc::{AllocError, Global};

/// The need of jobs whose least work at some times is more than a ceiling can do, if that is seen at some times.
pub(crate) fn joint_above(
    alloc: Global,
    net: &Network,
    window: &Window,
    ceilings: &[u32],
) -> Result<Option<Need>, AllocError>
    requires lower { length window.now.lower ≡ length net.now.jobs }
    requires upper { length window.now.upper ≡ length net.now.jobs }
    requires ceilings { length ceilings.now ≡ net.now.resources }
    ensures above { IfOk result (λ need. IfSome need (IsAbove net.now window.now ceilings.now)) }
    ensures none { IfOk result (λ need. need ≡ None → (k : ℕ) → k < net.now.resources →
        AllWorkFits net.now window.now k (slice_index ceilings.now k) (length net.now.jobs)) }
{
    for k in 0..net.resource_count() {
        if let Some(work) = overload(net, window, k, ceilings[k]) {
            let work = widened(net, window, k, ceilings[k], work);
            return Ok(Some(need_of(alloc, net, window, k, work)?));
        }
    }
    Ok(None)
}

/// What the jobs need that have a part in the work at some times.
fn need_of(
    alloc: Global,
    net: &Network,
    window: &Window,
    k: usize,
    work: Work,
) -> Result<Need, AllocError>
    requires resource { k < net.now.resources }
    requires lower { length window.now.lower ≡ length net.now.jobs }
    requires upper { length window.now.upper ≡ length net.now.jobs }
    requires some { work.times.from < work.times.until }
    ensures { IfOk result (λ need. (ceilings : List ℕ) → IsOver net.now window.now k (slice_index ceilings k) work →
        IsAbove net.now window.now ceilings need) }
{
    least_work_is_done();
    prove!(net.resource_count() <= MOST_RESOURCES);
    let times = work.times;
    let jobs = workers(alloc, net, window, k, times)?;
    let units = work.amount.div_ceil(times.until - times.from);
    Ok(Need {
        place: k as u32,
        units,
        from: times.from,
        until: times.until,
        jobs,
    })
}

/// The numbers of the jobs that have a part in the work at some times.
fn workers(
    alloc: Global,
    net: &Network,
    window: &Window,
    k: usize,
    times: Times,
) -> Result<Vec<u32>, AllocError>
    requires resource { k < net.now.resources }
    requires lower { length window.now.lower ≡ length net.now.jobs }
    requires upper { length window.now.upper ≡ length net.now.jobs }
    ensures { IfOk result (λ jobs. AreWorkers net.now window.now k times.from times.until (length net.now.jobs) jobs.items) }
{
    let mut jobs = Vec::new(alloc);
    for i in 0..net.job_count() {
        if 0 < part_of(net, window, k, times, i) {
            prove!(net.job_count() <= MOST_JOBS);
            push_job(&mut jobs, i)?;
        }
    }
    Ok(jobs)
}
