//! Single jobs that request more than a ceiling.

ghost use Rattle.std.specs.Prelude.{◌≡◌, ℕ, ◌<◌, List, IfOk, IfSome, None, length, slice_index};
ghost use Rattle.racp_model.specs.Project.{duration, request};
ghost use Rattle.racp_whatif.specs.Fitting.{RequestsFit};
ghost use Rattle.racp_whatif.specs.Within.{IsAbove};

use crate::need::{Need, push_job};
use racp_model::limits::{MOST_JOBS, MOST_RESOURCES};
use racp_model::{Network, Window};
use std::alloc::{AllocError, Global};

/// The need of a job that runs for some time and requests more than a ceiling, if there is one.
pub(crate) fn single_above(
    alloc: Global,
    net: &Network,
    window: &Window,
    ceilings: &[u32],
) -> Result<Option<Need>, AllocError>
    requires lower { length window.now.lower ≡ length net.now.jobs }
    requires upper { length window.now.upper ≡ length net.now.jobs }
    requires ceilings { length ceilings.now ≡ net.now.resources }
    ensures above { IfOk result (λ need. IfSome need (IsAbove net.now window.now ceilings.now)) }
    ensures none { IfOk result (λ need. need ≡ None → (k : ℕ) → k < net.now.resources →
        RequestsFit net.now k (slice_index ceilings.now k) (length net.now.jobs)) }
{
    for k in 0..net.resource_count() {
        if let Some(i) = greedy(net, k, ceilings[k]) {
            return Ok(Some(need_of(alloc, net, window, k, i)?));
        }
    }
    Ok(None)
}

/// The place of the first job that runs for some time and requests more than so many units.
fn greedy(net: &Network, k: usize, units: u32) -> Option<usize>
    requires { k < net.now.resources }
    ensures some { IfSome result (λ i. i < length net.now.jobs) }
    ensures runs { IfSome result (λ i. 0 < duration net.now i) }
    ensures more { IfSome result (λ i. units < request net.now i k) }
    ensures none { result ≡ None → RequestsFit net.now k units (length net.now.jobs) }
{
    for i in 0..net.job_count() {
        if 0 < net.duration(i) && units < net.request(i, k) {
            return Some(i);
        }
    }
    None
}

/// What a job that runs for some time needs of a resource, wherever it starts in its window.
fn need_of(
    alloc: Global,
    net: &Network,
    window: &Window,
    k: usize,
    i: usize,
) -> Result<Need, AllocError>
    requires resource { k < net.now.resources }
    requires job { i < length net.now.jobs }
    requires lower { length window.now.lower ≡ length net.now.jobs }
    requires upper { length window.now.upper ≡ length net.now.jobs }
    requires runs { 0 < duration net.now i }
    ensures { IfOk result (λ need. (ceilings : List ℕ) → slice_index ceilings k < request net.now i k →
        IsAbove net.now window.now ceilings need) }
{
    prove!(net.job_count() <= MOST_JOBS);
    prove!(net.resource_count() <= MOST_RESOURCES);
    let mut jobs = Vec::new(alloc);
    push_job(&mut jobs, i)?;
    Ok(Need {
        place: k as u32,
        units: net.request(i, k) as u64,
        from: window.lower()[i] as u64,
        until: window.upper()[i] as u64 + net.duration(i) as u64,
        jobs,
    })
}
