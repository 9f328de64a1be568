//! Units that are needed for the work that is done at some times wherever the jobs start, or for one job.

ghost use Rattle.std.specs.Prelude.{◌≡◌, ◌<◌, ◌≤◌, length};
ghost use Rattle.racp_model.specs.Schedule.{sum_below};
ghost use Rattle.racp_model.specs.Terms.{Terms};
ghost use Rattle.racp_model.specs.Window.{Bounds};
ghost use Rattle.racp_clauses.specs.Solutions.{HasPlaces};
ghost use Rattle.racp_clauses.specs.Inferences.{Follows};
ghost use Rattle.racp_clauses.specs.Rules.{by_energy, by_request, least_time, least_work};

use crate::domain::Domain;
use crate::inference::Inference;
use crate::literal::Literal;
use crate::time_table::Times;
use racp_model::Network;
use std::cmp::min;

/// The units of a resource are at least the least work at some times, over how many these are, rounded up.
pub(crate) fn energy(net: &Network, bounds: &Domain, k: usize, times: Times) -> Inference
    requires places { HasPlaces net.now bounds.now }
    requires resource { k < net.now.resources }
    ensures exact { result ≡ by_energy net.now bounds.now k times.from times.until }
    ensures follows { (terms : Terms) → Follows net.now terms bounds.now result }
{
    if times.until <= times.from {
        return Inference::Nothing;
    }
    let units = work(net, bounds, k, times).div_ceil(times.until - times.from);
    let place = net.job_count() + k;
    Inference::Narrow(Literal::AtLeast(place as u32, units))
}

/// The units of a resource are at least what a job requests that runs for some time.
pub(crate) fn request(net: &Network, i: usize, k: usize) -> Inference
    requires job { i < length net.now.jobs }
    requires resource { k < net.now.resources }
    ensures exact { result ≡ by_request net.now i k }
    ensures follows { (terms : Terms) (bounds : Bounds) → Follows net.now terms bounds result }
{
    if net.duration(i) == 0 {
        return Inference::Nothing;
    }
    let place = net.job_count() + k;
    Inference::Narrow(Literal::AtLeast(place as u32, net.request(i, k) as u64))
}

/// The least work that the jobs do on a resource at some times.
#[tactic(auto, using(crate::proofs::Work::works))]
fn work(net: &Network, bounds: &Domain, k: usize, times: Times) -> u64
    requires places { HasPlaces net.now bounds.now }
    requires resource { k < net.now.resources }
    ensures { result ≡ sum_below (length net.now.jobs) (least_work net.now bounds.now k times.from times.until) }
{
    let mut sum = 0;
    for i in 0..net.job_count() {
        sum += net.request(i, k) as u64 * time_within(net, bounds, times, i);
    }
    sum
}

/// The least number of these times at which a job runs.
fn time_within(net: &Network, bounds: &Domain, times: Times, i: usize) -> u64
    requires places { HasPlaces net.now bounds.now }
    requires job { i < length net.now.jobs }
    ensures time { result ≡ least_time net.now bounds.now times.from times.until i }
    ensures small { result ≤ 10000 }
{
    prove!(i < net.job_count());
    let duration = net.duration(i) as u64;
    let early = (bounds.lower(i) + duration).saturating_sub(times.from);
    let late = times.until.saturating_sub(bounds.upper(i));
    min(
        min(duration, times.until.saturating_sub(times.from)),
        min(early, late),
    )
}
