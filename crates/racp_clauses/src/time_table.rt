//! What follows if the other jobs leave no room for a job at some times.

ghost use Rattle.std.specs.Prelude.{◌≡◌, ◌<◌, ◌≤◌, IsTrue, length};
ghost use Rattle.racp_model.specs.Limits.{most_load};
ghost use Rattle.racp_model.specs.Terms.{Terms};
ghost use Rattle.racp_clauses.specs.Solutions.{HasPlaces};
ghost use Rattle.racp_clauses.specs.Inferences.{Follows};
ghost use Rattle.racp_clauses.specs.Rules.{by_time_table, runs_throughout, start_outside, usage_beside, use_beside};

use crate::domain::Domain;
use crate::inference::Inference;
use crate::literal::Literal;
use racp_model::Network;

/// Times, in whole time units: from the first on, before the second.
#[derive(Clone, Copy)]
pub struct Times {
    /// The first of them.
    pub from: u64,
    /// The first time behind them.
    pub until: u64,
}

/// A job does not run at times at which the others leave no room for it.
pub(crate) fn time_table(
    net: &Network,
    bounds: &Domain,
    j: usize,
    k: usize,
    times: Times,
) -> Inference
    requires places { HasPlaces net.now bounds.now }
    requires job { j < length net.now.jobs }
    requires resource { k < net.now.resources }
    ensures exact { result ≡ by_time_table net.now bounds.now j k times.from times.until }
    ensures follows { (terms : Terms) → Follows net.now terms bounds.now result }
{
    if net.duration(j) == 0 || times.until <= times.from {
        return Inference::Nothing;
    }
    let units = bounds.upper(net.job_count() + k);
    if used_beside(net, bounds, k, times, j) + net.request(j, k) as u64 <= units {
        return Inference::Nothing;
    }
    start_outside(net, bounds, times, j)
}

/// When a job starts that does not run at some times.
fn start_outside(net: &Network, bounds: &Domain, times: Times, j: usize) -> Inference
    requires places { HasPlaces net.now bounds.now }
    requires job { j < length net.now.jobs }
    ensures { result ≡ start_outside net.now bounds.now times.from times.until j }
{
    let duration = net.duration(j) as u64;
    prove!(j < net.job_count());
    let is_behind = times.from < bounds.lower(j) + duration;
    let is_before = bounds.upper(j) < times.until;
    match (is_behind, is_before) {
        (true, true) => Inference::Close,
        (true, false) => Inference::Narrow(Literal::AtLeast(j as u32, times.until)),
        (false, true) => Inference::Narrow(Literal::AtMost(j as u32, times.from - duration)),
        (false, false) => Inference::Nothing,
    }
}

/// What all jobs but one use of a resource at each of some times wherever they start.
#[tactic(auto, using(crate::proofs::TimeTable::uses_beside))]
fn used_beside(net: &Network, bounds: &Domain, k: usize, times: Times, j: usize) -> u64
    requires places { HasPlaces net.now bounds.now }
    requires resource { k < net.now.resources }
    ensures used { result ≡ usage_beside net.now bounds.now k times.from times.until j }
    ensures small { result ≤ most_load }
{
    let mut sum = 0;
    for i in 0..net.job_count() {
        sum += beside_at(net, bounds, k, times, j, i) as u64;
    }
    sum
}

/// What one of them uses.
#[tactic(auto, unfolding(crate::specs::Rules::use_beside))]
fn beside_at(net: &Network, bounds: &Domain, k: usize, times: Times, j: usize, i: usize) -> u32
    requires places { HasPlaces net.now bounds.now }
    requires resource { k < net.now.resources }
    requires job { i < length net.now.jobs }
    ensures { result ≡ use_beside net.now bounds.now k times.from times.until j i }
{
    if i != j && runs_throughout(net, bounds, times, i) {
        net.request(i, k)
    } else {
        0
    }
}

/// Whether a job runs at all of these times wherever it starts.
fn runs_throughout(net: &Network, bounds: &Domain, times: Times, i: usize) -> bool
    requires places { HasPlaces net.now bounds.now }
    requires job { i < length net.now.jobs }
    ensures { result ≡ runs_throughout net.now bounds.now times.from times.until i }
{
    bounds.upper(i) <= times.from && times.until <= bounds.lower(i) + net.duration(i) as u64
}
