//! The least work at some times.

ghost use Rattle.std.specs.Prelude.{◌≡◌, ◌<◌, ◌≤◌, length};
ghost use Rattle.racp_model.specs.Schedule.{sum_below};
ghost use Rattle.racp_clauses.specs.Rules.{least_time, least_work};

use racp_clauses::Times;
use racp_model::{Network, Window};
use std::cmp::min;

/// The work that is done on a resource at some times wherever the jobs start in a window.
#[derive(Clone, Copy)]
pub(crate) struct Work {
    /// These times.
    pub times: Times,
    /// The least work, in units times time units.
    pub amount: u64,
    /// How many jobs have a part in it.
    pub jobs: usize,
}

/// The least work at some times.
#[tactic(auto, using(crate::proofs::Works::works))]
pub(crate) fn work_at(net: &Network, window: &Window, k: usize, times: Times) -> Work
    requires resource { k < net.now.resources }
    requires lower { length window.now.lower ≡ length net.now.jobs }
    requires upper { length window.now.upper ≡ length net.now.jobs }
    ensures times { result.times ≡ times }
    ensures amount { result.amount ≡ sum_below (length net.now.jobs) (least_work net.now window.now k times.from times.until) }
{
    let (mut amount, mut jobs) = (0, 0);
    for i in 0..net.job_count() {
        let part = part_of(net, window, k, times, i);
        amount += part;
        jobs += (0 < part) as usize;
    }
    Work {
        times,
        amount,
        jobs,
    }
}

/// What a job does of it.
pub(crate) fn part_of(net: &Network, window: &Window, k: usize, times: Times, i: usize) -> u64
    requires resource { k < net.now.resources }
    requires job { i < length net.now.jobs }
    requires lower { length window.now.lower ≡ length net.now.jobs }
    requires upper { length window.now.upper ≡ length net.now.jobs }
    ensures part { result ≡ least_work net.now window.now k times.from times.until i }
    ensures small { result ≤ 100000000 }
{
    prove!(i < net.job_count());
    net.request(i, k) as u64 * time_of(net, window, times, i)
}

/// The least number of these times at which a job runs.
fn time_of(net: &Network, window: &Window, times: Times, i: usize) -> u64
    requires job { i < length net.now.jobs }
    requires lower { length window.now.lower ≡ length net.now.jobs }
    requires upper { length window.now.upper ≡ length net.now.jobs }
    ensures time { result ≡ least_time net.now window.now times.from times.until i }
    ensures small { result ≤ 10000 }
{
    prove!(i < net.job_count());
    let duration = net.duration(i) as u64;
    let early = (window.lower()[i] as u64 + duration).saturating_sub(times.from);
    let late = times.until.saturating_sub(window.upper()[i] as u64);
    min(
        min(duration, times.until.saturating_sub(times.from)),
        min(early, late),
    )
}
