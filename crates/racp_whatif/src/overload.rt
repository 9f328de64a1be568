//! Times at which more work falls on a resource than its units can do.

ghost use Rattle.std.specs.Prelude.{◌≡◌, ◌⊎◌, ◌<◌, IfSome, None, length};
ghost use Rattle.racp_whatif.specs.Fitting.{AllWorkFits, WorkFits, WorkFitsFrom};
ghost use Rattle.racp_whatif.specs.Within.{IsOver};

use crate::work::{Work, part_of, work_at};
use racp_clauses::Times;
use racp_model::{Network, Window, roof_of};
use std::cmp::{max, min};

/// The least work at some times that is more than so many units of a resource can do, of few jobs; or `None` if it is so
/// at none of the times that are looked at.
pub(crate) fn overload(net: &Network, window: &Window, k: usize, units: u32) -> Option<Work>
    requires resource { k < net.now.resources }
    requires lower { length window.now.lower ≡ length net.now.jobs }
    requires upper { length window.now.upper ≡ length net.now.jobs }
    ensures over { IfSome result (IsOver net.now window.now k units) }
    ensures none { result ≡ None → AllWorkFits net.now window.now k units (length net.now.jobs) }
{
    if roof_of(net, k) <= units {
        return None;
    }
    let mut best = None;
    for i in 0..net.job_count() {
        best = tried_from(net, window, k, units, i, best);
    }
    best
}

/// The same work, or that of as many jobs at all times at which each of them runs wherever it starts, if that is more than
/// the units can do too.
pub(crate) fn widened(net: &Network, window: &Window, k: usize, units: u32, work: Work) -> Work
    requires resource { k < net.now.resources }
    requires lower { length window.now.lower ≡ length net.now.jobs }
    requires upper { length window.now.upper ≡ length net.now.jobs }
    requires work { IsOver net.now window.now k units work }
    ensures { IsOver net.now window.now k units result }
{
    let times = shared_times(net, window, k, work.times);
    match tried(net, window, k, units, times, None) {
        Some(wide) if wide.jobs == work.jobs => wide,
        _ => work,
    }
}

/// From the last late start to the first early finish of the jobs that have a part in the work at some times. What becomes
/// of them is tried, so no contract speaks of them.
fn shared_times(net: &Network, window: &Window, k: usize, times: Times) -> Times
    requires resource { k < net.now.resources }
    requires lower { length window.now.lower ≡ length net.now.jobs }
    requires upper { length window.now.upper ≡ length net.now.jobs }
{
    let (mut from, mut until) = (0, u64::MAX);
    for i in 0..net.job_count() {
        if 0 < part_of(net, window, k, times, i) {
            from = max(from, window.upper()[i] as u64);
            until = min(until, window.lower()[i] as u64 + net.duration(i) as u64);
        }
    }
    Times { from, until }
}

/// The best that is known, or the work in the time unit from a late start on, or that from an early start until some late
/// finish, if these are better.
fn tried_from(
    net: &Network,
    window: &Window,
    k: usize,
    units: u32,
    i: usize,
    best: Option<Work>,
) -> Option<Work>
    requires resource { k < net.now.resources }
    requires job { i < length net.now.jobs }
    requires lower { length window.now.lower ≡ length net.now.jobs }
    requires upper { length window.now.upper ≡ length net.now.jobs }
    requires best { IfSome best (IsOver net.now window.now k units) }
    ensures over { IfSome result (IsOver net.now window.now k units) }
    ensures none { result ≡ None → (best ≡ None) × WorkFitsFrom net.now window.now k units i }
{
    let late = window.upper()[i] as u64;
    let core = Times {
        from: late,
        until: late + 1,
    };
    let mut found = tried(net, window, k, units, core, best);
    let from = window.lower()[i] as u64;
    for j in 0..net.job_count() {
        let until = window.upper()[j] as u64 + net.duration(j) as u64;
        found = tried(net, window, k, units, Times { from, until }, found);
    }
    found
}

/// The best that is known, or the work at these times if that is more than the units can do, and of fewer jobs.
fn tried(
    net: &Network,
    window: &Window,
    k: usize,
    units: u32,
    times: Times,
    best: Option<Work>,
) -> Option<Work>
    requires resource { k < net.now.resources }
    requires lower { length window.now.lower ≡ length net.now.jobs }
    requires upper { length window.now.upper ≡ length net.now.jobs }
    requires best { IfSome best (IsOver net.now window.now k units) }
    ensures over { IfSome result (IsOver net.now window.now k units) }
    ensures none { result ≡ None → (best ≡ None) × WorkFits net.now window.now k units times.from times.until }
{
    let work = work_at(net, window, k, times);
    let room = units as u128 * times.until.saturating_sub(times.from) as u128;
    if work.amount as u128 <= room {
        return best;
    }
    match best {
        Some(best) => Some(fewer(best, work)),
        None => Some(work),
    }
}

/// The one of fewer jobs; of as many, that of fewer times, or else the first.
fn fewer(best: Work, work: Work) -> Work
    ensures { (result ≡ best) ⊎ (result ≡ work) }
{
    let is_short = length_of(work.times) < length_of(best.times);
    if work.jobs < best.jobs || (work.jobs == best.jobs && is_short) {
        work
    } else {
        best
    }
}

/// How many these times are.
fn length_of(times: Times) -> u64 {
    times.until.saturating_sub(times.from)
}
